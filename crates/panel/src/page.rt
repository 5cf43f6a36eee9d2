// Text on its way to standard output. It waits in a block that is written out when it is full, for a write a word would be slow.
// There is no heap, so the block lies in the page itself.
ghost use Rattle.std.specs.Prelude.{◌≡◌, ◌<◌, [], length, None, OnOk, IfOk, IfErr};
ghost use Rattle.std.specs.Io.{WritesAtMost};
ghost use Rattle.std.specs.Io.KnownBytes.{Appends, WriteAppends, Keeps};

use arrayvec::ArrayVec;
use std::io::{Result, Write};

const BLOCK: usize = 65536;

#[derive(Drop)]
pub struct Page<W> {
    to: W,
    waiting: ArrayVec<u8, BLOCK>,
}

impl<W> Page<W> {
    pub fn new(to: W) -> Page<W> {
        Page {
            to,
            waiting: ArrayVec::new(),
        }
    }
}

// A write that fails may have written a part; all that waited waits on.
impl<W: Write> Write for Page<W> {
    // Takes as much as there is room for, once a full block is written out.
    fn write(&mut self, buf: &[u8]) -> Result<usize>
        ensures bound { WritesAtMost result buf.now }
        ensures bytes { WriteAppends None None result buf.now }
        ensures progress { IfOk result (λ n. 0 < length buf.now → 0 < n) }
    {
        if self.waiting.is_full() {
            self.flush()?;
        }
        self.waiting.write(buf)
    }

    // Writes out what waits: then nothing does.
    fn flush(&mut self) -> Result<()>
        ensures bytes { Keeps None None }
        ensures written { OnOk result (Appends (W.contents self.old.to) (W.contents self.new.to) self.old.waiting.items) }
        ensures empty { OnOk result (self.new.waiting.items ≡ []) }
        ensures kept { IfErr result (λ e. self.new.waiting ≡ self.old.waiting) }
    {
        self.to.write_all(&self.waiting)?;
        self.waiting.clear();
        Ok(())
    }
}
