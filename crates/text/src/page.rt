// A lent buffer that text is put into from the front.
ghost use Rattle.std.specs.Prelude.{◌≤◌, length};

// The buffer, and how much of it is filled.
#[derive(Drop)]
pub struct Page<'a> {
    buf: &'a mut [u8],
    at: usize,
    ghost in_range: { at ≤ length buf.now },
}

impl<'a> Page<'a> {
    ghost use Rattle.std.specs.Prelude.{◌≡◌, ◌+◌, ◌++◌, ◌∷◌, []};
    ghost use Rattle.text.specs.Page.{written, capacity, SamePage};
    ghost use Rattle.text.specs.Text.{number_text};

    // Nothing is filled yet.
    pub fn new(buf: &'a mut [u8]) -> Page<'a>
        ensures text { written result ≡ [] }
        ensures capacity { capacity result ≡ length buf.old }
        ensures same { result.buf.ghost_name ≡ buf.entry.ghost_name }
    {
        Page { buf, at: 0 }
    }

    // The text so far.
    pub fn text(&self) -> &[u8]
        ensures { result.now ≡ written self.now }
    {
        &self.buf[..self.at]
    }

    // How many bytes more it takes.
    pub fn room(&self) -> usize
        ensures { result + length (written self.now) ≡ capacity self.now }
    {
        self.buf.len() - self.at
    }

    // Nothing is filled any more.
    pub fn clear(&mut self)
        ensures text { written self.new ≡ [] }
        ensures capacity { capacity self.new ≡ capacity self.old }
        ensures same { SamePage self.old self.new }
    {
        self.at = 0;
    }

    // A text after the one so far.
    pub fn put(&mut self, s: &[u8])
        requires { length (written self.old) + length s.now ≤ capacity self.old }
        ensures text { written self.new ≡ written self.old ++ s.now }
        ensures capacity { capacity self.new ≡ capacity self.old }
        ensures same { SamePage self.old self.new }
    {
        octets::copy(s, &mut self.buf[self.at..]);
        self.at += s.len();
    }

    // A number, and a byte after it: a number has at most 20 digits.
    pub fn put_number(&mut self, n: usize, last: u8)
        requires { length (written self.old) + 21 ≤ capacity self.old }
        ensures text { written self.new ≡ written self.old ++ number_text n last }
        ensures capacity { capacity self.new ≡ capacity self.old }
        ensures same { SamePage self.old self.new }
        ensures bound { length (written self.new) ≤ length (written self.old) + 21 }
    {
        let mut digits = itoa::Buffer::new();
        let number = digits.format(n);
        self.put(number.as_bytes());
        self.put(&[last]);
    }
}
