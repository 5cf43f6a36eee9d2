// The nodes that a concat joins, as they stand in its payload: a u32 each, little-endian.
ghost use Rattle.std.specs.Prelude.{◌≤◌, length};

#[derive(Clone, Copy)]
pub struct Nodes<'a> {
    pub bytes: &'a [u8],
    ghost few: { length bytes.now ≤ 65536 },
}
