// What the walk over the text reads.
ghost use Rattle.std.specs.Prelude.{◌≤◌, length};

use spelled::plain::Flags;

// A type table with its names, a text within the size, and the table of plain characters. That the type table is good is no part of it:
// `take` asks for that, and the walk in `Given`, while a member's name and a value without parts are read without it.
#[derive(Clone, Copy)]
pub struct Source<'a> {
    pub types: &'a [u32],
    pub names: &'a [u8],
    pub s: &'a [u8],
    pub flags: &'a Flags,
    pub ghost short: { length s.now ≤ 65536 },
}
