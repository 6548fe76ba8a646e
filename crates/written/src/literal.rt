// Bytes that stand for themselves in a string.
ghost use Rattle.std.specs.Prelude.{◌≡◌, true, ◌≤◌};
ghost use Rattle.written.specs.Literal.{IsLiteral, LiteralByte};

// A full stop for each byte of ASCII that stands for itself, a hyphen for the bytes of wider characters; 32 bytes a line.
const MARKS: [u8; 256] = *b"\
    !!!!!!!!!!!!!!!!!!!!!!!!!!!!!!!!\
    ..!.............................\
    ............................!...\
    ................................\
    --------------------------------\
    --------------------------------\
    --------------------------------\
    --------------------------------";

// The least marks of bytes that stand for themselves: of ASCII, and of all.
pub const ASCII: u8 = 0x2E;

pub const ANY: u8 = 0x2D;

// The table, made once for a whole value: a constant array is made anew wherever it is read.
#[derive(Drop)]
pub struct Literal {
    pub marks: [u8; 256],
    pub ghost right: { IsLiteral marks },
}

impl Literal {
    pub fn new() -> Literal
        ensures { IsLiteral result.marks }
    {
        Literal { marks: MARKS }
    }

    // The byte has the least mark.
    pub fn has(&self, least: u8, b: u8) -> bool
        requires { 0x2D ≤ least }
        ensures { result ≡ true → LiteralByte least b }
    {
        least <= self.marks[usize::from(b)]
    }
}
