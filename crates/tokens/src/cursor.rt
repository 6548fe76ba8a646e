// Places in a text: the byte at one, runs of bytes of one class, and the cursor.
ghost use Rattle.std.specs.Prelude.{◌≡◌, ◌+◌, ◌≤◌, ◌<◌};
ghost use Rattle.tokens.specs.Places.{byte_at, is_space, run_from, past_space};
ghost use Rattle.tokens.specs.Skip.{is_end, is_between};
ghost use Rattle.tokens.specs.Numbers.{is_digit};
ghost use Rattle.tokens.specs.Enums.{passes};

// The bytes that a run passes. No closure says so: its contract is a relation, so `run` could promise `run_from` only at each test that
// the relation implies, and every caller would have to show one.
#[derive(Clone, Copy)]
pub enum Class {
    // White space.
    Space,
    // What stands between the parts of a bracket: white space, commas and colons.
    Between,
    // What a number or a literal is made of.
    Word,
    // Decimal digits.
    Digit,
}

// Here and in the two tests below `||` stands in place of `matches!`, for speed: LLVM makes one test by a bit mask of such a chain, and
// a comparison for each byte of the other, which took a sixth more instructions to read a text of long numbers.
fn is_space(b: u8) -> bool
    ensures { result ≡ is_space b }
{
    b == 0x20 || (b == 0x09 || (b == 0x0A || b == 0x0D))
}

fn is_between(b: u8) -> bool
    ensures { result ≡ is_between b }
{
    is_space(b) || (b == 0x2C || b == 0x3A)
}

fn is_end(b: u8) -> bool
    ensures { result ≡ is_end b }
{
    is_space(b) || (b == 0x2C || (b == 0x5D || b == 0x7D))
}

fn is_digit(b: u8) -> bool
    ensures { result ≡ is_digit b }
{
    b.is_ascii_digit()
}

fn is_in(class: Class, b: u8) -> bool
    ensures { result ≡ passes class b }
{
    match class {
        Class::Space => is_space(b),
        Class::Between => is_between(b),
        Class::Word => !is_end(b),
        Class::Digit => is_digit(b),
    }
}

// The first place from p on whose byte is not of the class, or the end. A loop: p may be past the end, where `s[p..]` would fail.
pub fn run(s: &[u8], p: usize, class: Class) -> usize
    ensures { result ≡ run_from (passes class) s.now p }
{
    for i in p..s.len() {
        if !is_in(class, s[i]) {
            return i;
        }
    }
    p.max(s.len())
}

// A place in a text that is lent beside it.
#[derive(Clone, Copy)]
pub struct Cursor {
    pub at: usize,
}

impl Cursor {
    // Past the white space at the cursor.
    pub fn skip_space(self, s: &[u8]) -> Cursor
        ensures { result.at ≡ past_space s.now self.at }
    {
        Cursor {
            at: run(s, self.at, Class::Space),
        }
    }

    // Past n bytes.
    pub fn advance(self, n: usize) -> Cursor
        requires { self.at + n < 18446744073709551616 }
        ensures { result.at ≡ self.at + n }
    {
        Cursor { at: self.at + n }
    }
}
