// Bytes: whether two slices hold the same, and UTF-8.
ghost use Rattle.std.specs.Prelude.{◌≡◌, true};
ghost use Rattle.json_text.specs.Utf8.{utf8, start, due_step, due_next, due_end};
ghost use Rattle.jer.specs.Table.{same_bytes};
ghost use Rattle.types.specs.Bytes.{due_of, Ascii};

// Named so that contracts can cite the definition.
pub fn same_bytes(a: &[u8], b: &[u8]) -> bool
    ensures { result ≡ same_bytes a.now b.now }
{
    a == b
}

// Where a check of UTF-8 stands. An enum, as it is one of three cases: only one has bounds and a count.
#[derive(Clone, Copy)]
pub enum Due {
    // Between characters.
    Start,
    // In one: a byte from the first number to the second is due, and then so many from 80 to BF.
    Next(u8, u8, u8),
    // Past a byte that no UTF-8 has there.
    Never,
}

// After the first byte of a character.
#[tactic(auto, unfolding(json_text::specs::Utf8::due_step, json_text::specs::Utf8::wide_rows, json_text::specs::Bytes::pick, crate::specs::Bytes::due_of))]
fn first(b: u8) -> Due
    ensures { due_of result ≡ due_step start b }
{
    match b {
        0x00..=0x7F => Due::Start,
        0xC2..=0xDF => Due::Next(0x80, 0xBF, 0),
        0xE0 => Due::Next(0xA0, 0xBF, 1),
        0xE1..=0xEC | 0xEE..=0xEF => Due::Next(0x80, 0xBF, 1),
        0xED => Due::Next(0x80, 0x9F, 1),
        0xF0 => Due::Next(0x90, 0xBF, 2),
        0xF1..=0xF3 => Due::Next(0x80, 0xBF, 2),
        0xF4 => Due::Next(0x80, 0x8F, 2),
        _ => Due::Never,
    }
}

// With n more bytes of the character to come.
fn tail(n: u8) -> Due
    ensures { due_of result ≡ due_next n }
{
    if n == 0 {
        return Due::Start;
    }
    Due::Next(0x80, 0xBF, n - 1)
}

impl Due {
    pub fn step(self, b: u8) -> Due
        ensures { due_of result ≡ due_step (due_of self) b }
    {
        match self {
            Due::Start => first(b),
            Due::Next(low, high, more) => {
                if b < low {
                    return Due::Never;
                }
                if high < b {
                    return Due::Never;
                }
                tail(more)
            }
            Due::Never => Due::Never,
        }
    }

    pub fn ended(self) -> bool
        ensures { result ≡ due_end (due_of self) }
    {
        matches!(self, Due::Start)
    }
}

// Not by `str::from_utf8`: that promises `IsUtf8` of std, and no law here ties it to the `utf8` that contracts cite.
pub fn utf8(s: &[u8]) -> bool
    ensures { result ≡ utf8 s.now }
{
    let mut due = Due::Start;
    for b in s {
        due = due.step(*b);
    }
    due.ended()
}

// Every byte is ASCII.
pub fn all_ascii(s: &[u8]) -> bool
    ensures { result ≡ true → Ascii s.now }
{
    s.is_ascii()
}
