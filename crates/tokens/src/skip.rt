// Past a value and all its nesting.
ghost use Rattle.std.specs.Prelude.{◌≡◌, ◌≤◌, length};
ghost use Rattle.tokens.specs.Skip.{is_opening, is_closing, past_value, past_bracket};

use crate::cursor::{Class, run};
use crate::strings::string_end;
use slices::byte_at;

fn opens(b: u32) -> bool
    ensures { result ≡ is_opening b }
{
    matches!(b, 0x5B | 0x7B)
}

fn closes(b: u8) -> bool
    ensures { result ≡ is_closing b }
{
    matches!(b, 0x5D | 0x7D)
}

// The place after the value at p, in which `depth` brackets may be open; the text's end at one more.
#[cycle(skip_bracket_skip_value)]
pub fn skip_value(s: &[u8], p: usize, depth: u32) -> usize
    requires { length s.now ≤ 65536 }
    ensures { result ≡ past_value depth s.now p }
{
    let b = byte_at(s, p);
    if b == 0x22 {
        return string_end(s, p + 1);
    }
    if opens(b) {
        return skip_bracket(s, p + 1, depth);
    }
    run(s, p, Class::Word)
}

// The place after the bracket whose parts begin at p.
#[cycle(skip_bracket_skip_value)]
pub fn skip_bracket(s: &[u8], p: usize, depth: u32) -> usize
    requires { length s.now ≤ 65536 }
    ensures { result ≡ past_bracket depth s.now p }
{
    if depth == 0 {
        return s.len();
    }
    let mut i = p;
    // A part ends where it is skipped to: the step varies.
    loop {
        let q = run(s, i, Class::Between);
        let Some(b) = s.get(q) else {
            return q;
        };
        if closes(*b) {
            return q + 1;
        }
        i = skip_value(s, q, depth - 1);
    }
}
