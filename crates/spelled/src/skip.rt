// Past a value of any kind, with all its nesting.
ghost use Rattle.std.specs.Prelude.{◌≡◌, ℕ, ◌<◌, ◌≤◌, length, IfSome};
ghost use Rattle.json_text.specs.Grammar.{Space};
ghost use Rattle.tokens.specs.Places.{byte_at};
ghost use Rattle.spelled.specs.Stretch.{Stretch, ValueAt, NameAt};

use crate::number::number;
use crate::plain::Flags;
use crate::space::space;
use crate::string::string;
use crate::word::literal;
use slices::byte_at;

// The place after the value at p, in which `depth` brackets may be open.
#[cycle(array_object_skip)]
pub fn skip(s: &[u8], p: usize, flags: &Flags, depth: u32) -> Option<usize>
    ensures { IfSome result (λ q. ValueAt depth s.now p q) }
{
    match byte_at(s, p) {
        0x22 => Some(string(s, p, flags)?.next),
        0x5B => array(s, p, flags, depth),
        0x66 => literal(s, p, b"false"),
        0x6E => literal(s, p, b"null"),
        0x74 => literal(s, p, b"true"),
        0x7B => object(s, p, flags, depth),
        _ => number(s, p),
    }
}

// The place after the array whose bracket stands at p.
#[cycle(array_object_skip)]
fn array(s: &[u8], p: usize, flags: &Flags, depth: u32) -> Option<usize>
    requires { byte_at s.now p ≡ 0x5B }
    ensures { IfSome result (λ q. ValueAt depth s.now p q) }
{
    if depth == 0 {
        return None;
    }
    let mut at = space(s, p + 1);
    if byte_at(s, at) == 0x5D {
        return Some(at + 1);
    }
    // A part ends where it is skipped to: the step varies.
    loop {
        let q = skip(s, at, flags, depth - 1)?;
        let c = space(s, q);
        let b = byte_at(s, c);
        if b == 0x5D {
            return Some(c + 1);
        }
        if b != 0x2C {
            return None;
        }
        at = space(s, c + 1);
    }
}

// The place after the name at p and its colon.
fn name(s: &[u8], p: usize, flags: &Flags) -> Option<usize>
    ensures { IfSome result (λ r. ((o : ℕ) → Stretch Space s.now o p → NameAt s.now o p r) × (p < r) × (r ≤ length s.now)) }
{
    let w = string(s, p, flags)?;
    let c = space(s, w.next);
    if byte_at(s, c) != 0x3A {
        return None;
    }
    Some(c + 1)
}

// The place after the object whose brace stands at p. Not one with `array`: a name stands before each value.
#[cycle(array_object_skip)]
fn object(s: &[u8], p: usize, flags: &Flags, depth: u32) -> Option<usize>
    requires { byte_at s.now p ≡ 0x7B }
    ensures { IfSome result (λ q. ValueAt depth s.now p q) }
{
    if depth == 0 {
        return None;
    }
    let mut at = space(s, p + 1);
    if byte_at(s, at) == 0x7D {
        return Some(at + 1);
    }
    // A part ends where it is skipped to: the step varies.
    loop {
        let v = name(s, at, flags)?;
        let q = skip(s, space(s, v), flags, depth - 1)?;
        let c = space(s, q);
        let b = byte_at(s, c);
        if b == 0x7D {
            return Some(c + 1);
        }
        if b != 0x2C {
            return None;
        }
        at = space(s, c + 1);
    }
}
