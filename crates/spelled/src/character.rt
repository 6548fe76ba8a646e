// One character of a string: escaped, or of more than one byte.
ghost use Rattle.std.specs.Prelude.{◌≡◌, true, [], ◌∷◌, ◌+◌, ◌≤◌, ◌<◌, length, IfSome};
ghost use Rattle.json_text.specs.Utf8.{encode, Wide};
ghost use Rattle.tokens.specs.Places.{byte_at};
ghost use Rattle.spelled.specs.Stretch.{Passed};
ghost use Rattle.spelled.specs.Leaves.{Letter, Coded, CharAt};

use crate::bytes::byte;
use slices::{byte_at, hex_value};

// The place after an escape, and how many bytes its character has.
#[derive(Clone, Copy)]
pub struct Escaped {
    pub next: usize,
    pub count: usize,
}

// The unit that is escaped at p by four digits, if it is: that of `tokens` takes them for granted.
fn unit(s: &[u8], p: usize) -> Option<u32>
    requires { p ≤ length s.now }
    ensures { IfSome result (λ x. Passed (Coded x) s.now p (p + 6) × (x < 0x10000)) }
{
    if s.len() - p < 6 || s[p] != 0x5C || s[p + 1] != 0x75 {
        return None;
    }
    // All four before the first `?`: LLVM takes what follows several `?` for rare and leaves calls there, 15 % more instructions to read a text of escapes.
    let i = hex_value(s[p + 2]);
    let j = hex_value(s[p + 3]);
    let k = hex_value(s[p + 4]);
    let l = hex_value(s[p + 5]);
    Some(((u32::from(i?) * 16 + u32::from(j?)) * 16 + u32::from(k?)) * 16 + u32::from(l?))
}

// Whether b is a letter that follows a backslash, and not u.
fn letter(b: u32) -> bool
    ensures { result ≡ true → Letter b }
{
    matches!(b, 0x22 | 0x5C | 0x2F | 0x62 | 0x66 | 0x6E | 0x72 | 0x74)
}

// How many bytes the character x has. No `char`: a lone surrogate is a number here like any other.
fn size(x: u32) -> usize
    requires { x < 0x10000 }
    ensures { (result ≡ length (encode x)) × (0 < result) × (result ≤ 3) }
{
    if x < 0x80 {
        return 1;
    }
    if x < 0x800 {
        return 2;
    }
    3
}

// The character that is escaped at p by four digits, or by twice four.
fn unescaped(s: &[u8], p: usize) -> Option<Escaped>
    requires { p ≤ length s.now }
    ensures { IfSome result (λ e. CharAt s.now p e.next e.count true × (p < e.next)) }
{
    let x = unit(s, p)?;
    match x {
        0xD800..=0xDBFF => match unit(s, p + 6)? {
            0xDC00..=0xDFFF => Some(Escaped {
                next: p + 12,
                count: 4,
            }),
            _ => None,
        },
        0xDC00..=0xDFFF => None,
        _ => Some(Escaped {
            next: p + 6,
            count: size(x),
        }),
    }
}

// The escaped character whose backslash stands at p.
pub fn escape(s: &[u8], p: usize) -> Option<Escaped>
    requires { byte_at s.now p ≡ 0x5C }
    ensures { IfSome result (λ e. CharAt s.now p e.next e.count true × (p < e.next)) }
{
    if letter(byte_at(s, p + 1)) {
        return Some(Escaped {
            next: p + 2,
            count: 1,
        });
    }
    unescaped(s, p)
}

// Whether these are a character of three bytes.
fn three(a: u32, b: u32, c: u32) -> bool
    requires { (0xE0 ≤ a) × (a ≤ 0xEF) }
    ensures { result ≡ true → Wide (a ∷ b ∷ c ∷ []) × (c < 256) }
{
    if !later(b) {
        return false;
    }
    if !later(c) {
        return false;
    }
    if a == 0xE0 {
        return 0xA0 <= b;
    }
    if a == 0xED {
        return b <= 0x9F;
    }
    true
}

// Whether these are one of four.
fn four(a: u32, b: u32, c: u32, d: u32) -> bool
    requires { 0xF0 ≤ a }
    ensures { result ≡ true → Wide (a ∷ b ∷ c ∷ d ∷ []) × (d < 256) }
{
    if !later(b) {
        return false;
    }
    if !later(c) {
        return false;
    }
    if !later(d) {
        return false;
    }
    if a == 0xF0 {
        return 0x90 <= b;
    }
    if a == 0xF4 {
        return b <= 0x8F;
    }
    a < 0xF4
}

// Whether b is one of the later bytes of a character.
fn later(b: u32) -> bool
    ensures { result ≡ true → (0x80 ≤ b) × (b ≤ 0xBF) }
{
    matches!(b, 0x80..=0xBF)
}

// How many bytes the character at p has, if more than one.
pub fn wide(s: &[u8], p: usize) -> Option<usize>
    requires { p < length s.now }
    ensures { IfSome result (λ n. Passed Wide s.now p (p + n) × (n ≤ 4)) }
{
    let a = byte(s, p);
    let b = byte_at(s, p + 1);
    // Early tests, and c is read after b is known: with a match with guards a text of such characters takes 8 % more instructions.
    if a < 0xC2 {
        return None;
    }
    if a < 0xE0 {
        if later(b) {
            return Some(2);
        }
        return None;
    }
    if 255 < b {
        return None;
    }
    let c = byte_at(s, p + 2);
    if a < 0xF0 {
        if three(a, b, c) {
            return Some(3);
        }
        return None;
    }
    if 255 < c {
        return None;
    }
    if four(a, b, c, byte_at(s, p + 3)) {
        return Some(4);
    }
    None
}
