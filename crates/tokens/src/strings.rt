// Strings, from the place after the opening quotation mark: the characters that they denote, compared, counted and copied.
ghost use Rattle.std.specs.Prelude.{◌≡◌, true, false, List, ℕ, ◌≤◌, ◌<◌, length, take, drop, IfSome};
ghost use Rattle.std.proofs.lemmas.List.Edits.{sets};
ghost use Rattle.json_text.specs.Utf8.{encode};
ghost use Rattle.json_text.specs.Grammar.{paired};
ghost use Rattle.jer.specs.Table.{same_bytes};
ghost use Rattle.tokens.specs.Strings.{digit_at, unit_at, letter_of, is_high, Bare, Escaped, escape_at, piece_at, denoted, string_end};
ghost use Rattle.tokens.specs.Enums.{Coded};

use slices::{byte_at, hex_value, part, put, put_all};

// One piece of a string.
#[derive(Clone, Copy)]
pub enum Piece {
    // The closing quotation mark or the text's end.
    Close,
    // A byte that stands for itself.
    Bare(u8),
    // An escaped character, and the place after it.
    Escaped(u32, usize),
}

// The place after the closing quotation mark, or the end.
pub fn string_end(s: &[u8], p: usize) -> usize
    requires { length s.now ≤ 65536 }
    ensures { result ≡ string_end s.now p }
{
    let mut i = p;
    // An escape is longer than one byte: the step varies.
    while i < s.len() {
        let b = s[i];
        if b == 0x22 {
            return i + 1;
        }
        if b == 0x5C {
            i += 2;
        } else {
            i += 1;
        }
    }
    i
}

// A hexadecimal digit's value, 0 for any other byte.
#[tactic(auto, unfolding(crate::specs::Strings::digit_at, jer::specs::Octets::hex_value, json_text::specs::Bytes::pick))]
fn digit(s: &[u8], p: usize) -> u32
    ensures { (result ≡ digit_at s.now p) × (result ≤ 15) }
{
    s.get(p).copied().and_then(hex_value).map_or(0, u32::from)
}

// Four hexadecimal digits.
#[tactic(auto, unfolding(crate::specs::Strings::unit_at))]
fn unit(s: &[u8], p: usize) -> u32
    requires { p ≤ 4294967295 }
    ensures { (result ≡ unit_at s.now p) × (result ≤ 65535) }
{
    ((digit(s, p) * 16 + digit(s, p + 1)) * 16 + digit(s, p + 2)) * 16 + digit(s, p + 3)
}

// The character of a letter after a backslash.
#[tactic(auto, unfolding(crate::specs::Strings::letter_of, json_text::specs::Bytes::pick))]
fn letter(b: u32) -> u32
    requires { b ≤ 256 }
    ensures { (result ≡ letter_of b) × (result ≤ 256) }
{
    match b {
        0x62 => 0x08,
        0x66 => 0x0C,
        0x6E => 0x0A,
        0x72 => 0x0D,
        0x74 => 0x09,
        _ => b,
    }
}

// Whether a unit is the first of a surrogate pair.
fn is_high(x: u32) -> bool
    ensures { result ≡ is_high x }
{
    matches!(x, 0xD800..=0xDBFF)
}

// The character of a surrogate pair.
fn pair(high: u32, low: u32) -> u32
    requires { (is_high high ≡ true) × (low ≤ 65535) }
    ensures { (result ≡ paired high low) × (result < 2097152) }
{
    0x10000 + (high - 0xD800) * 0x400 + low.saturating_sub(0xDC00)
}

// An escaped character, and the place after it.
#[derive(Clone, Copy)]
pub struct Unescaped {
    pub code: u32,
    pub next: usize,
}

// What a backslash before p makes.
fn escape(s: &[u8], p: usize) -> Unescaped
    requires { p ≤ 65536 }
    ensures next_value { Escaped result.code result.next ≡ escape_at s.now p }
    ensures code_bound { result.code < 2097152 }
{
    let b = byte_at(s, p);
    if b != 0x75 {
        return Unescaped {
            code: letter(b),
            next: p + 1,
        };
    }
    let x = unit(s, p + 1);
    if !is_high(x) {
        return Unescaped {
            code: x,
            next: p + 5,
        };
    }
    Unescaped {
        code: pair(x, unit(s, p + 7)),
        next: p + 11,
    }
}

// The piece at p.
pub fn piece_at(s: &[u8], p: usize) -> Piece
    requires { length s.now ≤ 65536 }
    ensures value { result ≡ piece_at s.now p }
    ensures coded { Coded result }
{
    if s.len() <= p {
        return Piece::Close;
    }
    let b = s[p];
    if b == 0x22 {
        return Piece::Close;
    }
    if b == 0x5C {
        let e = escape(s, p + 1);
        return Piece::Escaped(e.code, e.next);
    }
    Piece::Bare(b)
}

// The UTF-8 of a character, in the bytes that are lent for it. No `char`: the definition encodes every number below 2^21.
fn encoded(x: u32, bytes: &mut [u8; 4]) -> &[u8]
    requires { x < 2097152 }
    ensures { result.now ≡ encode x }
{
    if x < 0x80 {
        *bytes = [x as u8, 0, 0, 0];
        return &bytes[..1];
    }
    let a = (0x80 + x % 0x40) as u8;
    if x < 0x800 {
        *bytes = [(0xC0 + x / 0x40) as u8, a, 0, 0];
        return &bytes[..2];
    }
    let b = (0x80 + x / 0x40 % 0x40) as u8;
    if x < 0x10000 {
        *bytes = [(0xE0 + x / 0x1000) as u8, b, a, 0];
        return &bytes[..3];
    }
    let c = (0x80 + x / 0x1000 % 0x40) as u8;
    *bytes = [(0xF0 + x / 0x40000) as u8, c, b, a];
    &bytes[..]
}

// Whether the string at p denotes these bytes.
pub fn same_as(s: &[u8], p: usize, name: &[u8]) -> bool
    requires { length s.now ≤ 65536 }
    ensures { result ≡ same_bytes name.now (denoted s.now p) }
{
    let mut i = p;
    let mut k = 0;
    // An escape is longer than one byte: the step varies.
    while i < s.len() {
        let b = s[i];
        if b == 0x22 {
            return k == name.len();
        }
        if b == 0x5C {
            let e = escape(s, i + 1);
            let mut four = [0u8; 4];
            let bytes = encoded(e.code, &mut four);
            if !name[k..].starts_with(bytes) {
                return false;
            }
            k += bytes.len();
            i = e.next;
        } else {
            if byte_at(name, k) != u32::from(b) {
                return false;
            }
            k += 1;
            i += 1;
        }
    }
    k == name.len()
}

// The first byte of the string at p, if it stands for itself.
pub fn plain_first(s: &[u8], p: usize) -> Option<u8>
    ensures { IfSome result (λ b. Bare b ≡ piece_at s.now p) }
{
    let b = *s.get(p)?;
    if b == 0x22 || b == 0x5C {
        return None;
    }
    Some(b)
}

// Whether no name at `from` can be a string whose plain first byte is b. Where there is no such byte, any can. With `is_some_and` in place of
// the match the proof did not close: the clause takes b apart, and the closure's relation does not.
pub fn first_differs(names: &[u8], from: usize, b: Option<u8>) -> bool
    ensures { result ≡ true → (s : List ℕ) (p n : ℕ) → IfSome b (λ b. Bare b ≡ piece_at s p) → same_bytes (take n (drop from names.now)) (denoted s p) ≡ false }
{
    match b {
        None => false,
        Some(b) => byte_at(names, from) != u32::from(b),
    }
}

// Whether the string at p denotes the name that stands in `names` at `from`, len bytes long.
pub fn same(s: &[u8], p: usize, names: &[u8], from: usize, len: usize) -> bool
    requires { length s.now ≤ 65536 }
    ensures { result ≡ same_bytes (take len (drop from names.now)) (denoted s.now p) }
{
    let name = part(names, from, len);
    same_as(s, p, name)
}

// Stores the bytes that the string at p denotes, from j on, as far as there is room. Returns how many they are.
fn copy_rest(s: &[u8], p: usize, pool: &mut [u8], j: usize) -> usize
    requires { (length s.now ≤ 65536) × (j ≤ 4295491584) }
    ensures value { result ≡ length (denoted s.now p) }
    ensures pool_after { pool.new ≡ sets pool.old j (denoted s.now p) }
{
    let mut i = p;
    let mut n = 0;
    // An escape is longer than one byte: the step varies.
    while i < s.len() {
        let b = s[i];
        if b == 0x22 {
            return n;
        }
        if b == 0x5C {
            let e = escape(s, i + 1);
            let mut four = [0u8; 4];
            let bytes = encoded(e.code, &mut four);
            put_all(pool, j + n, bytes);
            n += bytes.len();
            i = e.next;
        } else {
            put(pool, j + n, b);
            n += 1;
            i += 1;
        }
    }
    n
}

// A string that was copied: how many bytes it denotes, and a place from which its end is still to be sought.
#[derive(Clone, Copy)]
pub struct Copied {
    pub count: usize,
    pub from: usize,
}

// As `copy_rest`. The end is to be sought from the first escape on, so that what stands before it is walked once.
pub fn copy(s: &[u8], p: usize, pool: &mut [u8], j: usize) -> Copied
    requires { (length s.now ≤ 65536) × (j ≤ 4294967296) }
    ensures count_value { result.count ≡ length (denoted s.now p) }
    ensures from_value { string_end s.now result.from ≡ string_end s.now p }
    ensures pool_after { pool.new ≡ sets pool.old j (denoted s.now p) }
{
    for i in p..s.len() {
        let b = s[i];
        let n = i - p;
        if b == 0x22 {
            return Copied { count: n, from: i };
        }
        if b == 0x5C {
            let rest = copy_rest(s, i, pool, j + n);
            return Copied {
                count: n + rest,
                from: i,
            };
        }
        put(pool, j + n, b);
    }
    Copied {
        count: s.len().saturating_sub(p),
        from: p.max(s.len()),
    }
}
