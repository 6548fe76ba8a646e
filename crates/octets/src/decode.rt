// Octets from the characters that a string denotes, from the place after its opening quotation mark.
ghost use Rattle.std.specs.Prelude.{◌≡◌, ◌≤◌, ◌<◌, ℕ, List, Option, length, IfSome};
ghost use Rattle.std.specs.Option.{option_map};
ghost use Rattle.jer.specs.Octets.{hex_value, unhex, base64_value, unbase64};
ghost use Rattle.tokens.specs.Strings.{denoted};
ghost use Rattle.octets.specs.Decode.{Stored, ascii_value, Reads, Groups, Tail};

use slices::{hex_value, put_all};
use tokens::strings::{Piece, piece_at, same_as};

// The next character of a string, or the next digit. Three cases: that a string ends is no error.
#[derive(Clone, Copy)]
pub enum Next {
    // The string's end.
    End,
    // Its value, and the place after it.
    Is(u8, usize),
    // Another character.
    Other,
}

// The next group of digits, in the same three cases.
#[derive(Clone, Copy)]
pub enum Group {
    // The string's end.
    End,
    // The first so many of three octets, and the place after the group. The octets stand by value: a slice would need a buffer beside the enum.
    Octets(u8, u8, u8, usize, usize),
    // No group.
    Other,
}

// The character at i, if it is below U+0080.
pub fn next_char(s: &[u8], i: usize) -> Next
    requires { length s.now ≤ 65536 }
    ensures { Reads ascii_value s.now i result }
{
    match piece_at(s, i) {
        Piece::Close => Next::End,
        Piece::Bare(b) => {
            if b < 0x80 {
                Next::Is(b, i + 1)
            } else {
                Next::Other
            }
        }
        Piece::Escaped(x, q) => {
            if x < 0x80 {
                Next::Is(x as u8, q)
            } else {
                Next::Other
            }
        }
    }
}

// A Base64 digit's value.
#[tactic(auto, unfolding(jer::specs::Octets::base64_value, json_text::specs::Bytes::pick))]
pub fn base64_value(b: u8) -> Option<u8>
    ensures value { result ≡ base64_value b }
    ensures few { IfSome result (λ x. x < 64) }
{
    match b {
        0x2B => Some(62),
        0x2F => Some(63),
        0x30..=0x39 => Some(b + 0x04),
        0x41..=0x5A => Some(b - 0x41),
        0x61..=0x7A => Some(b - 0x47),
        _ => None,
    }
}

// The hexadecimal digit at i.
fn hex_digit(s: &[u8], i: usize) -> Next
    requires { length s.now ≤ 65536 }
    ensures { Reads hex_value s.now i result }
{
    match next_char(s, i) {
        Next::End => Next::End,
        Next::Other => Next::Other,
        Next::Is(b, q) => match hex_value(b) {
            Some(x) => Next::Is(x, q),
            None => Next::Other,
        },
    }
}

// The Base64 digit at i. It differs from `hex_digit` in the value alone: a trait with the value as its method would be longer than both.
fn base64_digit(s: &[u8], i: usize) -> Next
    requires { length s.now ≤ 65536 }
    ensures { Reads base64_value s.now i result }
{
    match next_char(s, i) {
        Next::End => Next::End,
        Next::Other => Next::Other,
        Next::Is(b, q) => match base64_value(b) {
            Some(x) => Next::Is(x, q),
            None => Next::Other,
        },
    }
}

// After the digits of x and y: two more, one and a pad, or two pads, which end the string.
fn base64_tail(s: &[u8], i: usize, x: u8, y: u8) -> Group
    requires { (length s.now ≤ 65536) × (x < 64) × (y < 64) }
    ensures { Tail s.now i x y result }
{
    let Next::Is(z, p) = base64_digit(s, i) else {
        if y % 16 != 0 {
            return Group::Other;
        }
        if !same_as(s, i, b"==") {
            return Group::Other;
        }
        return Group::Octets(x * 4 + y / 16, 0, 0, 1, s.len());
    };
    let Next::Is(w, q) = base64_digit(s, p) else {
        if z % 4 != 0 {
            return Group::Other;
        }
        if !same_as(s, p, b"=") {
            return Group::Other;
        }
        return Group::Octets(x * 4 + y / 16, y % 16 * 16 + z / 4, 0, 2, s.len());
    };
    Group::Octets(x * 4 + y / 16, y % 16 * 16 + z / 4, z % 4 * 64 + w, 3, q)
}

// A way to write octets as characters, group by group.
trait Coding {
    // The octets of characters.
    ghost octets: { List ℕ → Option (List ℕ) };

    // The group at i.
    fn group(s: &[u8], i: usize) -> Group
        requires { length s.now ≤ 65536 }
        ensures { Groups octets s.now i result };
}

// Two hexadecimal digits a group.
struct Hex;

impl Coding for Hex {
    ghost octets = { unhex };

    fn group(s: &[u8], i: usize) -> Group {
        match hex_digit(s, i) {
            Next::End => Group::End,
            Next::Other => Group::Other,
            Next::Is(x, p) => {
                let Next::Is(y, q) = hex_digit(s, p) else {
                    return Group::Other;
                };
                Group::Octets(x * 16 + y, 0, 0, 1, q)
            }
        }
    }
}

// Four Base64 digits a group.
struct Base64;

impl Coding for Base64 {
    ghost octets = { unbase64 };

    fn group(s: &[u8], i: usize) -> Group {
        match base64_digit(s, i) {
            Next::End => Group::End,
            Next::Other => Group::Other,
            Next::Is(x, p) => {
                let Next::Is(y, q) = base64_digit(s, p) else {
                    return Group::Other;
                };
                base64_tail(s, q, x, y)
            }
        }
    }
}

// Stores the octets of the string at p, from j on, as far as there is room. Returns how many they are, if its
// characters are those of octets.
fn octets<C: Coding>(s: &[u8], p: usize, pool: &mut [u8], j: usize) -> Option<usize>
    requires { (length s.now ≤ 65536) × (j ≤ 4294967296) }
    ensures value { result ≡ option_map length (C.octets (denoted s.now p)) }
    ensures stored { Stored pool.new pool.old j (C.octets (denoted s.now p)) }
{
    let mut i = p;
    let mut n = 0;
    // A group ends where its last character does: the step varies.
    loop {
        match C::group(s, i) {
            Group::End => {
                return Some(n);
            }
            Group::Other => {
                return None;
            }
            Group::Octets(x, y, z, len, q) => {
                let group = [x, y, z];
                put_all(pool, j + n, &group[..len]);
                n += len;
                i = q;
            }
        }
    }
}

// The octets of the string at p in hexadecimal, from j on. This and the next say by name what `Coding`, which is private, does.
pub fn hex_octets(s: &[u8], p: usize, pool: &mut [u8], j: usize) -> Option<usize>
    requires { (length s.now ≤ 65536) × (j ≤ 4294967296) }
    ensures value { result ≡ option_map length (unhex (denoted s.now p)) }
    ensures stored { Stored pool.new pool.old j (unhex (denoted s.now p)) }
{
    octets::<Hex>(s, p, pool, j)
}

// The octets of the string at p in Base64, from j on.
pub fn base64_octets(s: &[u8], p: usize, pool: &mut [u8], j: usize) -> Option<usize>
    requires { (length s.now ≤ 65536) × (j ≤ 4294967296) }
    ensures value { result ≡ option_map length (unbase64 (denoted s.now p)) }
    ensures stored { Stored pool.new pool.old j (unbase64 (denoted s.now p)) }
{
    octets::<Base64>(s, p, pool, j)
}
