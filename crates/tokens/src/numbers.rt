// The INTEGER at a place.
ghost use Rattle.std.specs.Prelude.{◌≡◌, ◌-◌, ◌^◌, ◌≤◌, ◌||◌, ◌==◌};
ghost use Rattle.tokens.specs.Numbers.{digits_at, whole_at, integer_at, complement};
ghost use Rattle.tokens.specs.Enums.{split, within, integer_of};

use crate::cursor::{Class, run};
use slices::byte_at;

// The halves of a 64-bit number.
#[derive(Clone, Copy)]
pub struct Halves {
    pub low: u32,
    pub high: u32,
}

// A number's halves.
fn split(n: u64) -> Halves
    ensures { result ≡ split n }
{
    Halves {
        low: (n % 4294967296) as u32,
        high: (n / 4294967296) as u32,
    }
}

// A digit's value, 0 below '0'.
fn value_of(b: u32) -> u64
    ensures { (result ≡ b - 0x30) × (result ≤ 4294967295) }
{
    u64::from(b.saturating_sub(0x30))
}

// The decimal number from p to end, if it is not above 2^63.
fn magnitude_at(s: &[u8], p: usize, end: usize) -> Option<u64>
    ensures { result ≡ within (digits_at s.now p (end - p) 0) }
{
    let mut m: u64 = 0;
    for i in p..end {
        let d = value_of(byte_at(s, i));
        if (9223372036854775808 - d) / 10 < m {
            return None;
        }
        m = m * 10 + d;
    }
    Some(m)
}

// The 64-bit two's complement of m, or of its negative.
fn complement(minus: bool, m: u64) -> Option<u64>
    requires { m ≤ 2 ^ 63 }
    ensures { result ≡ complement minus m }
{
    if minus {
        return Some(m.wrapping_neg());
    }
    if m == 9223372036854775808 {
        return None;
    }
    Some(m)
}

// Whether a byte begins a fraction or an exponent.
fn breaks(b: u32) -> bool
    ensures { result ≡ (b == 0x2E || (b == 0x45 || b == 0x65)) }
{
    matches!(b, 0x2E | 0x45 | 0x65)
}

// The number whose digits begin at p, after a minus sign or none.
fn whole(s: &[u8], p: usize, minus: bool) -> Option<u64>
    ensures { result ≡ whole_at s.now p minus }
{
    let end = run(s, p, Class::Digit);
    if breaks(byte_at(s, end)) {
        return None;
    }
    complement(minus, magnitude_at(s, p, end)?)
}

// The 64-bit two's complement of the number at p, from its minus sign or first digit on.
fn signed(s: &[u8], p: usize) -> Option<u64>
    ensures { result ≡ integer_at s.now p }
{
    if byte_at(s, p) == 0x2D {
        return whole(s, p + 1, true);
    }
    whole(s, p, false)
}

// Its halves. None if the number has a fraction or an exponent, or is outside the range.
pub fn integer_at(s: &[u8], p: usize) -> Option<Halves>
    ensures { result ≡ integer_of (integer_at s.now p) }
{
    Some(split(signed(s, p)?))
}
