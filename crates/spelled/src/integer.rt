// INTEGER, if it has at most 18 digits. What follows a number is for the caller to see.
ghost use Rattle.std.specs.Prelude.{◌≡◌, ◌+◌, ◌^◌, ◌%◌, ◌/◌, ◌≤◌, ◌<◌, IfSome};
ghost use Rattle.json_text.specs.Grammar.{Onward, Whole};
ghost use Rattle.spelled.specs.Stretch.{Stretch, Passed, Within};
ghost use Rattle.spelled.specs.Leaves.{IntegerAt};

use slices::byte_at;

// The place after the digits, and the number.
#[derive(Clone, Copy)]
pub struct Number {
    pub next: usize,
    pub value: u64,
}

// The place after the number, and the halves of its two's complement. Those of `tokens` have no place.
#[derive(Clone, Copy)]
pub struct Halves {
    pub next: usize,
    pub low: u32,
    pub high: u32,
}

// How far a number is read whose second digit stands at p: to 18 digits, or to the text's end.
fn until(s: &[u8], p: usize) -> usize
    ensures { Within s.now p result × (result ≤ p + 17) }
{
    s.len().min(p.saturating_add(17)).max(p)
}

// The digits after a first one, with their value; `number::digits` asks for none, and goes past 18 digits.
fn digits(s: &[u8], p: usize, first: u64) -> Number
    requires { first ≤ 9 }
    ensures stretch { Stretch (Onward first result.value) s.now p result.next }
    ensures within { Within s.now p result.next × (result.value < 2 ^ 63) }
{
    let end = until(s, p);
    let mut m = first;
    for q in p..end {
        let b = u64::from(s[q]);
        if !matches!(b, 0x30..=0x39) {
            return Number { next: q, value: m };
        }
        m = m * 10 + (b - 0x30);
    }
    Number {
        next: end,
        value: m,
    }
}

// A whole number.
fn whole(s: &[u8], p: usize) -> Option<Number>
    ensures { IfSome result (λ w. Passed (Whole w.value) s.now p w.next × (w.value < 2 ^ 63)) }
{
    match *s.get(p)? {
        0x30 => Some(Number {
            next: p + 1,
            value: 0,
        }),
        b @ 0x31..=0x39 => Some(digits(s, p + 1, u64::from(b - 0x30))),
        _ => None,
    }
}

// The number at p, from its minus sign or first digit on.
pub fn integer(s: &[u8], p: usize) -> Option<Halves>
    ensures { IfSome result (λ h. IntegerAt s.now p h.next h.low h.high) }
{
    if byte_at(s, p) == 0x2D {
        let w = whole(s, p + 1)?;
        return Some(in_halves(w.next, w.value.wrapping_neg()));
    }
    let w = whole(s, p)?;
    Some(in_halves(w.next, w.value))
}

// A number of 64 bits in two halves.
fn in_halves(next: usize, n: u64) -> Halves
    ensures { (result.next ≡ next) × (result.low ≡ n % 2 ^ 32) × (result.high ≡ n / 2 ^ 32) }
{
    Halves {
        next,
        low: (n % 4294967296) as u32,
        high: (n / 4294967296) as u32,
    }
}
