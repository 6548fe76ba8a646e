// Any number: its value is of no account.
ghost use Rattle.std.specs.Prelude.{ℕ, IfSome};
ghost use Rattle.json_text.specs.Grammar.{Digits};
ghost use Rattle.spelled.specs.Stretch.{Stretch, Passed, Within, ValueAt};
ghost use Rattle.spelled.specs.Number.{SomeOnward, SomeWhole, SomeSigned, Dotted, Raised, Powered};

use slices::byte_at;

// The place after the digits at p, none or more.
fn digits(s: &[u8], p: usize) -> usize
    ensures by_index { (m : ℕ) → Stretch (SomeOnward m) s.now p result }
    ensures within { Within s.now p result }
{
    (p..s.len())
        .find(|q| !matches!(s[*q], 0x30..=0x39))
        .unwrap_or(s.len().max(p))
}

// The same for one digit or more.
fn some_digits(s: &[u8], p: usize) -> Option<usize>
    ensures { IfSome result (λ q. Passed Digits s.now p q) }
{
    let q = digits(s, p);
    if q == p { None } else { Some(q) }
}

// The place after a whole number.
fn whole(s: &[u8], p: usize) -> Option<usize>
    ensures { IfSome result (λ q. Passed SomeWhole s.now p q) }
{
    match *s.get(p)? {
        0x30 => Some(p + 1),
        0x31..=0x39 => Some(digits(s, p + 1)),
        _ => None,
    }
}

// The same with a minus sign or none.
fn signed(s: &[u8], p: usize) -> Option<usize>
    ensures { IfSome result (λ q. Passed SomeSigned s.now p q) }
{
    if byte_at(s, p) == 0x2D {
        return whole(s, p + 1);
    }
    whole(s, p)
}

// The place after the fraction at p, which is p where there is none; nothing for a dot without digits.
fn fraction(s: &[u8], p: usize) -> Option<usize>
    ensures { IfSome result (λ q. Stretch Dotted s.now p q) }
{
    if byte_at(s, p) == 0x2E {
        return some_digits(s, p + 1);
    }
    Some(p)
}

// After e or E: a sign or none, and digits.
fn raised(s: &[u8], p: usize) -> Option<usize>
    ensures { IfSome result (λ q. Passed Raised s.now p q) }
{
    match byte_at(s, p) {
        0x2B | 0x2D => some_digits(s, p + 1),
        _ => some_digits(s, p),
    }
}

// The place after the exponent at p, which is p where there is none; nothing for one without digits.
fn power(s: &[u8], p: usize) -> Option<usize>
    ensures { IfSome result (λ q. Stretch Powered s.now p q) }
{
    match byte_at(s, p) {
        0x45 | 0x65 => raised(s, p + 1),
        _ => Some(p),
    }
}

// The place after the number at p.
pub fn number(s: &[u8], p: usize) -> Option<usize>
    ensures { IfSome result (λ q. (d : ℕ) → ValueAt d s.now p q) }
{
    let q = signed(s, p)?;
    let f = fraction(s, q)?;
    power(s, f)
}
