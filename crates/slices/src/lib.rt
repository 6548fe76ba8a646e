// Slices, said once for all crates: the byte at a place, a part of one, and stores that past the end do nothing; the value of a hexadecimal digit.
#![tactic(auto)]

ghost use Rattle.std.specs.Prelude.{◌≡◌, ◌+◌, ◌^◌, ◌<◌, ◌≤◌, length, get_or, take, drop, set, IfSome};
ghost use Rattle.std.proofs.lemmas.List.Edits.{sets};
ghost use Rattle.jer.specs.Octets.{hex_value};
ghost use Rattle.slices.specs.Digit.{digit_of};

// The byte at a place, or 256 past the end: a number, which the definitions by places compare. An Option would be taken apart at each test.
pub fn byte_at(s: &[u8], p: usize) -> u32
    ensures value { result ≡ get_or s.now p 256 }
    ensures upper_bound { result ≤ 256 }
{
    match s.get(p) {
        Some(b) => u32::from(*b),
        None => 256,
    }
}

// The n items from a place on, or as many of them as there are.
pub fn part<T>(s: &[T], at: usize, n: usize) -> &[T]
    ensures { result.now ≡ take n (drop at s.now) }
{
    let rest = &s[at.min(s.len())..];
    &rest[..n.min(rest.len())]
}

// Stores an item, if there is room.
pub fn put<T: Copy>(s: &mut [T], at: usize, x: T)
    ensures { s.new ≡ set s.old at x }
{
    if at < s.len() {
        s[at] = x;
    }
}

// Stores the items of x, as far as there is room. One by one: `copy_from_slice` would want both parts cut to the room first.
pub fn put_all<T: Copy>(s: &mut [T], at: usize, x: &[T])
    requires { at + length x.now < 2 ^ 64 }
    ensures { s.new ≡ sets s.old at x.now }
{
    for (j, b) in x.iter().enumerate() {
        put(s, at + j, *b);
    }
}

// A hexadecimal digit's value, in either letter case.
#[tactic(auto, unfolding(jer::specs::Octets::hex_value, json_text::specs::Bytes::pick))]
pub fn hex_value(b: u8) -> Option<u8>
    ensures value { result ≡ hex_value b }
    ensures few { IfSome result (λ x. x < 16) }
{
    match b {
        0x30..=0x39 => Some(b - 0x30),
        0x41..=0x46 => Some(b - 0x37),
        0x61..=0x66 => Some(b - 0x57),
        _ => None,
    }
}

// The value of the hexadecimal digit that a number is, as `byte_at` gives one; 16 for any other number, the one past the end too.
#[tactic(auto, unfolding(crate::specs::Digit::digit_of, jer::specs::Octets::hex_value, json_text::specs::Bytes::pick))]
pub fn digit(b: u32) -> u32
    ensures { (result ≡ digit_of b) × (result ≤ 16) }
{
    match u8::try_from(b) {
        Ok(b) => hex_value(b).map_or(16, u32::from),
        Err(_) => 16,
    }
}
