// Octets of a string without escapes: how many they are. Crate octets reads any string, a character at a time.
ghost use Rattle.std.specs.Prelude.{◌≡◌, ◌+◌, ◌*◌, ◌≤◌, ◌<◌, length, take, drop, IfSome};
ghost use Rattle.jer.specs.Octets.{unhex, unbase64};
ghost use Rattle.spelled.specs.Octets.{Group, OctetsAre};

use octets::decode::base64_value;
use slices::hex_value;

// How many octets the n characters at p are in hexadecimal.
pub fn hex_count(s: &[u8], p: usize, n: usize) -> Option<usize>
    requires { p + n ≤ length s.now }
    ensures { IfSome result (λ m. OctetsAre unhex (take n (drop p s.now)) m × (n ≡ m * 2)) }
{
    if n % 2 == 1 || !s[p..p + n].iter().all(|b| hex_value(*b).is_some()) {
        return None;
    }
    Some(n / 2)
}

// How many octets the last four characters are.
fn last_group(a: u8, b: u8, c: u8, d: u8) -> Option<usize>
    ensures { IfSome result (λ n. Group a b c d n × (n ≤ 3)) }
{
    base64_value(a)?;
    let y = base64_value(b)?;
    if d != 0x3D {
        base64_value(c)?;
        base64_value(d)?;
        return Some(3);
    }
    if c == 0x3D {
        return if y % 16 == 0 { Some(1) } else { None };
    }
    let z = base64_value(c)?;
    if z % 4 == 0 { Some(2) } else { None }
}

// How many octets the n characters at p are in Base64.
pub fn base64_count(s: &[u8], p: usize, n: usize) -> Option<usize>
    requires { p + n ≤ length s.now }
    ensures { IfSome result (λ m. OctetsAre unbase64 (take n (drop p s.now)) m × (m ≤ n)) }
{
    if n == 0 {
        return Some(0);
    }
    if n % 4 != 0 {
        return None;
    }
    let q = p + (n - 4);
    if !s[p..q].iter().all(|b| base64_value(*b).is_some()) {
        return None;
    }
    let e = last_group(s[q], s[q + 1], s[q + 2], s[q + 3])?;
    Some((n - 4) / 4 * 3 + e)
}
