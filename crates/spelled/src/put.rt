// Octets of a plain string, stored in the pool. It has no escapes: a digit is a byte, where `octets::decode` looks for an escape at each.
ghost use Rattle.std.specs.Prelude.{◌≡◌, ℕ, ◌+◌, ◌*◌, ◌≤◌, ◌<◌, length, get_or, take, drop};
ghost use Rattle.std.proofs.lemmas.List.Edits.{sets};
ghost use Rattle.jer.specs.Octets.{unhex, base64_value, unbase64};
ghost use Rattle.spelled.specs.Octets.{OctetsStored, GroupStored, LastStored};

use octets::decode::base64_value;
use slices::{hex_value, put, put_all};

// Stores the octets that twice as many characters at p are in hexadecimal, from o on.
pub fn put_hex(s: &[u8], p: usize, count: usize, pool: &mut [u8], o: usize)
    requires { (p + count * 2 ≤ length s.now) × (o + count ≤ length pool.old) }
    ensures { OctetsStored unhex (take (count * 2) (drop p s.now)) pool.new pool.old o }
{
    for k in 0..count {
        let i = p + k * 2;
        let high = hex_value(s[i]).unwrap_or(0);
        let low = hex_value(s[i + 1]).unwrap_or(0);
        pool[o + k] = high * 16 + low;
    }
}

// The value of the Base64 digit at q, or 0.
fn value_at(s: &[u8], q: usize) -> u8
    requires { q < length s.now }
    ensures { ((x : ℕ) → base64_value (get_or s.now q 0) ≡ Some x → result ≡ x) × (result < 64) }
{
    base64_value(s[q]).unwrap_or(0)
}

// Stores the three octets of the four Base64 digits at q, as far as there is room.
fn put_group(s: &[u8], q: usize, pool: &mut [u8], o: usize)
    requires { (q + 4 ≤ length s.now) × (o + 4 < 18446744073709551616) }
    ensures { GroupStored s.now q pool.new pool.old o }
{
    let x = value_at(s, q);
    let y = value_at(s, q + 1);
    let z = value_at(s, q + 2);
    let w = value_at(s, q + 3);
    put_all(
        pool,
        o,
        &[x * 4 + y / 16, y % 16 * 16 + z / 4, z % 4 * 64 + w],
    );
}

// The same for the last four characters, of which one or two may be pads.
fn put_last(s: &[u8], q: usize, pool: &mut [u8], o: usize)
    requires { (q + 4 ≤ length s.now) × (o + 4 < 18446744073709551616) }
    ensures { LastStored s.now q pool.new pool.old o }
{
    if s[q + 3] != 0x3D {
        put_group(s, q, pool, o);
        return;
    }
    let x = value_at(s, q);
    let y = value_at(s, q + 1);
    put(pool, o, x * 4 + y / 16);
    if s[q + 2] != 0x3D {
        let z = value_at(s, q + 2);
        put(pool, o + 1, y % 16 * 16 + z / 4);
    }
}

// Stores the octets that the n characters at p are in Base64, from o on, as far as there is room.
pub fn put_base64(s: &[u8], p: usize, n: usize, pool: &mut [u8], o: usize)
    requires { (p + n ≤ length s.now) × (o + n + 4 < 18446744073709551616) }
    ensures { OctetsStored unbase64 (take n (drop p s.now)) pool.new pool.old o }
{
    if n < 4 {
        return;
    }
    let groups = (n - 1) / 4;
    for g in 0..groups {
        put_group(s, p + g * 4, pool, o + g * 3);
    }
    put_last(s, p + (n - 4), pool, o + groups * 3);
}
