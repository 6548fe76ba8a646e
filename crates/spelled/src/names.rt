// The member of a type that has a name, which stands in the text without escapes.
ghost use Rattle.std.specs.Prelude.{◌≡◌, true, ℕ, ◌+◌, ◌≤◌, ◌<◌, length, take, drop, IfSome};
ghost use Rattle.jer.specs.Table.{name_in, same_bytes, table};
ghost use Rattle.spelled.specs.Names.{Unlike, Among, FoundAmong};

use crate::bytes::{byte, four};
use crate::same::same;
use types::row::{name_in, wide};

// Whether the name in the member's row m is the n bytes at p.
fn has_name(types: &[u32], names: &[u8], s: &[u8], m: usize, p: usize, n: usize) -> bool
    requires { p + n ≤ length s.now }
    ensures { result ≡ same_bytes (name_in (table types.now names.now) m) (take n (drop p s.now)) }
{
    let x = name_in(types, names, m);
    if x.len() != n {
        return false;
    }
    same(s, p, x)
}

// Whether the length alone tells that the name in the member's row m is none of n bytes: where row and name end inside, as in a good table.
fn other_length(types: &[u32], names: &[u8], m: usize, n: usize) -> bool
    ensures { result ≡ true → Unlike (table types.now names.now) m n }
{
    if types.len() / 8 <= m {
        return false;
    }
    let start = wide(types[m * 8 + 3]);
    let len = wide(types[m * 8 + 4]);
    if names.len() < start + len {
        return false;
    }
    len != n
}

// The same as `has_name`; where the length alone tells, by that.
fn is_named(types: &[u32], names: &[u8], s: &[u8], m: usize, p: usize, n: usize) -> bool
    requires { p + n ≤ length s.now }
    ensures { result ≡ same_bytes (name_in (table types.now names.now) m) (take n (drop p s.now)) }
{
    !other_length(types, names, m, n) && has_name(types, names, s, m, p, n)
}

// A number below 1024 for the name at p, of the members from row `first` on.
fn hash(s: &[u8], p: usize, n: usize, first: usize) -> usize
    requires { (p + n ≤ length s.now) × (first ≤ 4294967295) }
    ensures { result < 1024 }
{
    if n < 4 {
        if n == 0 {
            return 0;
        }
        return (wide(byte(s, p)) * 31 + wide(byte(s, p + n - 1)) * 7 + n * 17 + first) % 1021;
    }
    (wide(four(s, p)) * 3
        + wide(four(s, p + n - 4)) * 5
        + wide(four(s, p + n / 2 - 2)) * 7
        + n % 256
        + first)
        % 1021
}

// The position of the n bytes at p among the names of the `count` members from row `first` on.
fn search(
    types: &[u32],
    names: &[u8],
    s: &[u8],
    first: usize,
    count: u32,
    p: usize,
    n: usize,
) -> Option<u32>
    requires { (p + n ≤ length s.now) × (first ≤ 4294967295) }
    ensures { Among (table types.now names.now) first count (take n (drop p s.now)) result }
{
    (0..count).find(|k| is_named(types, names, s, first + wide(*k), p, n))
}

// The same where the names differ: the member that is due is tried first, then the one that the memo has for the name.
// What stands in the memo is of no account to the answer.
pub fn find(
    types: &[u32],
    names: &[u8],
    s: &[u8],
    memo: &mut [u8; 1024],
    first: usize,
    count: u32,
    due: u32,
    p: usize,
    n: usize,
) -> Option<u32>
    requires { (p + n ≤ length s.now) × (first ≤ 4294967295) }
    ensures within { IfSome result (λ k. k < count) }
    ensures found { FoundAmong (table types.now names.now) first count (take n (drop p s.now)) result }
{
    if due < count && has_name(types, names, s, first + wide(due), p, n) {
        return Some(due);
    }
    let h = hash(s, p, n, first);
    let g = u32::from(memo[h]);
    if g < count && has_name(types, names, s, first + wide(g), p, n) {
        return Some(g);
    }
    let found = search(types, names, s, first, count, p, n);
    if let Some(k) = found {
        memo[h] = (k % 256) as u8;
    }
    found
}
