// Bytes of the text compared with a name, some at a time.
ghost use Rattle.std.specs.Prelude.{◌≡◌, ◌+◌, ◌≤◌, length, take, drop};
ghost use Rattle.jer.specs.Table.{same_bytes};

use crate::bytes::{eight, four};

// Eight bytes or more: the last eight may overlap those before them. A loop: `eight` asks that there are eight bytes, which a chain would have to show at each turn.
fn same_long(s: &[u8], p: usize, x: &[u8]) -> bool
    requires { (p + length x.now ≤ length s.now) × (8 ≤ length x.now) }
    ensures { result ≡ same_bytes x.now (take (length x.now) (drop p s.now)) }
{
    for k in 0..(x.len() - 1) / 8 {
        if eight(s, p + k * 8) != eight(x, k * 8) {
            return false;
        }
    }
    let last = x.len() - 8;
    eight(s, p + last) == eight(x, last)
}

// From four to eight bytes.
fn same_middle(s: &[u8], p: usize, x: &[u8]) -> bool
    requires { (p + length x.now ≤ length s.now) × (4 ≤ length x.now) × (length x.now ≤ 8) }
    ensures { result ≡ same_bytes x.now (take (length x.now) (drop p s.now)) }
{
    let last = x.len() - 4;
    if four(s, p) != four(x, 0) {
        return false;
    }
    four(s, p + last) == four(x, last)
}

// Whether the bytes of x stand at p. Of longer ones `==` of slices took 4 % more instructions of a read of a list.
pub fn same(s: &[u8], p: usize, x: &[u8]) -> bool
    requires { p + length x.now ≤ length s.now }
    ensures { result ≡ same_bytes x.now (take (length x.now) (drop p s.now)) }
{
    let n = x.len();
    if 8 <= n {
        return same_long(s, p, x);
    }
    if 4 <= n {
        return same_middle(s, p, x);
    }
    &s[p..p + n] == x
}
