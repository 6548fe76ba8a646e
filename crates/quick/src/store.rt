// Stores into lent room that is known to be enough.
ghost use Rattle.std.specs.Prelude.{◌≡◌, [], ◌∷◌, ◌+◌, ◌*◌, ◌%◌, ◌^◌, ◌≤◌, ◌<◌, length, take, drop};
ghost use Rattle.std.proofs.lemmas.List.Edits.{sets};
ghost use Rattle.tokens.specs.Strings.{denoted};

use crate::bare::ESCAPED;
use slices::part;
use tokens::strings::copy;
use types::row::wide;

// A row. Not leaf's, which stores as far as there is room: here there is room, and no test for it.
pub fn put_row(rows: &mut [u32], slot: usize, kind: u32, a: u32, b: u32, size: u32)
    requires { slot * 4 + 4 ≤ length rows.old }
    ensures { rows.new ≡ sets rows.old (slot * 4) (kind ∷ a ∷ b ∷ size ∷ []) }
{
    let k = slot * 4;
    rows[k..k + 4].copy_from_slice(&[kind, a, b, size]);
}

// The bytes of x. A loop, as `written::put::copy`: with `copy_from_slice` the library for C would need `memmove` from outside.
fn copy_all(pool: &mut [u8], offset: usize, x: &[u8])
    requires { offset + length x.now ≤ length pool.old }
    ensures { pool.new ≡ sets pool.old offset x.now }
{
    for (j, b) in x.iter().enumerate() {
        pool[offset + j] = *b;
    }
}

// The bytes of a string whose quotation mark stands at the place a, and whose length is b, or more by 2^31 if something in it is escaped.
pub fn put_text(s: &[u8], pool: &mut [u8], a: u32, b: u32, offset: usize)
    requires { (length s.now ≤ 65536) × (offset + b % 2 ^ 31 ≤ length pool.old) × (offset ≤ 65536) }
    ensures pool_after { b < 2 ^ 31 → pool.new ≡ sets pool.old offset (take b (drop (a + 1) s.now)) }
    ensures pool_after_2 { 2 ^ 31 ≤ b → pool.new ≡ sets pool.old offset (denoted s.now (a + 1)) }
{
    if b < ESCAPED {
        copy_all(pool, offset, part(s, wide(a) + 1, wide(b)));
    } else {
        copy(s, wide(a) + 1, pool, offset);
    }
}
