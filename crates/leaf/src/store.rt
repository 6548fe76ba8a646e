// Stores in the lent rows that past the end do nothing: the same reading measures over no room, and stores over enough.
ghost use Rattle.std.specs.Prelude.{◌≡◌, [], ◌∷◌, ◌*◌, ◌^◌, ◌≤◌, ◌<◌};
ghost use Rattle.std.proofs.lemmas.List.Edits.{sets};

use slices::put_all;

// Stores the row at a slot, as far as there is room. The quick reading has its own, which knows that there is room.
pub fn put_row(rows: &mut [u32], slot: usize, kind: u32, a: u32, b: u32, size: u32)
    requires { slot ≤ 2 ^ 60 }
    ensures { rows.new ≡ sets rows.old (slot * 4) (kind ∷ a ∷ b ∷ size ∷ []) }
{
    put_all(rows, slot * 4, &[kind, a, b, size]);
}

// A number of a row, if it fits 32 bits: of a value that is kept whole each does (`Fits` in specs/Step.antt).
pub fn narrow(n: usize) -> u32
    ensures { n < 2 ^ 32 → result ≡ n }
{
    u32::try_from(n).unwrap_or(u32::MAX)
}
