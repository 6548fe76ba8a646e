// A value's own row above its parts, and counts of 32 bits.
ghost use Rattle.std.specs.Prelude.{◌≡◌, [], ◌∷◌, ◌+◌, ◌*◌, ◌^◌, ◌≤◌, ◌<◌};
ghost use Rattle.std.proofs.lemmas.List.Edits.{sets};
ghost use Rattle.leaf.specs.Step.{taken};
ghost use Rattle.typed.specs.Cycle.{bounded};

use jer::{Limit, Refusal};
use leaf::Taken;
use leaf::store::{narrow, put_row};

const COUNT: usize = 4294967296;

// Refuses a value of more rows or pool bytes than 32 bits count.
#[tactic(auto, unfolding(crate::specs::Cycle::bounded))]
pub fn bounded(x: Taken) -> Result<Taken, Refusal>
    ensures { result ≡ bounded x }
{
    if (COUNT <= x.rows) | (COUNT <= x.pool) {
        return Err(Refusal::Amounts(Limit::LentRoom, COUNT as u64, COUNT as u64));
    }
    Ok(x)
}

// The row of a value whose parts, n rows and m pool bytes, stand after it.
pub fn close(
    rows: &mut [u32],
    slot: usize,
    kind: u32,
    a: u32,
    n: usize,
    m: usize,
    next: usize,
) -> Result<Taken, Refusal>
    requires { (slot ≤ 2 ^ 60) × (n ≤ 2 ^ 60) }
    ensures value { result ≡ bounded (taken next (n + 1) m) }
    ensures rows_after { n + 1 < 2 ^ 32 → rows.new ≡ sets rows.old (slot * 4) (kind ∷ a ∷ 0 ∷ (n + 1) ∷ []) }
{
    put_row(rows, slot, kind, a, 0, narrow(n + 1));
    bounded(Taken {
        next,
        rows: n + 1,
        pool: m,
    })
}
