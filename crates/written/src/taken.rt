// What taking one value of the table, and writing it, answers.
ghost use Rattle.std.specs.Prelude.{◌≡◌, ◌&&◌, ◌-◌, eqb};
ghost use Rattle.jer.specs.declared.Refusal.TheVariants.{AtRow};
ghost use Rattle.jer.specs.declared.Which.TheVariants.{ValueTable};
ghost use Rattle.written.specs.Text.{ended_as};

use jer::{Refusal, Which};
use types::row::wide;

// The next slot, how far the pool is used, and where the text ends.
#[derive(Clone, Copy)]
pub struct Took {
    pub next: usize,
    pub used: usize,
    pub end: usize,
}

// A row breaks a rule: the first bad slot.
#[derive(Clone, Copy)]
pub struct Wrong {
    pub slot: usize,
}

// Refusal 12 at the slot.
impl From<Wrong> for Refusal {
    ghost from_gives = { λ w e. e ≡ AtRow ValueTable w.slot };

    fn from(w: Wrong) -> Refusal {
        Refusal::AtRow(Which::ValueTable, w.slot)
    }
}

// Taken, if the row at `slot` is right, its size too.
#[tactic(auto, unfolding(crate::specs::Text::ended_as))]
pub fn ended(good: bool, size: u32, slot: usize, took: Took) -> Result<Took, Wrong>
    ensures { result ≡ ended_as (good && eqb size (took.next - slot)) slot took.next took.used took.end }
{
    if good & (wide(size) == took.next.saturating_sub(slot)) {
        return Ok(took);
    }
    Err(Wrong { slot })
}
