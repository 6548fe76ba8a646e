// Where a value begins: of an UNWRAPPED choice, with its alternative.
ghost use Rattle.std.specs.Prelude.{◌≡◌, List, ℕ, ◌%◌, length};
ghost use Rattle.jer.specs.Judge.{rows_in};
ghost use Rattle.jer.specs.Table.{table};
ghost use Rattle.written.specs.Start.{Starts, closed_as};

use crate::rows::{row_at, type_row};
use crate::tables::Tables;
use crate::taken::{Took, Wrong, ended};
use types::row::{Row, kind_of, type_at};

#[derive(Clone, Copy)]
pub struct Start {
    // The type's row and kind, and the slot.
    pub row: usize,
    pub kind: u32,
    pub slot: usize,
    // The size in the row of an UNWRAPPED choice.
    pub size: Option<u32>,
}

impl Tables<'_> {
    // Of a value of the type at `row`, whose rows begin at `slot`; the row of an UNWRAPPED choice is wrong if it is not there, or not right but for its size.
    pub fn start_of(&self, row: usize, slot: usize) -> Result<Start, Wrong>
        requires { length self.now.types.now % 8 ≡ 0 }
        ensures { (ns : List ℕ) → Starts (table self.now.types.now ns) (rows_in self.now.values.now) row slot result }
    {
        let own = type_row(self.types, row);
        let kind = own.kind;
        if !own.is_unwrapped() {
            return Ok(Start {
                row,
                kind,
                slot,
                size: None,
            });
        }
        let Some(w) = row_at(self.values, slot) else {
            return Err(Wrong { slot });
        };
        let right = (w.kind == Row::CHOICE) & ((w.a < own.members) & (w.b == 0));
        if !right {
            return Err(Wrong { slot });
        }
        let e = type_at(self.types, row, w.a);
        let chosen = kind_of(self.types, e);
        Ok(Start {
            row: e,
            kind: chosen,
            slot: slot + 1,
            size: Some(w.size),
        })
    }
}

// A value is taken that begins at `slot`: of an UNWRAPPED choice, whose row has the size, its alternative is.
#[tactic(auto, unfolding(crate::specs::Start::closed_as))]
pub fn closed(size: Option<u32>, slot: usize, took: Took) -> Result<Took, Wrong>
    ensures { result ≡ closed_as size slot took.next took.used took.end }
{
    match size {
        Some(size) => ended(true, size, slot, took),
        None => Ok(took),
    }
}
