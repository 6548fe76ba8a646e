// The type table: its rows and names by name, and the check that each call from outside makes first.
// Contracts here and above cite `jer`'s Table.antt and Valid.antt at `table rows names` (specs/Rows.antt); where the rows decide alone, for any names.
// Tests that cost little are joined by `&` and `|`, not `&&` and `||`, so that what a function answers is one equation.
#![tactic(auto)]

pub mod bytes; // bytes.rt: parts of a slice, equal bytes, UTF-8
pub mod row; // row.rt: a row, its kinds and marks, and the rows that it points to
pub mod token; // token.rt: the JSON token of a type, and where null is taken
mod alone; // alone.rt: each row by itself
mod members; // members.rt: rules that the members of a type keep one by one
mod rules; // rules.rt: each row by those it points to, each type by its other rules
mod passes; // passes.rt: sizes, and one pass over the rows
mod sure; // sure.rt: the second and the third pass at once, if surely good

ghost use Rattle.std.specs.Prelude.{◌≡◌};
ghost use Rattle.jer.specs.CallClauses.{TableCall};
ghost use Rattle.jer.specs.Table.{table};
ghost use Rattle.types.specs.Check.{row_judged};

use jer::{Refusal, Which};
use passes::{bad_alone, bad_pointers, bad_rules, good_sizes};
use sure::sure;

// Refusal 1 at the first bad row, if there is one.
fn judged(bad: Option<usize>) -> Result<(), Refusal>
    ensures { result ≡ row_judged bad }
{
    match bad {
        Some(r) => Err(Refusal::AtRow(Which::TypeTable, r)),
        None => Ok(()),
    }
}

// Well formed, or refusal 1 with the first bad row of three passes upwards.
pub fn check(rows: &[u32], names: &[u8]) -> Result<(), Refusal>
    ensures { TableCall (table rows.now names.now) result }
{
    if !good_sizes(rows, names) {
        return judged(Some(0));
    }
    judged(bad_alone(rows, names))?;
    if sure(rows, names) {
        return Ok(());
    }
    judged(bad_pointers(rows, names))?;
    judged(bad_rules(rows, names))
}
