// The rows of the value table.
ghost use Rattle.std.specs.Prelude.{◌≡◌, true, ◌&&◌, List, ℕ, ◌<◌, ◌%◌, length};
ghost use Rattle.jer.specs.Judge.{is_absent};
ghost use Rattle.jer.specs.Table.{table, name_at};
ghost use Rattle.types.specs.Rows.{row_of};
ghost use Rattle.written.specs.Text.{type_table, value_rows};
ghost use Rattle.written.specs.Rows.{value_row, rows_from, Finds, absent_next, null_next};

use crate::tables::Tables;
use types::row::{Row, kind_of, may_be_absent, member_row, name_in, row_in, type_at};

#[derive(Clone, Copy, PartialEq)]
pub struct ValueRow {
    pub kind: u32,
    pub a: u32,
    pub b: u32,
    pub size: u32,
}

// Document 01's row of an absent member.
const ABSENT: ValueRow = ValueRow {
    kind: Row::ABSENT,
    a: 0,
    b: 0,
    size: 1,
};

// A row, if the table has a whole one there.
#[tactic(auto, using(crate::proofs::RowLaws::rows_past, crate::proofs::RowLaws::rows_at))]
pub fn row_at(values: &[u32], q: usize) -> Option<ValueRow>
    ensures { Finds values.now q result }
{
    if values.len() / 4 <= q {
        return None;
    }
    let k = q * 4;
    Some(ValueRow {
        kind: values[k],
        a: values[k + 1],
        b: values[k + 2],
        size: values[k + 3],
    })
}

impl ValueRow {
    // It is the row of an absent member.
    #[tactic(auto, unfolding(jer::specs::Judge::is_absent))]
    pub fn is_absent(self) -> bool
        ensures { result ≡ is_absent (value_row self) }
    {
        self == ABSENT
    }
}

// The member at i of the type at r is absent, by the row q. Over slices, which the walk over the members takes out of `Tables` once: by
// `&Tables` a member that is absent took 36 % more instructions.
pub fn absent_at(types: &[u32], values: &[u32], r: usize, i: u32, q: usize) -> bool
    ensures by_index { (ns : List ℕ) → result ≡ absent_next (table types.now ns) r i (rows_from values.now q) }
    ensures q_bound { result ≡ true → q < 18446744073709551615 }
{
    match row_at(values, q) {
        Some(w) => {
            if w.kind != Row::ABSENT {
                return false;
            }
            may_be_absent(types, r, i) & w.is_absent()
        }
        None => false,
    }
}

// Row r of a type table of whole rows, with one test for all its fields. Over a slice, likewise.
#[tactic(auto, using(crate::proofs::RowLaws::row_past))]
pub fn type_row(types: &[u32], r: usize) -> Row
    requires { length types.now % 8 ≡ 0 }
    ensures { (ns : List ℕ) → result ≡ row_of (table types.now ns) r }
{
    if types.len() / 8 <= r {
        return Row {
            kind: 0,
            marks: 0,
            first: 0,
            members: 0,
            root: 0,
        };
    }
    row_in(types, r)
}

impl<'a> Tables<'a> {
    // A value of the type at r that begins at the row q, if it is right, is null.
    fn null_at(&self, r: usize, q: usize) -> bool
        ensures { (ns : List ℕ) → result ≡ null_next (table self.now.types.now ns) r (value_rows self.now q) }
    {
        match row_at(self.values, q) {
            Some(w) => {
                let row = Row::at(self.types, r);
                let chosen = kind_of(self.types, type_at(self.types, r, w.a));
                (row.kind == Row::NULL) | (row.is_unwrapped() & (chosen == Row::NULL))
            }
            None => false,
        }
    }

    // An element of the type at r is null, by the row q; a member of an object is written in any case.
    pub fn null_in(&self, array: bool, r: usize, q: usize) -> bool
        ensures { (ns : List ℕ) → result ≡ (array && null_next (table self.now.types.now ns) r (value_rows self.now q)) }
    {
        array && self.null_at(r, q)
    }

    // The name of the member at i of the type at r.
    #[tactic(auto, unfolding(jer::specs::Table::name_at))]
    pub fn name_at(&self, r: usize, i: u32) -> &'a [u8]
        ensures { result.now ≡ name_at (type_table self.now) r i }
    {
        name_in(self.types, self.names, member_row(self.types, r, i))
    }
}
