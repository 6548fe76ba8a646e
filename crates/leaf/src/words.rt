// Leaves without bytes: NULL, BOOLEAN and INTEGER. They are stored at a slot.
ghost use Rattle.std.specs.Prelude.{◌^◌, ◌≤◌};
ghost use Rattle.jer.specs.declared.Token.TheVariants as tok;
ghost use Rattle.leaf.specs.Step.{RowRead};

use crate::store::put_row;
use crate::{Taken, read, refused};
use jer::{Cause, Refusal};
use slices::byte_at;
use tokens::cursor::{Class, run};
use tokens::numbers::{Halves, integer_at};
use types::row::{Row, kind_of};

pub fn null(
    types: &[u32],
    s: &[u8],
    rows: &mut [u32],
    row: usize,
    place: usize,
    slot: usize,
) -> Result<Taken, Refusal>
    requires { slot ≤ 2 ^ 60 }
    ensures { RowRead tok.Null types s row place slot result rows }
{
    let kind = kind_of(types, row);
    if kind != Row::NULL {
        return refused(Cause::OtherKind, place);
    }
    put_row(rows, slot, kind, 0, 0, 1);
    read(run(s, place, Class::Word), 1, 0)
}

pub fn boolean(
    types: &[u32],
    s: &[u8],
    rows: &mut [u32],
    row: usize,
    place: usize,
    slot: usize,
) -> Result<Taken, Refusal>
    requires { slot ≤ 2 ^ 60 }
    ensures { RowRead tok.Boolean types s row place slot result rows }
{
    let kind = kind_of(types, row);
    if kind != Row::BOOLEAN {
        return refused(Cause::OtherKind, place);
    }
    let b = byte_at(s, place) == 0x74;
    put_row(rows, slot, kind, u32::from(b), 0, 1);
    read(run(s, place, Class::Word), 1, 0)
}

pub fn number(
    types: &[u32],
    s: &[u8],
    rows: &mut [u32],
    row: usize,
    place: usize,
    slot: usize,
) -> Result<Taken, Refusal>
    requires { slot ≤ 2 ^ 60 }
    ensures { RowRead tok.Number types s row place slot result rows }
{
    let kind = kind_of(types, row);
    if kind != Row::INTEGER {
        return refused(Cause::OtherKind, place);
    }
    let Some(Halves { low, high }) = integer_at(s, place) else {
        return refused(Cause::BadNumber, place);
    };
    put_row(rows, slot, kind, low, high, 1);
    read(run(s, place, Class::Word), 1, 0)
}
