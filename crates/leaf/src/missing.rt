// The value of an element that is missing at the end of an ARRAY.
ghost use Rattle.std.specs.Prelude.{◌^◌, ◌<◌};
ghost use Rattle.leaf.specs.Step.{MissingRead};

use crate::store::put_row;
use crate::{Taken, read, refused};
use jer::{Cause, Refusal, Token};
use types::row::{Row, kind_of, type_at};
use types::token::alternative;

// The null value of the member at the position `member` of the type at `row`, at a slot; the array opens at the place, and `next` follows its last element.
pub fn missing(
    types: &[u32],
    rows: &mut [u32],
    row: usize,
    member: u32,
    place: usize,
    next: usize,
    slot: usize,
) -> Result<Taken, Refusal>
    requires { slot < 2 ^ 60 }
    ensures { MissingRead types row member place slot next result rows }
{
    let m = type_at(types, row, member);
    let w = Row::at(types, m);
    if w.is_unwrapped() {
        match alternative(types, m, Token::Null) {
            Some(k) => {
                put_row(rows, slot, w.kind, k, 0, 2);
                put_row(
                    rows,
                    slot + 1,
                    kind_of(types, type_at(types, m, k)),
                    0,
                    0,
                    1,
                );
                return read(next, 2, 0);
            }
            None => {
                if w.extensible() {
                    return refused(Cause::Unknown, place);
                }
                return refused(Cause::Missing(member), place);
            }
        }
    }
    if w.kind == Row::NULL {
        put_row(rows, slot, w.kind, 0, 0, 1);
        return read(next, 1, 0);
    }
    refused(Cause::Missing(member), place)
}
