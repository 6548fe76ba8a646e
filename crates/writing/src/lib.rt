// The call that writes: type table and value table judged, the text measured, and stored in the text that is lent.
#![tactic(auto)]

ghost use Rattle.std.specs.Prelude.{◌≤◌};
ghost use Rattle.jer.specs.CallClauses.{WriteCall};
ghost use Rattle.jer.specs.Table.{table};
ghost use Rattle.written.specs.Tables.{GoodTable};
ghost use Rattle.writing.specs.Call.{WritesText};

use jer::{Limit, Refusal, Which};
use slices::part;
use types::check;
use written::literal::Literal;
use written::put::copy;
use written::tables::Tables;
use written::value::value;

// The one text of the value table, stored from the start of `text`. A refusal leaves it as it was.
pub fn write(
    types: &[u32],
    names: &[u8],
    values: &[u32],
    pool: &[u8],
    text: &mut [u8],
) -> Result<usize, Refusal>
    ensures { WriteCall (table types.now names.now) values.now pool.now text.old result text.new }
{
    check(types, names)?;
    let tables = Tables {
        types,
        names,
        values,
        pool,
        literal: Literal::new(),
    };
    write_value(&tables, text)
}

// A value table of at most so many numbers is written through the small room.
const FEW: usize = 512;

// With a good type table: the text is made in room of our own, on the stack, so that a refusal leaves `text` as it was.
fn write_value(tables: &Tables<'_>, text: &mut [u8]) -> Result<usize, Refusal>
    requires good { GoodTable tables.now.types.now tables.now.names.now }
    ensures { WritesText tables.now text result }
{
    if tables.values.len() <= FEW {
        return through_room::<4096>(tables, text);
    }
    through_room::<65536>(tables, text)
}

fn through_room<const N: usize>(tables: &Tables<'_>, text: &mut [u8]) -> Result<usize, Refusal>
    requires good { GoodTable tables.now.types.now tables.now.names.now }
    requires n_bound { N ≤ 65536 }
    ensures { WritesText tables.now text result }
{
    let mut room = [0u8; N];
    through(tables, text, &mut room)
}

// Made in `room` and copied; a text that is too long for it is made once more, in its place.
fn through(tables: &Tables<'_>, text: &mut [u8], room: &mut [u8]) -> Result<usize, Refusal>
    requires good { GoodTable tables.now.types.now tables.now.names.now }
    ensures { WritesText tables.now text result }
{
    let took = value(tables, room, 0, 0, 0, 0, json_text::BRACKETS)?;
    let values = tables.values.len();
    let rows = (values % 4 == 0) & (values / 4 == took.next);
    if !(rows & (tables.pool.len() == took.used)) {
        return Err(Refusal::AtRow(Which::ValueTable, took.next));
    }
    let end = took.end;
    if json_text::TEXT < end {
        return Err(Refusal::Amounts(Limit::HouseSize, end as u64, 0));
    }
    if text.len() < end {
        return Err(Refusal::Amounts(Limit::LentRoom, end as u64, 0));
    }
    if end <= room.len() {
        copy(text, 0, part(room, 0, end));
        return Ok(end);
    }
    let _ = value(tables, text, 0, 0, 0, 0, json_text::BRACKETS);
    Ok(end)
}
