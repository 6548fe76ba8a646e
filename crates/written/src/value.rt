// A value of any type, judged row by row and written, in one cycle of calls: the brackets that may still be opened fall.
ghost use Rattle.std.specs.Prelude.{◌≡◌, false, [], ◌<◌, length};
ghost use Rattle.jer.specs.Table.{is_unwrapped};
ghost use Rattle.jer.specs.Judge.{take_sequence, take_list, take_choice};
ghost use Rattle.written.specs.Rows.{value_row};
ghost use Rattle.written.specs.Tables.{GoodTable};
ghost use Rattle.written.specs.Text.{PlainRow, BracketRow, WritesValue, Measures, WritesParts, type_table};

use crate::leaf::leaf;
use crate::put::{brackets, kept_after, put_byte, put_comma};
use crate::rows::{ValueRow, absent_at, row_at, type_row};
use crate::start::closed;
use crate::tables::Tables;
use crate::taken::{Took, Wrong, ended};
use types::row::{Row, count_of, element_of, type_at, wide};

// The value of the type at `row` whose rows begin at `slot`, with the pool used up to `offset`; its text from `place` on.
#[cycle(bracket_choice_judged_leaf_or_value_list_plain_sequence_value)]
pub fn value(
    tables: &Tables<'_>,
    text: &mut [u8],
    row: usize,
    slot: usize,
    offset: usize,
    place: usize,
    depth: u32,
) -> Result<Took, Wrong>
    requires good { GoodTable tables.now.types.now tables.now.names.now }
    ensures { WritesValue depth tables.now row slot offset place text result }
{
    let start = tables.start_of(row, slot)?;
    let took = plain(
        tables, text, start.kind, start.row, start.slot, offset, place, depth,
    )?;
    closed(start.size, slot, took)
}

// The same, of a type that is not UNWRAPPED, and whose kind is due.
#[cycle(bracket_choice_judged_leaf_or_value_list_plain_sequence_value)]
fn plain(
    tables: &Tables<'_>,
    text: &mut [u8],
    due: u32,
    row: usize,
    slot: usize,
    offset: usize,
    place: usize,
    depth: u32,
) -> Result<Took, Wrong>
    requires good { GoodTable tables.now.types.now tables.now.names.now }
    requires plain_row { PlainRow (type_table tables.now) due row }
    ensures { WritesValue depth tables.now row slot offset place text result }
{
    let Some(w) = row_at(tables.values, slot) else {
        return Err(Wrong { slot });
    };
    let kind = w.kind;
    if kind != due {
        return Err(Wrong { slot });
    }
    if kind < Row::SEQUENCE {
        return leaf(tables, text, w, row, slot, offset, place);
    }
    bracket(tables, text, w, row, slot, offset, place, depth)
}

// The same, of a value with parts, whose row is w.
#[cycle(bracket_choice_judged_leaf_or_value_list_plain_sequence_value)]
fn bracket(
    tables: &Tables<'_>,
    text: &mut [u8],
    w: ValueRow,
    row: usize,
    slot: usize,
    offset: usize,
    place: usize,
    depth: u32,
) -> Result<Took, Wrong>
    requires good { GoodTable tables.now.types.now tables.now.names.now }
    requires bracket_row { BracketRow (type_table tables.now) tables.now.values.now w row slot }
    ensures { WritesValue depth tables.now row slot offset place text result }
{
    let kind = w.kind;
    if depth == 0 {
        return Err(Wrong { slot });
    }
    if w.b != 0 {
        return Err(Wrong { slot });
    }
    let inside = depth - 1;
    if kind == Row::SEQUENCE {
        return sequence(tables, text, w, row, slot, offset, place, inside);
    }
    if kind == Row::SEQUENCE_OF {
        return list(tables, text, w, row, slot, offset, place, inside);
    }
    if kind != Row::CHOICE {
        return Err(Wrong { slot });
    }
    if count_of(tables.types, row) <= w.a {
        return Err(Wrong { slot });
    }
    choice(tables, text, w, row, slot, offset, place, inside)
}

// A SEQUENCE OF whose row is w. `depth` brackets may be opened inside.
#[cycle(bracket_choice_judged_leaf_or_value_list_plain_sequence_value)]
fn list(
    tables: &Tables<'_>,
    text: &mut [u8],
    w: ValueRow,
    row: usize,
    slot: usize,
    offset: usize,
    place: usize,
    depth: u32,
) -> Result<Took, Wrong>
    requires good { GoodTable tables.now.types.now tables.now.names.now }
    requires slot_in { slot < length tables.now.values.now }
    ensures { WritesParts take_list depth tables.now row (value_row w) slot offset place text result }
{
    let e = element_of(tables.types, row);
    let mut took = Took {
        next: slot + 1,
        used: offset,
        end: put_byte(text, place, 0x5B),
    };
    for i in 0..w.a {
        let s = put_comma(text, took.end, i);
        took = value(tables, text, e, took.next, took.used, s, depth)?;
    }
    let end = put_byte(text, took.end, 0x5D);
    ended(true, w.size, slot, Took { end, ..took })
}

// A SEQUENCE, as an ARRAY or an object: nulls of an ARRAY wait until another element follows.
#[cycle(bracket_choice_judged_leaf_or_value_list_plain_sequence_value)]
fn sequence(
    tables: &Tables<'_>,
    text: &mut [u8],
    w: ValueRow,
    row: usize,
    slot: usize,
    offset: usize,
    place: usize,
    depth: u32,
) -> Result<Took, Wrong>
    requires good { GoodTable tables.now.types.now tables.now.names.now }
    requires slot_in { slot < length tables.now.values.now }
    ensures { WritesParts take_sequence depth tables.now row (value_row w) slot offset place text result }
{
    let types = tables.types;
    let values = tables.values;
    let own = type_row(types, row);
    let array = own.is_array();
    let brackets = brackets(array);
    let count = own.members;
    let first = wide(own.first);
    let mut present: u32 = 0;
    let mut kept: u32 = 0;
    let mut took = Took {
        next: slot + 1,
        used: offset,
        end: put_byte(text, place, brackets.opening),
    };
    for i in 0..count {
        let member = type_row(types, first + wide(i));
        let e = wide(member.first);
        if absent_at(types, values, row, i, took.next) {
            took.next += 1;
        } else if tables.null_in(array, e, took.next) {
            let null = judged(tables, e, took.next, took.used, depth)?;
            took.next = null.next;
            took.used = null.used;
            present += 1;
        } else {
            let s = tables.put_lead(text, member, i, kept, took.end, array);
            took = leaf_or_value(tables, text, e, took.next, took.used, s, depth)?;
            kept = kept_after(array, i, kept);
            present += 1;
        }
    }
    let end = put_byte(text, took.end, brackets.closing);
    ended(w.a == present, w.size, slot, Took { end, ..took })
}

// The same as `value`: a leaf, of which most values are, is written with no other call of the cycle between.
#[cycle(bracket_choice_judged_leaf_or_value_list_plain_sequence_value)]
fn leaf_or_value(
    tables: &Tables<'_>,
    text: &mut [u8],
    row: usize,
    slot: usize,
    offset: usize,
    place: usize,
    depth: u32,
) -> Result<Took, Wrong>
    requires good { GoodTable tables.now.types.now tables.now.names.now }
    ensures { WritesValue depth tables.now row slot offset place text result }
{
    let own = type_row(tables.types, row);
    let kind = own.kind;
    if Row::SEQUENCE <= kind {
        return value(tables, text, row, slot, offset, place, depth);
    }
    let Some(w) = row_at(tables.values, slot) else {
        return Err(Wrong { slot });
    };
    if w.kind != kind {
        return Err(Wrong { slot });
    }
    leaf(tables, text, w, row, slot, offset, place)
}

// A value whose text is measured and not kept.
#[cycle(bracket_choice_judged_leaf_or_value_list_plain_sequence_value)]
pub fn judged(
    tables: &Tables<'_>,
    row: usize,
    slot: usize,
    offset: usize,
    depth: u32,
) -> Result<Took, Wrong>
    requires good { GoodTable tables.now.types.now tables.now.names.now }
    ensures { Measures depth tables.now row slot offset result }
{
    let mut one = [0u8; 1];
    value(tables, &mut one, row, slot, offset, 0, depth)
}

// A CHOICE that is not UNWRAPPED: an object of one member.
#[cycle(bracket_choice_judged_leaf_or_value_list_plain_sequence_value)]
fn choice(
    tables: &Tables<'_>,
    text: &mut [u8],
    w: ValueRow,
    row: usize,
    slot: usize,
    offset: usize,
    place: usize,
    depth: u32,
) -> Result<Took, Wrong>
    requires good { GoodTable tables.now.types.now tables.now.names.now }
    requires slot_in { slot < length tables.now.values.now }
    requires plain_row { is_unwrapped (type_table tables.now) row ≡ false }
    ensures { WritesParts take_choice depth tables.now row (value_row w) slot offset place text result }
{
    let p = put_byte(text, place, 0x7B);
    let start = tables.literal.put_name(text, p, tables.name_at(row, w.a));
    let e = type_at(tables.types, row, w.a);
    let first = slot + 1;
    let took = value(tables, text, e, first, offset, start, depth)?;
    let end = put_byte(text, took.end, 0x7D);
    ended(true, w.size, slot, Took { end, ..took })
}
