// A value of one row. Its text is put first; a row that is not right is answered as wrong, and of a wrong row's text nothing is said.
ghost use Rattle.std.specs.Prelude.{◌≡◌, ◌||◌, List, ℕ, ◌≤◌, ◌<◌, eqb};
ghost use Rattle.jer.specs.Table.{kind_of, table};
ghost use Rattle.json_text.specs.Utf8.{utf8};
ghost use Rattle.written.specs.Rows.{value_row};
ghost use Rattle.jer.specs.Write.{quotes};
ghost use Rattle.written.specs.Text.{Puts, spelled, form_of, WritesLeaf, type_table};

use crate::put::{Form, put_bool, put_integer, put_null, put_string};
use crate::rows::ValueRow;
use crate::tables::Tables;
use crate::taken::{Took, Wrong, ended};
use octets::amount::add;
use slices::part;
use types::bytes::utf8;
use types::row::{Row, count_of, wide};

// How octets of the type at `row` are spelled.
#[tactic(auto, unfolding(crate::specs::Text::form_of))]
fn form_of(types: &[u32], row: usize) -> Form
    ensures { (ns : List ℕ) → kind_of (table types.now ns) row ≡ 4 → result ≡ form_of (table types.now ns) row }
{
    if Row::at(types, row).is_base64() {
        return Form::Base64;
    }
    Form::Hexadecimal
}

// Where a string's text ends, and whether its bytes are such as its type has: a flag and no Option, since the end is promised of bad ones too.
#[derive(Clone, Copy)]
struct Content {
    end: usize,
    good: bool,
}

// A string of this kind: a UTF8String is UTF-8, and is not looked at where it is known to be ASCII.
fn put_content(
    tables: &Tables<'_>,
    text: &mut [u8],
    kind: u32,
    row: usize,
    place: usize,
    s: &[u8],
) -> Content
    requires { (4 ≤ kind) × (kind ≤ 5) }
    ensures puts { kind ≡ kind_of (type_table tables.now) row → Puts (quotes (spelled (form_of (type_table tables.now) row) s.now)) place text.old text.new result.end }
    ensures good_value { result.good ≡ (eqb kind 4 || utf8 s.now) }
{
    if kind == Row::UTF8_STRING {
        let chars = tables.literal.put_chars(text, place, s);
        return Content {
            end: chars.end,
            good: chars.ascii || utf8(s),
        };
    }
    let end = put_string(text, place, form_of(tables.types, row), s);
    Content { end, good: true }
}

// An OCTET STRING or a UTF8String, from where the pool has got to.
fn string(
    tables: &Tables<'_>,
    text: &mut [u8],
    w: ValueRow,
    row: usize,
    slot: usize,
    offset: usize,
    place: usize,
) -> Result<Took, Wrong>
    requires { (w.kind ≡ kind_of (type_table tables.now) row) × (4 ≤ w.kind) × (w.kind ≤ 5) × (slot < 18446744073709551615) }
    ensures { WritesLeaf tables.now row (value_row w) slot offset place text result }
{
    let start = wide(w.a);
    let len = wide(w.b);
    let s = part(tables.pool, offset, len);
    let content = put_content(tables, text, w.kind, row, place, s);
    let inside = (start == offset) & (start + len <= tables.pool.len());
    ended(
        inside & content.good,
        w.size,
        slot,
        Took {
            next: slot + 1,
            used: add(offset, len),
            end: content.end,
        },
    )
}

pub fn leaf(
    tables: &Tables<'_>,
    text: &mut [u8],
    w: ValueRow,
    row: usize,
    slot: usize,
    offset: usize,
    place: usize,
) -> Result<Took, Wrong>
    requires { (w.kind ≡ kind_of (type_table tables.now) row) × (w.kind ≤ 5) × (slot < 18446744073709551615) }
    ensures { WritesLeaf tables.now row (value_row w) slot offset place text result }
{
    let (good, end) = match w.kind {
        Row::BOOLEAN => ((w.a < 2) & (w.b == 0), put_bool(text, place, w.a == 1)),
        Row::INTEGER => (true, put_integer(text, place, w.a, w.b)),
        Row::ENUMERATED => {
            let name = tables.name_at(row, w.a);
            (
                (w.a < count_of(tables.types, row)) & (w.b == 0),
                tables.literal.put_chars(text, place, name).end,
            )
        }
        Row::NULL => ((w.a == 0) & (w.b == 0), put_null(text, place)),
        _ => {
            return string(tables, text, w, row, slot, offset, place);
        }
    };
    let next = slot + 1;
    let used = offset;
    ended(good, w.size, slot, Took { next, used, end })
}
