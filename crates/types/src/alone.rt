// The first pass: each row by itself. The row is inside, and ascii says that all names are known to be ASCII.
ghost use Rattle.std.specs.Prelude.{◌≡◌, List, true, ℕ, ◌-◌, ◌≤◌, ◌<◌, ◌/◌, length};
ghost use Rattle.jer.specs.Table.{Table, row_count, table};
ghost use Rattle.jer.specs.Valid.{unused, good_block, good_name, good_alone};
ghost use Rattle.types.specs.Rows.{row_of};
ghost use Rattle.types.specs.Bytes.{Ascii};

use crate::bytes::utf8;
use crate::row::{Row, row_count, row_in, wide};
use jer::Layout;

// The fields from `from` on are 0.
fn unused(rows: &[u32], r: usize, from: usize) -> bool
    requires { (r < length rows.now / 8) × (from ≤ 8) }
    ensures { (ns : List ℕ) → result ≡ unused (table rows.now ns) r from (8 - from) }
{
    let k = r * 8;
    (from..8).all(|i| rows[k + i] == 0)
}

// A type's block of members, by its row and the table's count of rows.
fn block(row: Row, count: usize, least: u32) -> bool
    ensures { (t : Table) (r : ℕ) → row ≡ row_of t r → count ≡ row_count t → result ≡ good_block t r least }
{
    let many = (least <= row.members) & (row.members <= 64);
    let inside = wide(row.first) + wide(row.members) <= count;
    let root = (least <= row.root) & (row.root <= row.members);
    many & inside & root & (row.extensible() | (row.root == row.members))
}

// The name in the member's row m; of ASCII alone the UTF-8 need not be looked at.
fn good_name(rows: &[u32], names: &[u8], ascii: bool, m: usize) -> bool
    requires { (m < length rows.now / 8) × (ascii ≡ true → Ascii names.now) }
    ensures { result ≡ good_name (table rows.now names.now) m }
{
    let row = row_in(rows, m);
    let start = wide(row.members);
    let n = wide(row.root);
    if n == 0 {
        return false;
    }
    if 128 < n {
        return false;
    }
    let end = start + n;
    if names.len() < end {
        return false;
    }
    if ascii {
        return true;
    }
    utf8(&names[start..end])
}

// Row r by itself.
pub fn good_alone(rows: &[u32], names: &[u8], ascii: bool, r: usize) -> bool
    requires { (r < length rows.now / 8) × (ascii ≡ true → Ascii names.now) }
    ensures { result ≡ good_alone (table rows.now names.now) r }
{
    let row = row_in(rows, r);
    let carried = Row::carries(row.kind);
    if !row.good_marks(carried.marks) {
        return false;
    }
    let count = row_count(rows);
    match carried.layout {
        Layout::Bare => unused(rows, r, 2),
        Layout::Holds(least) => {
            let empty = (row.members != 0) | (row.first == 0);
            unused(rows, r, 5) & block(row, count, least) & empty
        }
        Layout::Lists => unused(rows, r, 3) & (wide(row.first) < count),
        Layout::Names => {
            let inside = wide(row.first) < count;
            unused(rows, r, 5) & (r != 0) & inside & good_name(rows, names, ascii, r)
        }
        Layout::Unknown => false,
    }
}
