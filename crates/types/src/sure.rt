// The second and the third pass at once, quick, over rows that are read without a test for each field: yes only if surely neither finds a bad row.
ghost use Rattle.std.specs.Prelude.{◌≡◌, List, true, ℕ, ◌+◌, ◌≤◌, ◌<◌, ◌/◌, length, get_or};
ghost use Rattle.jer.specs.Table.{is_type, name_in, table};
ghost use Rattle.types.specs.Sure.{Alone, BlockInside, sign_of, NameInside, NamesInside, Apart, Fits, SureMembers, SureLinks};

use crate::bytes::same_bytes;
use crate::members::good_array;
use crate::row::{Row, row_count, row_in, wide};
use crate::rules::good_unwrapped;
use jer::Layout;

// The highest type row that the members of a SEQUENCE or CHOICE may have: any.
const ANY: u32 = u32::MAX;

// The row r is a type's.
fn holds_type(rows: &[u32], r: usize) -> bool
    requires { r < length rows.now / 8 }
    ensures { (ns : List ℕ) → result ≡ is_type (table rows.now ns) r }
{
    Row::type_kind(rows[r * 8])
}

// The row m is a member's, with no mark and no type row above these.
fn fits(rows: &[u32], m: usize, marks: u32, types: u32) -> bool
    requires { m < length rows.now / 8 }
    ensures { (ns : List ℕ) → result ≡ true → Fits (table rows.now ns) m marks types }
{
    let row = row_in(rows, m);
    (row.kind == Row::MEMBER) & (row.marks <= marks) & (row.first <= types)
}

// Its name.
fn name_inside<'a>(rows: &[u32], names: &'a [u8], m: usize) -> &'a [u8]
    requires { (m < length rows.now / 8) × NameInside (table rows.now names.now) m }
    ensures { result.now ≡ name_in (table rows.now names.now) m }
{
    let row = row_in(rows, m);
    let start = wide(row.members);
    let end = start + wide(row.root);
    &names[start..end]
}

// The byte at i, which is inside.
fn byte(s: &[u8], i: usize) -> usize
    requires { i < length s.now }
    ensures { (result ≡ get_or s.now i 0) × (result < 256) }
{
    usize::from(s[i])
}

// A number that equal names share.
fn sign(name: &[u8]) -> usize
    requires { 1 ≤ length name.now }
    ensures { (result ≡ sign_of name.now) × (result < 256) }
{
    let n = name.len();
    let ends = byte(name, 0) * 5 + byte(name, n - 1) * 3;
    let middle = byte(name, n / 2) * 11 + byte(name, n / 3) * 7;
    (ends + middle + n % 256) % 256
}

// No member of j from the row first on has the name.
fn unlike(rows: &[u32], names: &[u8], first: usize, j: usize, name: &[u8]) -> bool
    requires { (first + j ≤ length rows.now / 8) × NamesInside (table rows.now names.now) first j }
    ensures { result ≡ true → Apart (table rows.now names.now) first j name.now }
{
    (0..j).all(|i| !same_bytes(name_inside(rows, names, first + i), name))
}

// Its sign is not marked, or no member before has the name.
fn fresh(rows: &[u32], names: &[u8], first: usize, j: usize, name: &[u8], marked: bool) -> bool
    requires { (first + j ≤ length rows.now / 8) × NamesInside (table rows.now names.now) first j }
    ensures { result ≡ true → marked ≡ true → Apart (table rows.now names.now) first j name.now }
{
    if !marked {
        return true;
    }
    unlike(rows, names, first, j, name)
}

// The members of the type at r: each fits, and their names differ. Names of different signs do.
#[inline(always)]
fn sure_members(rows: &[u32], names: &[u8], r: usize, marks: u32, types: u32) -> bool
    requires { (r < length rows.now / 8) × Alone (table rows.now names.now) × BlockInside (table rows.now names.now) r }
    ensures { result ≡ true → SureMembers (table rows.now names.now) r marks types }
{
    let row = row_in(rows, r);
    let first = wide(row.first);
    let count = wide(row.members);
    let mut seen = [false; 256];
    for j in 0..count {
        let m = first + j;
        if !fits(rows, m, marks, types) {
            return false;
        }
        let name = name_inside(rows, names, m);
        let s = sign(name);
        if !fresh(rows, names, first, j, name, seen[s]) {
            return false;
        }
        seen[s] = true;
    }
    true
}

// A row that has members, by them and by its type's other rules.
fn sure_holder(rows: &[u32], names: &[u8], r: usize) -> bool
    requires { (r < length rows.now / 8) × Alone (table rows.now names.now) }
    ensures { result ≡ true → SureLinks (table rows.now names.now) r }
{
    let row = row_in(rows, r);
    match row.kind {
        Row::ENUMERATED => sure_members(rows, names, r, 0, 0),
        Row::SEQUENCE => {
            if !sure_members(rows, names, r, 1, ANY) {
                return false;
            }
            if row.is_array() {
                return good_array(rows, r);
            }
            true
        }
        Row::CHOICE => {
            if !sure_members(rows, names, r, 0, ANY) {
                return false;
            }
            if row.is_unwrapped() {
                return good_unwrapped(rows, r);
            }
            true
        }
        _ => false,
    }
}

// Row r by those it points to, and a type by its other rules.
fn sure_links(rows: &[u32], names: &[u8], r: usize) -> bool
    requires { (r < length rows.now / 8) × Alone (table rows.now names.now) }
    ensures { result ≡ true → SureLinks (table rows.now names.now) r }
{
    let row = row_in(rows, r);
    match Row::carries(row.kind).layout {
        Layout::Bare | Layout::Unknown => true,
        Layout::Holds(_) => sure_holder(rows, names, r),
        Layout::Lists | Layout::Names => holds_type(rows, wide(row.first)),
    }
}

// Every row is sure by those it points to and by its type's rules: the second and the third pass find no bad row.
pub fn sure(rows: &[u32], names: &[u8]) -> bool
    requires { Alone (table rows.now names.now) }
    ensures { result ≡ true → ((r : ℕ) → r < length rows.now / 8 → SureLinks (table rows.now names.now) r) }
{
    (0..row_count(rows)).all(|r| sure_links(rows, names, r))
}
