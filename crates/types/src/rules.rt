// The second and the third pass: each row by the kinds of those it points to, each type by its other rules.
ghost use Rattle.std.specs.Prelude.{◌≡◌, List, ℕ};
ghost use Rattle.jer.specs.Valid.{good_pointers, good_unwrapped, good_rules};
ghost use Rattle.jer.specs.Table.{table};

use crate::members::{
    good_array, names_differ, none_optional, none_unwrapped, owns_members, tokens_differ, untyped,
};
use crate::row::{Row, wide};
use jer::Layout;

pub fn good_pointers(rows: &[u32], r: usize) -> bool
    ensures { (ns : List ℕ) → result ≡ good_pointers (table rows.now ns) r }
{
    let row = Row::at(rows, r);
    match Row::carries(row.kind).layout {
        Layout::Bare | Layout::Unknown => true,
        Layout::Holds(_) => owns_members(rows, r),
        Layout::Lists | Layout::Names => Row::at(rows, wide(row.first)).is_type(),
    }
}

pub fn good_unwrapped(rows: &[u32], r: usize) -> bool
    ensures { (ns : List ℕ) → result ≡ good_unwrapped (table rows.now ns) r }
{
    none_unwrapped(rows, r) & tokens_differ(rows, r)
}

pub fn good_rules(rows: &[u32], names: &[u8], r: usize) -> bool
    ensures { result ≡ good_rules (table rows.now names.now) r }
{
    let row = Row::at(rows, r);
    match row.kind {
        Row::ENUMERATED => {
            names_differ(rows, names, r) & none_optional(rows, r) & untyped(rows, r)
        }
        Row::SEQUENCE => {
            let named = names_differ(rows, names, r);
            if row.is_array() {
                return named & good_array(rows, r);
            }
            named
        }
        Row::CHOICE => {
            let named = names_differ(rows, names, r) & none_optional(rows, r);
            if row.is_unwrapped() {
                return named & good_unwrapped(rows, r);
            }
            named
        }
        _ => true,
    }
}
