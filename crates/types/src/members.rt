// Rules that a type's members keep one by one.
ghost use Rattle.std.specs.Prelude.{◌≡◌, List, ℕ};
ghost use Rattle.jer.specs.Table.{name_at, same_bytes, table};
ghost use Rattle.jer.specs.Valid.{names_differ, none_optional, good_array, owns_members};
ghost use Rattle.types.specs.Check.{name_is_new, none_unwrapped, token_is_new, tokens_differ, untyped};

use crate::bytes::same_bytes;
use crate::row::{Row, count_of, may_miss, member_at, member_row, name_in, type_at};
use crate::token::{null_taken, same_token, token_of};

// Each row of them is a member's.
pub fn owns_members(rows: &[u32], r: usize) -> bool
    ensures { (ns : List ℕ) → result ≡ owns_members (table rows.now ns) r }
{
    (0..count_of(rows, r)).all(|i| member_at(rows, r, i).kind == Row::MEMBER)
}

// None is OPTIONAL.
pub fn none_optional(rows: &[u32], r: usize) -> bool
    ensures { (ns : List ℕ) → result ≡ none_optional (table rows.now ns) r }
{
    (0..count_of(rows, r)).all(|i| !member_at(rows, r, i).optional())
}

// The type row of each is 0: they are items.
pub fn untyped(rows: &[u32], r: usize) -> bool
    ensures { (ns : List ℕ) → result ≡ untyped (table rows.now ns) r }
{
    (0..count_of(rows, r)).all(|i| type_at(rows, r, i) == 0)
}

// Null never stands both for the absence of one and for a value.
pub fn good_array(rows: &[u32], r: usize) -> bool
    ensures { (ns : List ℕ) → result ≡ good_array (table rows.now ns) r }
{
    (0..count_of(rows, r)).all(|i| !(may_miss(rows, r, i) & null_taken(rows, type_at(rows, r, i))))
}

// No type of one is UNWRAPPED.
pub fn none_unwrapped(rows: &[u32], r: usize) -> bool
    ensures { (ns : List ℕ) → result ≡ none_unwrapped (table rows.now ns) r }
{
    (0..count_of(rows, r)).all(|i| !Row::at(rows, type_at(rows, r, i)).is_unwrapped())
}

// The names of the members at i and j are the same.
fn same_name(rows: &[u32], names: &[u8], r: usize, i: u32, j: u32) -> bool
    ensures { result ≡ same_bytes (name_at (table rows.now names.now) r i) (name_at (table rows.now names.now) r j) }
{
    let a = name_in(rows, names, member_row(rows, r, i));
    let b = name_in(rows, names, member_row(rows, r, j));
    same_bytes(a, b)
}

// No member before the one at j has its name.
fn new_name(rows: &[u32], names: &[u8], r: usize, j: u32) -> bool
    ensures { result ≡ name_is_new (table rows.now names.now) r j }
{
    (0..j).all(|i| !same_name(rows, names, r, i, j))
}

pub fn names_differ(rows: &[u32], names: &[u8], r: usize) -> bool
    ensures { result ≡ names_differ (table rows.now names.now) r }
{
    (0..count_of(rows, r)).all(|j| new_name(rows, names, r, j))
}

// No member before the one at j has a type whose values begin with the same token.
fn new_token(rows: &[u32], r: usize, j: u32) -> bool
    ensures { (ns : List ℕ) → result ≡ token_is_new (table rows.now ns) r j }
{
    let due = token_of(rows, type_at(rows, r, j));
    (0..j).all(|i| !same_token(token_of(rows, type_at(rows, r, i)), due))
}

pub fn tokens_differ(rows: &[u32], r: usize) -> bool
    ensures { (ns : List ℕ) → result ≡ tokens_differ (table rows.now ns) r }
{
    (0..count_of(rows, r)).all(|j| new_token(rows, r, j))
}
