// The JSON token that a value of a type begins with, and the types that take null for themselves.
ghost use Rattle.std.specs.Prelude.{◌≡◌, List, ℕ};
ghost use Rattle.jer.specs.Table.{same_token, token_of, alternative, can_be_null, open_unwrapped, null_taken, table};

use crate::row::{Row, count_of, type_at};
use jer::Token;

// The token of the type at r, if it is not UNWRAPPED.
pub fn token_of(rows: &[u32], r: usize) -> Option<Token>
    ensures { (ns : List ℕ) → result ≡ token_of (table rows.now ns) r }
{
    Row::at(rows, r).begins()
}

// Named so that contracts can cite the definition.
pub fn same_token(a: Option<Token>, b: Option<Token>) -> bool
    ensures { result ≡ same_token a b }
{
    a == b
}

// The position of the alternative of the UNWRAPPED choice at r that a token picks.
pub fn alternative(rows: &[u32], r: usize, token: Token) -> Option<u32>
    ensures { (ns : List ℕ) → result ≡ alternative (table rows.now ns) r token }
{
    (0..count_of(rows, r)).find(|i| same_token(token_of(rows, type_at(rows, r, *i)), Some(token)))
}

pub fn can_be_null(rows: &[u32], r: usize) -> bool
    ensures { (ns : List ℕ) → result ≡ can_be_null (table rows.now ns) r }
{
    let row = Row::at(rows, r);
    row.kind == Row::NULL || row.is_unwrapped() && alternative(rows, r, Token::Null).is_some()
}

pub fn open_unwrapped(rows: &[u32], r: usize) -> bool
    ensures { (ns : List ℕ) → result ≡ open_unwrapped (table rows.now ns) r }
{
    let row = Row::at(rows, r);
    row.is_unwrapped() & row.extensible()
}

// Null cannot stand for an absent member of the type at r.
pub fn null_taken(rows: &[u32], r: usize) -> bool
    ensures { (ns : List ℕ) → result ≡ null_taken (table rows.now ns) r }
{
    can_be_null(rows, r) | open_unwrapped(rows, r)
}
