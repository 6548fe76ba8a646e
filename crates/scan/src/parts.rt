// What stands at a place, what null stands for, and what follows the opening bracket or a part of a bracket.
ghost use Rattle.std.specs.Prelude.{◌≡◌, ◌≤◌, List, ℕ, length};
ghost use Rattle.jer.specs.Read.{null_absent};
ghost use Rattle.jer.specs.Table.{table};
ghost use Rattle.places.specs.ByPlaces.{token_at, is_null_at, after_part, first_part};

use jer::Token;
use places::Follows;
use slices::byte_at;
use tokens::cursor::Cursor;
use types::row::{member_at, type_at};
use types::token::null_taken;

// The token at p.
#[tactic(auto, unfolding(places::specs::ByPlaces::token_at, json_text::specs::Bytes::pick))]
pub fn token_at(s: &[u8], p: usize) -> Token
    ensures { result ≡ token_at s.now p }
{
    match byte_at(s, p) {
        0x22 => Token::String,
        0x5B => Token::Array,
        0x66 | 0x74 => Token::Boolean,
        0x6E => Token::Null,
        0x7B => Token::Object,
        _ => Token::Number,
    }
}

#[tactic(auto, unfolding(places::specs::ByPlaces::is_null_at))]
pub fn null_at(s: &[u8], p: usize) -> bool
    ensures { result ≡ is_null_at s.now p }
{
    byte_at(s, p) == 0x6E
}

// Null stands for the absent member at k of the type at `row`.
#[tactic(auto, unfolding(jer::specs::Read::null_absent))]
pub fn null_absent(types: &[u32], row: usize, k: u32) -> bool
    ensures { (ns : List ℕ) → result ≡ null_absent (table types.now ns) row k }
{
    member_at(types, row, k).optional() && !null_taken(types, type_at(types, row, k))
}

// After the opening bracket at p, which the byte `close` closes.
#[tactic(auto, using(crate::proofs::WithinLaws::placed), unfolding(places::specs::ByPlaces::first_part))]
pub fn first_part(s: &[u8], close: u32, p: usize) -> Follows
    requires { (length s.now ≤ 65536) × (p ≤ 4294967295) }
    ensures { result ≡ first_part s.now close p }
{
    let start = Cursor { at: p };
    let c = start.advance(1).skip_space(s);
    if byte_at(s, c.at) == close {
        let after = c.advance(1);
        return Follows::Shut(after.at);
    }
    Follows::Part(c.at)
}

// After a part that ends at q.
#[tactic(auto, using(crate::proofs::WithinLaws::placed), unfolding(places::specs::ByPlaces::after_part))]
pub fn after_part(s: &[u8], q: usize) -> Follows
    requires { (length s.now ≤ 65536) × (q ≤ 4294967295) }
    ensures { result ≡ after_part s.now q }
{
    let start = Cursor { at: q };
    let c = start.skip_space(s);
    let after = c.advance(1);
    if byte_at(s, c.at) == 0x2C {
        let next = after.skip_space(s);
        return Follows::Part(next.at);
    }
    Follows::Shut(after.at)
}
