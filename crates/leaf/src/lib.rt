// Leaves of typed reading: a value with no parts, at a place of the text, stored in the lent rows and pool; and the value of a missing element.
// Contracts cite `ByPlaces.antt` of `places`; `specs/Step.antt` says what a reading answers and what it stores, for every reading above.
#![tactic(auto, using(jer::proofs::Forms::kind_tag), unfolding(json_text::specs::Bytes::pick, jer::specs::Answer::bind, jer::specs::Read::at_kind, jer::specs::Rows::rows_of, jer::specs::Rows::pool_of, jer::specs::Rows::numbers, jer::specs::Rows::bit, jer::specs::Read::read_item, jer::specs::Read::octets_of, jer::specs::Read::read_string, jer::specs::Read::read_octets, jer::specs::Read::missing_element, jer::specs::Read::null_value, jer::specs::Table::open_unwrapped, jer::specs::Rows::above, tokens::specs::Skip::past_word, places::specs::ByPlaces::leaf_at, places::specs::ByPlaces::ending, places::specs::ByPlaces::integer_read))]

pub mod missing; // missing.rt: the value of a missing element of an ARRAY
pub mod store; // store.rt: stores that past the end do nothing
pub mod strings; // strings.rt: ENUMERATED, OCTET STRING and UTF8String
mod words; // words.rt: NULL, BOOLEAN and INTEGER

ghost use Rattle.std.specs.Prelude.{◌≡◌, ◌^◌, ◌≤◌, length, Ok, Err};
ghost use Rattle.jer.specs.declared.Refusal.TheVariants.{AtByte};
ghost use Rattle.leaf.specs.Step.{taken, LeafRead};

use jer::{Cause, Refusal, Token};
use strings::string;
use words::{boolean, null, number};

// What reading a value took: the place after it, and how many rows and pool bytes it has.
#[derive(Clone, Copy)]
pub struct Taken {
    pub next: usize,
    pub rows: usize,
    pub pool: usize,
}

pub fn read(next: usize, rows: usize, pool: usize) -> Result<Taken, Refusal>
    ensures { result ≡ Ok (taken next rows pool) }
{
    Ok(Taken { next, rows, pool })
}

// Refuses the text at a place.
pub fn refused(cause: Cause, place: usize) -> Result<Taken, Refusal>
    ensures { result ≡ Err (AtByte cause place) }
{
    Err(Refusal::AtByte(cause, place))
}

// The leaf of a token at a place, of the type at `row`, which is not UNWRAPPED: its row is stored at a slot, its bytes from an offset on.
// A string stands in the text.
pub fn leaf(
    types: &[u32],
    names: &[u8],
    s: &[u8],
    rows: &mut [u32],
    pool: &mut [u8],
    row: usize,
    token: Token,
    place: usize,
    slot: usize,
    offset: usize,
) -> Result<Taken, Refusal>
    requires { (length s.now ≤ 65536) × (token ≡ Token.String → place ≤ 65536) × (slot ≤ 2 ^ 60) }
    ensures { LeafRead token types names s row place slot offset result rows pool }
{
    match token {
        Token::Null => null(types, s, rows, row, place, slot),
        Token::Boolean => boolean(types, s, rows, row, place, slot),
        Token::Number => number(types, s, rows, row, place, slot),
        Token::String => string(types, names, s, rows, pool, row, place, slot, offset),
        Token::Array | Token::Object => refused(Cause::OtherKind, place),
    }
}
