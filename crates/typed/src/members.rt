// The members of a sequence, and the one of a choice, as the text has them: found before they are read.
ghost use Rattle.std.specs.Prelude.{◌≡◌, true, false, List, ℕ, ◌-◌, ◌≤◌, ◌<◌, length};
ghost use Rattle.jer.specs.declared.Cause.TheVariants.{Unknown};
ghost use Rattle.jer.specs.Table.{extensible, table};
ghost use Rattle.jer.specs.Answer.{at};
ghost use Rattle.places.specs.ByPlaces.{first_part, follows_at, member_found, element_found, surplus_at, one_at};
ghost use Rattle.leaf.specs.Step.{Step, refused_at};

use jer::{Cause, Refusal};
use leaf::{Taken, refused};
use places::{Element, Follows, Member};
use scan::names::value_place;
use scan::parts::{after_part, first_part, null_absent, null_at};
use slices::byte_at;
use tokens::cursor::{Class, Cursor, run};
use tokens::skip::{skip_bracket, skip_value};
use types::row::{Row, may_miss};

// The member at k of the type at `row`, given whether it was met and where its value stands.
#[tactic(auto, unfolding(places::specs::ByPlaces::member_found))]
pub fn member_found(types: &[u32], s: &[u8], row: usize, k: u32, met: bool, q: usize) -> Member
    ensures { (ns : List ℕ) → result ≡ member_found (table types.now ns) s.now row k met q }
{
    if !met {
        if may_miss(types, row, k) {
            return Member::Absent;
        }
        return Member::Missing;
    }
    if null_at(s, q) && null_absent(types, row, k) {
        return Member::Absent;
    }
    Member::There(q)
}

// The member at k of the type at `row`, given the next element.
#[tactic(auto, unfolding(places::specs::ByPlaces::element_found, places::specs::ByPlaces::follows_at, tokens::specs::Skip::past_word))]
pub fn element_found(types: &[u32], s: &[u8], row: usize, k: u32, next: Follows) -> Element
    requires { (length s.now ≤ 65536) × (follows_at next ≤ 4294967295) }
    ensures { (ns : List ℕ) → result ≡ element_found (table types.now ns) s.now row k next }
{
    let missable = may_miss(types, row, k);
    match next {
        Follows::Shut(q) => {
            if missable {
                return Element::Absent(next);
            }
            Element::Missing(q)
        }
        Follows::Part(q) => {
            if null_at(s, q) & missable {
                return Element::Absent(after_part(s, run(s, q, Class::Word)));
            }
            Element::There(q)
        }
    }
}

// After the last member of an array, in which `depth` brackets may be open: surplus elements are passed over if the type is extensible.
#[tactic(auto, unfolding(places::specs::ByPlaces::surplus_at, tokens::specs::Skip::past_bracket))]
pub fn surplus(
    types: &[u32],
    s: &[u8],
    row: usize,
    next: Follows,
    depth: u32,
) -> Result<usize, Refusal>
    requires { (length s.now ≤ 65536) × (0 < depth) }
    ensures { (ns : List ℕ) → result ≡ surplus_at (depth - 1) (table types.now ns) s.now row next }
{
    match next {
        Follows::Shut(q) => Ok(q),
        Follows::Part(q) => {
            if Row::at(types, row).extensible() {
                return Ok(skip_bracket(s, q, depth));
            }
            Err(Refusal::AtByte(Cause::Surplus, q))
        }
    }
}

// The name of the one member of the object at p, in whose value `depth` brackets may be open.
#[tactic(auto, unfolding(places::specs::ByPlaces::one_at))]
pub fn one_at(s: &[u8], p: usize, depth: u32) -> Option<usize>
    requires { (length s.now ≤ 65536) × (p < length s.now) }
    ensures { result ≡ one_at depth s.now (first_part s.now 0x7D p) }
{
    match first_part(s, 0x7D, p) {
        Follows::Shut(_) => None,
        Follows::Part(q) => {
            let end = Cursor {
                at: skip_value(s, value_place(s, q), depth),
            };
            let c = end.skip_space(s);
            if byte_at(s, c.at) == 0x2C {
                return None;
            }
            Some(q)
        }
    }
}

// No such alternative: 11 at p if the type is extensible, else the cause at q.
pub fn unknown(
    types: &[u32],
    row: usize,
    p: usize,
    cause: Cause,
    q: usize,
) -> Result<Taken, Refusal>
    ensures { (ns : List ℕ) → result ≡ (elim (extensible (table types.now ns) row) as (λ b. Step) [ true ↦ refused_at Unknown p | false ↦ refused_at cause q ]) }
{
    if Row::at(types, row).extensible() {
        return refused(Cause::Unknown, p);
    }
    refused(cause, q)
}
