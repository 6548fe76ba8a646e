// Is a text JSON, within document 01's sizes? One pass, with the same work at every byte.
// `specs/Class.antt` and `specs/Outline.antt` say which bytes may begin or continue what.
#![tactic(auto)]

ghost use Rattle.jer.specs.CallClauses.{TextCall};

mod acts;
pub mod classes;
mod outline;
mod tables;

use jer::{Cause, Refusal};
use outline::Outline;
use tables::Tables;

// JSON, or refusal 2, 3 or 4 at its byte.
#[tactic(auto, using(crate::proofs::Texts::too_long, crate::proofs::Texts::begun, crate::proofs::Texts::goes_on, crate::proofs::Texts::refuses))]
pub fn check(s: &[u8]) -> Result<(), Refusal>
    ensures { TextCall s.now result }
{
    if json_text::TEXT < s.len() {
        return Err(Refusal::AtByte(Cause::TooLong, json_text::TEXT));
    }
    let tables = Tables::new();
    let mut state = Outline::begin();
    for (at, b) in s.iter().enumerate() {
        match state.step(&tables, *b) {
            Ok(next) => state = next,
            Err(cause) => return Err(Refusal::AtByte(cause, at)),
        }
    }
    if state.whole(&tables) {
        return Ok(());
    }
    Err(Refusal::AtByte(Cause::NotJson, s.len()))
}
