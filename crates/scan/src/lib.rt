// What stands inside a bracket, by places of the text: its parts, the names of members, and the scan of an object's names.
// Contracts cite `ByPlaces.antt` of `places`.
#![tactic(auto)]

pub mod met; // met.rt: the members met, one bit for each
pub mod names; // names.rt: the position of a name, and the value after it
pub mod parts; // parts.rt: what stands at a place, what null stands for, and what follows a part of a bracket

ghost use Rattle.std.specs.Prelude.{◌≡◌, ◌≤◌, ◌<◌, length};
ghost use Rattle.jer.specs.Table.{count_of, table};
ghost use Rattle.places.specs.ByPlaces.{first_part, scan_at, no_places};

use jer::{Cause, Refusal};
use met::{bit, with};
use names::{position, value_place};
use parts::{after_part, first_part};
use places::{Follows, Scanned, Stopped};
use tokens::skip::skip_value;
use types::row::{Row, wide};

// The names, in text order, of the object whose opening bracket stands at p and in whose values `depth` brackets may be open.
pub fn scan(
    types: &[u32],
    names: &[u8],
    s: &[u8],
    row: usize,
    p: usize,
    depth: u32,
) -> Result<Scanned, Stopped>
    requires { (length s.now ≤ 65536) × (p < length s.now) × (count_of (table types.now names.now) row ≤ 64) }
    ensures { result ≡ scan_at depth (table types.now names.now) s.now row (length s.now) (first_part s.now 0x7D p) 0 no_places }
{
    let extensible = Row::at(types, row).extensible();
    let mut places = [0u32; 64];
    let mut met: u64 = 0;
    let mut next = first_part(s, 0x7D, p);
    // A member ends where its value does: the step varies.
    loop {
        match next {
            Follows::Shut(q) => {
                return Ok(Scanned {
                    next: q,
                    met,
                    places,
                });
            }
            Follows::Part(q) => {
                let value = value_place(s, q);
                let after = after_part(s, skip_value(s, value, depth));
                match position(types, names, s, row, q) {
                    None => {
                        if !extensible {
                            let why = Refusal::AtByte(Cause::UnknownName, q);
                            return Err(Stopped { why, met, places });
                        }
                        next = after;
                    }
                    Some(i) => {
                        if bit(met, i) {
                            let why = Refusal::AtByte(Cause::RepeatedName, q);
                            return Err(Stopped { why, met, places });
                        }
                        met = with(met, i);
                        places[wide(i)] = value as u32;
                        next = after;
                    }
                }
            }
        }
    }
}
