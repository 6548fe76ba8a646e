// Members of a sequence: those that are null for their absence, and those that may be missing.
ghost use Rattle.std.specs.Prelude.{◌≡◌, true, false, ◌&&◌, List, ℕ, ◌≤◌, ◌<◌, eqb};
ghost use Rattle.jer.specs.Table.{count_of, may_miss, table};
ghost use Rattle.jer.specs.Read.{null_absent};
ghost use Rattle.tokens.specs.Places.{byte_at};
ghost use Rattle.places.specs.ByPlaces.{bit_of};
ghost use Rattle.quick.specs.Taken.{Complete};

use scan::met::bit;
use scan::parts::{null_absent, null_at};
use types::row::{count_of, may_miss};

// The value at the place is null, for the absence of the member at k of an object. Over slices, as the next: neither needs what `Source` holds.
#[tactic(auto, unfolding(places::specs::ByPlaces::is_null_at))]
pub fn absent_at(types: &[u32], s: &[u8], row: usize, k: u32, place: usize) -> bool
    ensures { (ns : List ℕ) → result ≡ (eqb (byte_at s.now place) 0x6E && null_absent (table types.now ns) row k) }
{
    null_at(s, place) && null_absent(types, row, k)
}

// The element at the place is null, for the absence of the member at k of an ARRAY: of one that may be missing, whatever its type makes of null.
#[tactic(auto, unfolding(places::specs::ByPlaces::is_null_at))]
pub fn missing_at(types: &[u32], s: &[u8], row: usize, k: u32, place: usize) -> bool
    ensures { (ns : List ℕ) → result ≡ (eqb (byte_at s.now place) 0x6E && may_miss (table types.now ns) row k) }
{
    null_at(s, place) && may_miss(types, row, k)
}

// The member at k was met, or may be missing.
fn lacks(types: &[u32], row: usize, met: u64, k: u32) -> bool
    requires { k < 64 }
    ensures { (ns : List ℕ) → result ≡ false → bit_of met k ≡ false → may_miss (table types.now ns) row k ≡ true }
{
    if bit(met, k) {
        return false;
    }
    !may_miss(types, row, k)
}

// Every member that was not met may be missing. A loop: `lacks` asks k < 64, which a chain would have to show at each turn.
pub fn complete(types: &[u32], row: usize, met: u64) -> bool
    requires { (ns : List ℕ) → count_of (table types.now ns) row ≤ 64 }
    ensures { result ≡ true → (ns : List ℕ) → Complete (table types.now ns) row met }
{
    let count = count_of(types, row);
    for k in 0..count {
        if lacks(types, row, met, k) {
            return false;
        }
    }
    true
}
