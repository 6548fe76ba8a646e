// Leaves of strings: ENUMERATED, OCTET STRING and UTF8String. They are stored at a slot, with their bytes in the pool from an offset on.
ghost use Rattle.std.specs.Prelude.{◌≡◌, List, [], ◌∷◌, ℕ, ◌+◌, ◌*◌, ◌^◌, ◌≤◌, ◌<◌, length, Ok};
ghost use Rattle.std.proofs.lemmas.List.Edits.{sets};
ghost use Rattle.jer.specs.declared.Token.TheVariants as tok;
ghost use Rattle.jer.specs.Table.{table};
ghost use Rattle.std.specs.Option.{option_map};
ghost use Rattle.jer.specs.Read.{octets_of};
ghost use Rattle.tokens.specs.Strings.{denoted};
ghost use Rattle.octets.specs.Decode.{Stored};
ghost use Rattle.leaf.specs.Step.{taken, LeafRead, ItemRead};

use crate::store::{narrow, put_row};
use crate::{Taken, read, refused};
use jer::{Cause, Refusal};
use octets::decode::{base64_octets, hex_octets};
use scan::names::position;
use tokens::strings::{copy, string_end};
use types::row::{Row, kind_of, wide};

// The item of an ENUMERATED that the string at the place denotes.
fn item(
    types: &[u32],
    names: &[u8],
    s: &[u8],
    rows: &mut [u32],
    row: usize,
    place: usize,
    slot: usize,
) -> Result<Taken, Refusal>
    requires { (length s.now ≤ 65536) × (place ≤ 65536) × (slot ≤ 2 ^ 60) }
    ensures { ItemRead types names s row place slot result rows }
{
    let w = Row::at(types, row);
    match position(types, names, s, row, place) {
        Some(k) => {
            put_row(rows, slot, w.kind, k, 0, 1);
            read(string_end(s, place + 1), 1, 0)
        }
        None if w.extensible() => refused(Cause::Unknown, place),
        None => refused(Cause::BadString, place),
    }
}

// The octets of the string at the place, in Base64 or in hexadecimal.
pub fn octets_at(
    types: &[u32],
    s: &[u8],
    pool: &mut [u8],
    row: usize,
    place: usize,
    offset: usize,
) -> Option<usize>
    requires { (length s.now ≤ 65536) × (place ≤ 65536) }
    ensures count { (ns : List ℕ) → result ≡ option_map length (octets_of (table types.now ns) row (denoted s.now (place + 1))) }
    ensures stored { (ns : List ℕ) → offset < 2 ^ 32 → Stored pool.new pool.old offset (octets_of (table types.now ns) row (denoted s.now (place + 1))) }
{
    let j = wide(narrow(offset));
    if Row::at(types, row).is_base64() {
        return base64_octets(s, place + 1, pool, j);
    }
    hex_octets(s, place + 1, pool, j)
}

// The row of n bytes that stand in the pool from the offset on.
fn bytes(
    rows: &mut [u32],
    slot: usize,
    kind: u32,
    offset: usize,
    n: usize,
    next: usize,
) -> Result<Taken, Refusal>
    requires { slot ≤ 2 ^ 60 }
    ensures value { result ≡ Ok (taken next 1 n) }
    ensures rows_after { offset + n < 2 ^ 32 → rows.new ≡ sets rows.old (slot * 4) (kind ∷ offset ∷ n ∷ 1 ∷ []) }
{
    put_row(rows, slot, kind, narrow(offset), narrow(n), 1);
    read(next, 1, n)
}

pub fn string(
    types: &[u32],
    names: &[u8],
    s: &[u8],
    rows: &mut [u32],
    pool: &mut [u8],
    row: usize,
    place: usize,
    slot: usize,
    offset: usize,
) -> Result<Taken, Refusal>
    requires { (length s.now ≤ 65536) × (place ≤ 65536) × (slot ≤ 2 ^ 60) }
    ensures { LeafRead tok.String types names s row place slot offset result rows pool }
{
    let kind = kind_of(types, row);
    match kind {
        Row::ENUMERATED => item(types, names, s, rows, row, place, slot),
        Row::OCTET_STRING => match octets_at(types, s, pool, row, place, offset) {
            None => refused(Cause::BadString, place),
            Some(n) => bytes(rows, slot, kind, offset, n, string_end(s, place + 1)),
        },
        Row::UTF8_STRING => {
            let c = copy(s, place + 1, pool, wide(narrow(offset)));
            bytes(rows, slot, kind, offset, c.count, string_end(s, c.from))
        }
        _ => refused(Cause::OtherKind, place),
    }
}
