// The readers that call one another: each reads the value of the type at `row` from a place of the text on, and stores it from a slot of
// the rows and an offset of the pool on; so many brackets may be open in it (`depth`).
ghost use Rattle.std.specs.Prelude.{◌≡◌, ◌+◌, ◌-◌, ◌≤◌, ◌<◌, length};
ghost use Rattle.jer.specs.Table.{kind_of, SEQUENCE, SEQUENCE-OF, CHOICE, table};
ghost use Rattle.places.specs.ByPlaces.{token_at, read_at};
ghost use Rattle.typed.specs.Cycle.{Given, limit, counted, by_token, list, array, object, members, choice, ReadsAs};

use crate::close::{bounded, close};
use crate::members::{element_found, member_found, one_at, surplus, unknown};
use jer::{Cause, Refusal, Token};
use leaf::missing::missing;
use leaf::store::{narrow, put_row};
use leaf::{Taken, leaf, refused};
use places::{Element, Follows, Member, Scanned};
use scan::met::{bit, ones, with};
use scan::names::{position, value_place};
use scan::parts::{after_part, first_part, token_at};
use scan::scan;
use tokens::cursor::Cursor;
use types::row::{Row, count_of, element_of, type_at, wide};
use types::token::alternative;

#[cycle(array_choice_each_member_list_object_plain_value)]
pub fn value(
    types: &[u32],
    names: &[u8],
    s: &[u8],
    rows: &mut [u32],
    pool: &mut [u8],
    row: usize,
    place: usize,
    slot: usize,
    offset: usize,
    depth: u32,
) -> Result<Taken, Refusal>
    requires { Given (table types.now names.now) s.now row place (slot + 1) offset depth }
    ensures { ReadsAs read_at types names s row place slot offset depth result rows pool }
{
    let token = token_at(s, place);
    if !Row::at(types, row).is_unwrapped() {
        return plain(
            types, names, s, rows, pool, row, token, place, slot, offset, depth,
        );
    }
    match alternative(types, row, token) {
        None => unknown(types, row, place, Cause::OtherKind, place),
        Some(k) => {
            let m = type_at(types, row, k);
            let one = plain(
                types,
                names,
                s,
                rows,
                pool,
                m,
                token,
                place,
                slot + 1,
                offset,
                depth,
            )?;
            close(rows, slot, Row::CHOICE, k, one.rows, one.pool, one.next)
        }
    }
}

// A type that is not UNWRAPPED, by the token at the place. The row is read in the two arms that need it, for speed: a leaf reads its own.
#[cycle(array_choice_each_member_list_object_plain_value)]
fn plain(
    types: &[u32],
    names: &[u8],
    s: &[u8],
    rows: &mut [u32],
    pool: &mut [u8],
    row: usize,
    token: Token,
    place: usize,
    slot: usize,
    offset: usize,
    depth: u32,
) -> Result<Taken, Refusal>
    requires given { Given (table types.now names.now) s.now row place slot offset depth }
    requires token_value { token ≡ token_at s.now place }
    ensures { ReadsAs (counted by_token) types names s row place slot offset depth result rows pool }
{
    match token {
        Token::Array => {
            if depth == 0 {
                return refused(Cause::TooDeep, place);
            }
            let w = Row::at(types, row);
            if w.kind == Row::SEQUENCE_OF {
                return list(types, names, s, rows, pool, row, place, slot, offset, depth);
            }
            if w.is_array() {
                return array(types, names, s, rows, pool, row, place, slot, offset, depth);
            }
            refused(Cause::OtherKind, place)
        }
        Token::Object => {
            if depth == 0 {
                return refused(Cause::TooDeep, place);
            }
            let w = Row::at(types, row);
            if w.kind == Row::CHOICE {
                return choice(types, names, s, rows, pool, row, place, slot, offset, depth);
            }
            if (w.kind == Row::SEQUENCE) & !w.is_array() {
                return object(types, names, s, rows, pool, row, place, slot, offset, depth);
            }
            refused(Cause::OtherKind, place)
        }
        _ => bounded(leaf(types, names, s, rows, pool, row, token, place, slot, offset)?),
    }
}

// SEQUENCE OF. A text has no more items than bytes.
#[cycle(array_choice_each_member_list_object_plain_value)]
fn list(
    types: &[u32],
    names: &[u8],
    s: &[u8],
    rows: &mut [u32],
    pool: &mut [u8],
    row: usize,
    place: usize,
    slot: usize,
    offset: usize,
    depth: u32,
) -> Result<Taken, Refusal>
    requires given { Given (table types.now names.now) s.now row place slot offset depth }
    requires place_in_bounds { (place < length s.now) × (0 < depth) × (kind_of (table types.now names.now) row ≡ SEQUENCE-OF) }
    ensures { ReadsAs (counted list) types names s row place slot offset depth result rows pool }
{
    let t = element_of(types, row);
    let mut next = first_part(s, 0x5D, place);
    let mut count: usize = 0;
    let mut n: usize = 0;
    let mut m: usize = 0;
    // An item ends where its reading does: the step varies.
    loop {
        match next {
            Follows::Shut(q) => {
                return close(rows, slot, Row::SEQUENCE_OF, narrow(count), n, m, q);
            }
            Follows::Part(q) => {
                if s.len() <= count {
                    return close(rows, slot, Row::SEQUENCE_OF, narrow(count), n, m, q);
                }
                let item = value(
                    types,
                    names,
                    s,
                    rows,
                    pool,
                    t,
                    q,
                    slot + 1 + n,
                    offset + m,
                    depth - 1,
                )?;
                next = after_part(s, item.next);
                count += 1;
                n += item.rows;
                m += item.pool;
            }
        }
    }
}

// A SEQUENCE as an array: its elements in table order, then what is surplus.
#[cycle(array_choice_each_member_list_object_plain_value)]
fn array(
    types: &[u32],
    names: &[u8],
    s: &[u8],
    rows: &mut [u32],
    pool: &mut [u8],
    row: usize,
    place: usize,
    slot: usize,
    offset: usize,
    depth: u32,
) -> Result<Taken, Refusal>
    requires given { Given (table types.now names.now) s.now row place slot offset depth }
    requires place_in_bounds { (place < length s.now) × (0 < depth) × (kind_of (table types.now names.now) row ≡ SEQUENCE) }
    ensures { ReadsAs (counted array) types names s row place slot offset depth result rows pool }
{
    let count = count_of(types, row);
    let mut next = first_part(s, 0x5D, place);
    let mut present: u64 = 0;
    let mut n: usize = 0;
    let mut m: usize = 0;
    for k in 0..count {
        match element_found(types, s, row, k, next) {
            Element::Absent(f) => {
                put_row(rows, slot + 1 + n, Row::ABSENT, 0, 0, 1);
                next = f;
                n += 1;
            }
            Element::Missing(q) => {
                let null = missing(types, rows, row, k, place, q, slot + 1 + n)?;
                present = with(present, k);
                n += null.rows;
                m += null.pool;
            }
            Element::There(q) => {
                let t = type_at(types, row, k);
                let element = value(
                    types,
                    names,
                    s,
                    rows,
                    pool,
                    t,
                    q,
                    slot + 1 + n,
                    offset + m,
                    depth - 1,
                )?;
                next = after_part(s, element.next);
                present = with(present, k);
                n += element.rows;
                m += element.pool;
            }
        }
    }
    let end = surplus(types, s, row, next, depth)?;
    close(rows, slot, Row::SEQUENCE, ones(present), n, m, end)
}

// A SEQUENCE as an object: its names in text order, then its members.
#[cycle(array_choice_each_member_list_object_plain_value)]
fn object(
    types: &[u32],
    names: &[u8],
    s: &[u8],
    rows: &mut [u32],
    pool: &mut [u8],
    row: usize,
    place: usize,
    slot: usize,
    offset: usize,
    depth: u32,
) -> Result<Taken, Refusal>
    requires given { Given (table types.now names.now) s.now row place slot offset depth }
    requires place_in_bounds { (place < length s.now) × (0 < depth) × (kind_of (table types.now names.now) row ≡ SEQUENCE) }
    ensures { ReadsAs (counted object) types names s row place slot offset depth result rows pool }
{
    let found = scan(types, names, s, row, place, depth - 1)?;
    each_member(
        types, names, s, rows, pool, &found, row, place, slot, offset, depth,
    )
}

// The members of the object at the place, in table order, wherever their values stand.
#[cycle(array_choice_each_member_list_object_plain_value)]
fn each_member(
    types: &[u32],
    names: &[u8],
    s: &[u8],
    rows: &mut [u32],
    pool: &mut [u8],
    found: &Scanned,
    row: usize,
    place: usize,
    slot: usize,
    offset: usize,
    depth: u32,
) -> Result<Taken, Refusal>
    requires given { Given (table types.now names.now) s.now row place slot offset depth }
    requires depth_nonzero { (0 < depth) × (found.now.next ≤ limit place + depth) × (kind_of (table types.now names.now) row ≡ SEQUENCE) }
    ensures { ReadsAs (counted (members found.now)) types names s row place slot offset depth result rows pool }
{
    let count = count_of(types, row);
    let mut present: u64 = 0;
    let mut n: usize = 0;
    let mut m: usize = 0;
    for k in 0..count {
        let there = wide(found.places[wide(k)]);
        match member_found(types, s, row, k, bit(found.met, k), there) {
            Member::Missing => return refused(Cause::Missing(k), place),
            Member::Absent => {
                put_row(rows, slot + 1 + n, Row::ABSENT, 0, 0, 1);
                n += 1;
            }
            Member::There(q) => {
                let t = type_at(types, row, k);
                let member = value(
                    types,
                    names,
                    s,
                    rows,
                    pool,
                    t,
                    q,
                    slot + 1 + n,
                    offset + m,
                    depth - 1,
                )?;
                present = with(present, k);
                n += member.rows;
                m += member.pool;
            }
        }
    }
    close(rows, slot, Row::SEQUENCE, ones(present), n, m, found.next)
}

// A wrapped CHOICE: an object of exactly one member.
#[cycle(array_choice_each_member_list_object_plain_value)]
fn choice(
    types: &[u32],
    names: &[u8],
    s: &[u8],
    rows: &mut [u32],
    pool: &mut [u8],
    row: usize,
    place: usize,
    slot: usize,
    offset: usize,
    depth: u32,
) -> Result<Taken, Refusal>
    requires given { Given (table types.now names.now) s.now row place slot offset depth }
    requires place_in_bounds { (place < length s.now) × (0 < depth) × (kind_of (table types.now names.now) row ≡ CHOICE) }
    ensures { ReadsAs (counted choice) types names s row place slot offset depth result rows pool }
{
    let Some(q) = one_at(s, place, depth - 1) else {
        return refused(Cause::NotOne, place);
    };
    let Some(k) = position(types, names, s, row, q) else {
        return unknown(types, row, place, Cause::UnknownName, q);
    };
    let t = type_at(types, row, k);
    let at = value_place(s, q);
    let one = value(
        types,
        names,
        s,
        rows,
        pool,
        t,
        at,
        slot + 1,
        offset,
        depth - 1,
    )?;
    let end = Cursor { at: one.next };
    let c = end.skip_space(s).advance(1);
    close(rows, slot, Row::CHOICE, k, one.rows, one.pool, c.at)
}
