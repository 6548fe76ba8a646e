// The walk over the text, which notes the value on the tape. `depth` brackets may be open in a value.
ghost use Rattle.std.specs.Prelude.{◌≡◌, ◌+◌, ◌≤◌, length, true, false, IfSome};
ghost use Rattle.jer.specs.Table.{kind_of, is_array, is_unwrapped, count_of, SEQUENCE, SEQUENCE-OF, CHOICE, table};
ghost use Rattle.quick.specs.Tape.{Alike};
ghost use Rattle.quick.specs.Taken.{Given, Walked, Stepped, Came};

use crate::Got;
use crate::member::{absent_at, missing_at};
use crate::name::name_at;
use crate::note::{clear, head, note, shut};
use crate::source::Source;
use crate::step::Step;
use scan::met::{bit, with};
use scan::parts::token_at;
use slices::byte_at;
use spelled::skip::skip;
use spelled::space::space;
use spelled::word::literal;
use types::row::{Row, count_of, element_of, kind_of, type_at, wide};
use types::token::alternative;

// The value of the type at `row` from the place on, noted on the tape from `top` on.
#[cycle(array_bracket_choice_element_list_member_object_picked_plain_sequence_value)]
pub fn value(
    source: &Source,
    tape: &mut [u32],
    memo: &mut [u8; 1024],
    row: usize,
    place: usize,
    top: usize,
    depth: u32,
) -> Option<Got>
    requires { Given (table source.now.types.now source.now.names.now) tape.old row place top }
    ensures { Walked (table source.now.types.now source.now.names.now) source.now.s.now tape.old tape.new depth row place top result }
{
    if kind_of(source.types, row) < Row::SEQUENCE {
        return note(source, tape, memo, row, place, top);
    }
    if Row::at(source.types, row).is_unwrapped() {
        return picked(source, tape, memo, row, place, top, depth);
    }
    bracket(source, tape, memo, row, place, top, depth)
}

// UNWRAPPED: the token picks the alternative.
#[cycle(array_bracket_choice_element_list_member_object_picked_plain_sequence_value)]
fn picked(
    source: &Source,
    tape: &mut [u32],
    memo: &mut [u8; 1024],
    row: usize,
    place: usize,
    top: usize,
    depth: u32,
) -> Option<Got>
    requires given { Given (table source.now.types.now source.now.names.now) tape.old row place top }
    requires row_value { is_unwrapped (table source.now.types.now source.now.names.now) row ≡ true }
    ensures { Walked (table source.now.types.now source.now.names.now) source.now.s.now tape.old tape.new depth row place top result }
{
    if tape.len() < top + 3 {
        return None;
    }
    let k = alternative(source.types, row, token_at(source.s, place))?;
    let g = plain(
        source,
        tape,
        memo,
        type_at(source.types, row, k),
        place,
        top + 3,
        depth,
    )?;
    Some(head(tape, top, k, g.rows, g.pool, g.tape, g.next))
}

// A value of a type that is not UNWRAPPED. Not within `value`: an UNWRAPPED choice picks such a value, and opens no bracket.
#[cycle(array_bracket_choice_element_list_member_object_picked_plain_sequence_value)]
fn plain(
    source: &Source,
    tape: &mut [u32],
    memo: &mut [u8; 1024],
    row: usize,
    place: usize,
    top: usize,
    depth: u32,
) -> Option<Got>
    requires given { Given (table source.now.types.now source.now.names.now) tape.old row place top }
    requires row_value { is_unwrapped (table source.now.types.now source.now.names.now) row ≡ false }
    ensures { Walked (table source.now.types.now source.now.names.now) source.now.s.now tape.old tape.new depth row place top result }
{
    if kind_of(source.types, row) < Row::SEQUENCE {
        return note(source, tape, memo, row, place, top);
    }
    bracket(source, tape, memo, row, place, top, depth)
}

// A bracket, by its type.
#[cycle(array_bracket_choice_element_list_member_object_picked_plain_sequence_value)]
fn bracket(
    source: &Source,
    tape: &mut [u32],
    memo: &mut [u8; 1024],
    row: usize,
    place: usize,
    top: usize,
    depth: u32,
) -> Option<Got>
    requires given { Given (table source.now.types.now source.now.names.now) tape.old row place top }
    requires row_value { is_unwrapped (table source.now.types.now source.now.names.now) row ≡ false }
    ensures { Walked (table source.now.types.now source.now.names.now) source.now.s.now tape.old tape.new depth row place top result }
{
    if depth == 0 {
        return None;
    }
    if tape.len() < top + 3 {
        return None;
    }
    match kind_of(source.types, row) {
        Row::SEQUENCE => sequence(source, tape, memo, row, place, top, depth - 1),
        Row::SEQUENCE_OF => list(source, tape, memo, row, place, top, depth - 1),
        Row::CHOICE => choice(source, tape, memo, row, place, top, depth - 1),
        _ => None,
    }
}

// SEQUENCE OF; `depth` brackets may be open in an item. A loop: an item ends where its walk ended.
#[cycle(array_bracket_choice_element_list_member_object_picked_plain_sequence_value)]
fn list(
    source: &Source,
    tape: &mut [u32],
    memo: &mut [u8; 1024],
    row: usize,
    place: usize,
    top: usize,
    depth: u32,
) -> Option<Got>
    requires given { Given (table source.now.types.now source.now.names.now) tape.old row place top }
    requires top_in_bounds { (top + 3 ≤ length tape.old) × (kind_of (table source.now.types.now source.now.names.now) row ≡ SEQUENCE-OF) }
    ensures { Walked (table source.now.types.now source.now.names.now) source.now.s.now tape.old tape.new (depth + 1) row place top result }
{
    if byte_at(source.s, place) != 0x5B {
        return None;
    }
    let element = element_of(source.types, row);
    let mut at = space(source.s, place + 1);
    if byte_at(source.s, at) == 0x5D {
        return Some(head(tape, top, 0, 0, 0, top + 3, at + 1));
    }
    let mut end = top + 3;
    let mut count: u32 = 0;
    let mut n: usize = 0;
    let mut m: usize = 0;
    loop {
        if source.s.len() < at {
            return None;
        }
        let g = value(source, tape, memo, element, at, end, depth)?;
        let c = space(source.s, g.next);
        let b = byte_at(source.s, c);
        if b == 0x5D {
            return Some(head(tape, top, count + 1, n + g.rows, m + g.pool, g.tape, c + 1));
        }
        if b != 0x2C {
            return None;
        }
        at = space(source.s, c + 1);
        end = g.tape;
        count += 1;
        n += g.rows;
        m += g.pool;
    }
}

// SEQUENCE; `depth` brackets may be open in a member.
#[cycle(array_bracket_choice_element_list_member_object_picked_plain_sequence_value)]
fn sequence(
    source: &Source,
    tape: &mut [u32],
    memo: &mut [u8; 1024],
    row: usize,
    place: usize,
    top: usize,
    depth: u32,
) -> Option<Got>
    requires given { Given (table source.now.types.now source.now.names.now) tape.old row place top }
    requires row_value { kind_of (table source.now.types.now source.now.names.now) row ≡ SEQUENCE }
    ensures { Walked (table source.now.types.now source.now.names.now) source.now.s.now tape.old tape.new (depth + 1) row place top result }
{
    if Row::at(source.types, row).is_array() {
        return array(source, tape, memo, row, place, top, depth);
    }
    object(source, tape, memo, row, place, top, depth)
}

// SEQUENCE as an object; `depth` brackets may be open in a member. A loop: a member ends where its walk ended.
#[cycle(array_bracket_choice_element_list_member_object_picked_plain_sequence_value)]
fn object(
    source: &Source,
    tape: &mut [u32],
    memo: &mut [u8; 1024],
    row: usize,
    place: usize,
    top: usize,
    depth: u32,
) -> Option<Got>
    requires given { Given (table source.now.types.now source.now.names.now) tape.old row place top }
    requires row_value { (kind_of (table source.now.types.now source.now.names.now) row ≡ SEQUENCE) × (is_array (table source.now.types.now source.now.names.now) row ≡ false) }
    ensures { Walked (table source.now.types.now source.now.names.now) source.now.s.now tape.old tape.new (depth + 1) row place top result }
{
    if byte_at(source.s, place) != 0x7B {
        return None;
    }
    let count = count_of(source.types, row);
    let mut end = top + 3 + wide(count);
    if tape.len() < end {
        return None;
    }
    clear(tape, top + 3, count);
    let mut at = space(source.s, place + 1);
    if byte_at(source.s, at) == 0x7D {
        return shut(source.types, tape, row, top, 0, 0, 0, 0, end, at + 1);
    }
    let mut met: u64 = 0;
    let mut present: u64 = 0;
    let mut due: u32 = 0;
    let mut n: usize = 0;
    let mut m: usize = 0;
    loop {
        let g = member(
            source, tape, memo, row, at, top, end, met, present, due, depth,
        )?;
        let c = space(source.s, g.next);
        let b = byte_at(source.s, c);
        if b == 0x7D {
            return shut(
                source.types,
                tape,
                row,
                top,
                g.met,
                g.present,
                n + g.rows,
                m + g.pool,
                g.tape,
                c + 1,
            );
        }
        if b != 0x2C {
            return None;
        }
        at = space(source.s, c + 1);
        end = g.tape;
        met = g.met;
        present = g.present;
        due = g.due;
        n += g.rows;
        m += g.pool;
    }
}

// The member whose name stands at the place, of the object whose header is at `top`: its value is noted from `end` on, and linked.
#[cycle(array_bracket_choice_element_list_member_object_picked_plain_sequence_value)]
fn member(
    source: &Source,
    tape: &mut [u32],
    memo: &mut [u8; 1024],
    row: usize,
    place: usize,
    top: usize,
    end: usize,
    met: u64,
    present: u64,
    due: u32,
    depth: u32,
) -> Option<Step>
    requires given { Given (table source.now.types.now source.now.names.now) tape.old row place end }
    requires row_bound { (top + 3 + count_of (table source.now.types.now source.now.names.now) row ≤ end) × (end ≤ length tape.old) }
    ensures alike { Alike tape.old tape.new 0 (top + 3) }
    ensures stepped { IfSome result (λ g. Stepped (table source.now.types.now source.now.names.now) source.now.s.now tape.old tape.new depth row place top end met present g) }
{
    let name = name_at(source, memo, row, due, place)?;
    let at = space(source.s, name.next);
    let Some(k) = name.position else {
        if !Row::at(source.types, row).extensible() {
            return None;
        }
        return Some(Step {
            next: skip(source.s, at, source.flags, depth)?,
            tape: end,
            rows: 0,
            pool: 0,
            met,
            present,
            due,
        });
    };
    if bit(met, k) {
        return None;
    }
    if absent_at(source.types, source.s, row, k, at) {
        return Some(Step {
            next: literal(source.s, at, b"null")?,
            tape: end,
            rows: 0,
            pool: 0,
            met: with(met, k),
            present,
            due: k + 1,
        });
    }
    let m = type_at(source.types, row, k);
    let g = value(source, tape, memo, m, at, end, depth)?;
    tape[top + 3 + wide(k)] = end as u32;
    Some(Step {
        next: g.next,
        tape: g.tape,
        rows: g.rows,
        pool: g.pool,
        met: with(met, k),
        present: with(present, k),
        due: k + 1,
    })
}

// CHOICE as an object of one member; `depth` brackets may be open in its value.
#[cycle(array_bracket_choice_element_list_member_object_picked_plain_sequence_value)]
fn choice(
    source: &Source,
    tape: &mut [u32],
    memo: &mut [u8; 1024],
    row: usize,
    place: usize,
    top: usize,
    depth: u32,
) -> Option<Got>
    requires given { Given (table source.now.types.now source.now.names.now) tape.old row place top }
    requires top_in_bounds { (top + 3 ≤ length tape.old) × (kind_of (table source.now.types.now source.now.names.now) row ≡ CHOICE) × (is_unwrapped (table source.now.types.now source.now.names.now) row ≡ false) }
    ensures { Walked (table source.now.types.now source.now.names.now) source.now.s.now tape.old tape.new (depth + 1) row place top result }
{
    if byte_at(source.s, place) != 0x7B {
        return None;
    }
    let name = name_at(source, memo, row, 0, space(source.s, place + 1))?;
    let k = name.position?;
    let at = space(source.s, name.next);
    let g = value(
        source,
        tape,
        memo,
        type_at(source.types, row, k),
        at,
        top + 3,
        depth,
    )?;
    let c = space(source.s, g.next);
    if byte_at(source.s, c) != 0x7D {
        return None;
    }
    Some(head(tape, top, k, g.rows, g.pool, g.tape, c + 1))
}

// SEQUENCE as an array; `depth` brackets may be open in an element. A loop: an element ends where its walk ended.
// Not one with `object`: an element has a position, no name, no memo and no member that is due.
#[cycle(array_bracket_choice_element_list_member_object_picked_plain_sequence_value)]
fn array(
    source: &Source,
    tape: &mut [u32],
    memo: &mut [u8; 1024],
    row: usize,
    place: usize,
    top: usize,
    depth: u32,
) -> Option<Got>
    requires given { Given (table source.now.types.now source.now.names.now) tape.old row place top }
    requires row_value { (kind_of (table source.now.types.now source.now.names.now) row ≡ SEQUENCE) × (is_array (table source.now.types.now source.now.names.now) row ≡ true) }
    ensures { Walked (table source.now.types.now source.now.names.now) source.now.s.now tape.old tape.new (depth + 1) row place top result }
{
    if byte_at(source.s, place) != 0x5B {
        return None;
    }
    let count = count_of(source.types, row);
    let mut end = top + 3 + wide(count);
    if tape.len() < end {
        return None;
    }
    clear(tape, top + 3, count);
    let mut at = space(source.s, place + 1);
    if byte_at(source.s, at) == 0x5D {
        return shut(source.types, tape, row, top, 0, 0, 0, 0, end, at + 1);
    }
    let mut k: u32 = 0;
    let mut met: u64 = 0;
    let mut present: u64 = 0;
    let mut n: usize = 0;
    let mut m: usize = 0;
    loop {
        let g = element(
            source, tape, memo, row, at, top, end, k, met, present, depth,
        )?;
        let c = space(source.s, g.next);
        let b = byte_at(source.s, c);
        if b == 0x5D {
            return shut(
                source.types,
                tape,
                row,
                top,
                g.met,
                g.present,
                n + g.rows,
                m + g.pool,
                g.tape,
                c + 1,
            );
        }
        if b != 0x2C {
            return None;
        }
        at = space(source.s, c + 1);
        end = g.tape;
        k += 1;
        met = g.met;
        present = g.present;
        n += g.rows;
        m += g.pool;
    }
}

// The element at the place, for the member at k of the ARRAY whose header is at `top`: its value is noted from `end` on, and linked.
#[cycle(array_bracket_choice_element_list_member_object_picked_plain_sequence_value)]
fn element(
    source: &Source,
    tape: &mut [u32],
    memo: &mut [u8; 1024],
    row: usize,
    place: usize,
    top: usize,
    end: usize,
    k: u32,
    met: u64,
    present: u64,
    depth: u32,
) -> Option<Step>
    requires given { Given (table source.now.types.now source.now.names.now) tape.old row place end }
    requires row_bound { (top + 3 + count_of (table source.now.types.now source.now.names.now) row ≤ end) × (end ≤ length tape.old) }
    ensures alike { Alike tape.old tape.new 0 (top + 3) }
    ensures came { IfSome result (λ g. Came (table source.now.types.now source.now.names.now) source.now.s.now tape.old tape.new depth row place top end k met present g) }
{
    if count_of(source.types, row) <= k {
        if !Row::at(source.types, row).extensible() {
            return None;
        }
        return Some(Step {
            next: skip(source.s, place, source.flags, depth)?,
            tape: end,
            rows: 0,
            pool: 0,
            met,
            present,
            due: 0,
        });
    }
    if missing_at(source.types, source.s, row, k, place) {
        return Some(Step {
            next: literal(source.s, place, b"null")?,
            tape: end,
            rows: 0,
            pool: 0,
            met: with(met, k),
            present,
            due: 0,
        });
    }
    let m = type_at(source.types, row, k);
    let g = value(source, tape, memo, m, place, end, depth)?;
    tape[top + 3 + wide(k)] = end as u32;
    Some(Step {
        next: g.next,
        tape: g.tape,
        rows: g.rows,
        pool: g.pool,
        met: with(met, k),
        present: with(present, k),
        due: 0,
    })
}
