// The walk over the tape, which stores rows and pool.
ghost use Rattle.std.specs.Prelude.{List, ℕ, ◌+◌, ◌≤◌, ◌<◌, length};
ghost use Rattle.jer.specs.Table.{kind_of, table};
ghost use Rattle.quick.specs.Emit.{Sizes, Noted, NotedItems, NotedParts, Emits, Pours, EmitsParts, Passes, InPool};

use crate::bare::ESCAPED;
use crate::store::{put_row, put_text};
use leaf::strings::octets_at;
use spelled::put::{put_base64, put_hex};
use types::row::{Row, count_of, element_of, kind_of, type_at, wide};

// Where a value ends on the tape, and how many rows it has.
#[derive(Clone, Copy)]
pub struct Node {
    pub end: usize,
    pub rows: usize,
}

// The value of the type at `row` that stands from `top` on.
fn node_at(types: &[u32], tape: &[u32], row: usize, top: usize) -> Node
    requires { (top + 2 ≤ length tape.now) × ((ns : List ℕ) → 6 ≤ kind_of (table types.now ns) row → top + 3 ≤ length tape.now) }
    ensures { Passes types.now tape.now row top result.end result.rows }
{
    if kind_of(types, row) < Row::SEQUENCE {
        return Node {
            end: top + 2,
            rows: 1,
        };
    }
    Node {
        end: wide(tape[top + 2]),
        rows: wide(tape[top + 1]),
    }
}

// A value whose bytes stand in the pool.
fn string(
    types: &[u32],
    s: &[u8],
    tape: &[u32],
    rows: &mut [u32],
    pool: &mut [u8],
    row: usize,
    top: usize,
    slot: usize,
    offset: usize,
) -> usize
    requires { Noted types.now s.now tape.now rows.old pool.old row top slot offset × Sizes s.now tape.now × InPool types.now row }
    ensures { Emits types.now s.now tape.now row top slot offset rows.old rows.new pool.old pool.new result }
{
    let w = Row::at(types, row);
    let a = tape[top];
    let b = tape[top + 1];
    if kind_of(types, row) == Row::UTF8_STRING {
        let n = b % ESCAPED;
        put_row(rows, slot, Row::UTF8_STRING, offset as u32, n, 1);
        put_text(s, pool, a, b, offset);
        return offset + wide(n);
    }
    if ESCAPED <= b {
        let n = b - ESCAPED;
        put_row(rows, slot, Row::OCTET_STRING, offset as u32, n, 1);
        octets_at(types, s, pool, row, wide(a), offset);
        return offset + wide(n);
    }
    if w.is_base64() {
        let n = b % 65536;
        put_row(rows, slot, Row::OCTET_STRING, offset as u32, n, 1);
        put_base64(s, wide(a) + 1, wide(b / 65536), pool, offset);
        return offset + wide(n);
    }
    put_row(rows, slot, Row::OCTET_STRING, offset as u32, b, 1);
    put_hex(s, wide(a) + 1, wide(b), pool, offset);
    offset + wide(b)
}

// Stores the value of the type at `row` that stands from `top` on, from the slot and the offset on; the offset after it.
// By `&Source` in place of table and text it took 2.4 % more instructions of a read of a list, by `Source` 3.6 %.
#[cycle(emit_items_parts)]
pub fn emit(
    types: &[u32],
    s: &[u8],
    tape: &[u32],
    rows: &mut [u32],
    pool: &mut [u8],
    row: usize,
    top: usize,
    slot: usize,
    offset: usize,
) -> usize
    requires { Noted types.now s.now tape.now rows.old pool.old row top slot offset × Sizes s.now tape.now }
    ensures { Emits types.now s.now tape.now row top slot offset rows.old rows.new pool.old pool.new result }
{
    let kind = kind_of(types, row);
    let a = tape[top];
    let b = tape[top + 1];
    if kind < Row::OCTET_STRING {
        put_row(rows, slot, kind, a, b, 1);
        return offset;
    }
    if kind < Row::SEQUENCE {
        return string(types, s, tape, rows, pool, row, top, slot, offset);
    }
    put_row(rows, slot, kind, a, 0, b);
    match kind {
        Row::SEQUENCE => parts(types, s, tape, rows, pool, row, top + 3, slot + 1, offset),
        Row::SEQUENCE_OF => {
            let end = wide(tape[top + 2]);
            items(
                types,
                s,
                tape,
                rows,
                pool,
                element_of(types, row),
                top + 3,
                end,
                slot + 1,
                offset,
            )
        }
        _ => emit(
            types,
            s,
            tape,
            rows,
            pool,
            type_at(types, row, a),
            top + 3,
            slot + 1,
            offset,
        ),
    }
}

// The items from `from` up to `end`. A loop: an item ends where its own walk ended.
#[cycle(emit_items_parts)]
fn items(
    types: &[u32],
    s: &[u8],
    tape: &[u32],
    rows: &mut [u32],
    pool: &mut [u8],
    row: usize,
    from: usize,
    end: usize,
    slot: usize,
    offset: usize,
) -> usize
    requires { NotedItems types.now s.now tape.now rows.old pool.old row from end slot offset × Sizes s.now tape.now }
    ensures { Pours types.now s.now tape.now row from end slot offset rows.old rows.new pool.old pool.new result }
{
    let mut at = from;
    let mut q = slot;
    let mut o = offset;
    while at < end {
        o = emit(types, s, tape, rows, pool, row, at, q, o);
        let g = node_at(types, tape, row, at);
        at = g.end;
        q += g.rows;
    }
    o
}

// The members of a SEQUENCE in table order, by the links from `from` on.
#[cycle(emit_items_parts)]
fn parts(
    types: &[u32],
    s: &[u8],
    tape: &[u32],
    rows: &mut [u32],
    pool: &mut [u8],
    row: usize,
    from: usize,
    slot: usize,
    offset: usize,
) -> usize
    requires { NotedParts types.now s.now tape.now rows.old pool.old row from slot offset × Sizes s.now tape.now × (0 < from) }
    ensures { EmitsParts types.now s.now tape.now row from slot offset rows.old rows.new pool.old pool.new result }
{
    let count = count_of(types, row);
    let mut q = slot;
    let mut o = offset;
    for k in 0..count {
        let w = wide(tape[from + wide(k)]);
        if w == 0 {
            put_row(rows, q, Row::ABSENT, 0, 0, 1);
            q += 1;
        } else {
            let m = type_at(types, row, k);
            o = emit(types, s, tape, rows, pool, m, w, q, o);
            let g = node_at(types, tape, m, w);
            q += g.rows;
        }
    }
    o
}
