// The call that reads: a type table and a text judged, the value measured, and stored in the rows and the pool that are lent.
#![tactic(auto)]

pub mod each; // each.rt: many texts under one type table

ghost use Rattle.std.specs.Prelude.{◌≡◌, Ok};
ghost use Rattle.jer.specs.CallClauses.{TableCall, TextCall, ReadCall};
ghost use Rattle.jer.specs.Table.{table};

use held::outermost;
use jer::{Counts, Refusal};
use typed::cycle::value;

// Reads the text by the type table into the lent rows and pool; a refusal leaves both as they were.
pub fn read(
    types: &[u32],
    names: &[u8],
    s: &[u8],
    rows: &mut [u32],
    pool: &mut [u8],
) -> Result<Counts, Refusal>
    ensures { ReadCall (table types.now names.now) s.now rows.old pool.old result rows.new pool.new }
{
    types::check(types, names)?;
    read_good(types, names, s, rows, pool)
}

// The same with a good type table.
fn read_good(
    types: &[u32],
    names: &[u8],
    s: &[u8],
    rows: &mut [u32],
    pool: &mut [u8],
) -> Result<Counts, Refusal>
    requires { TableCall (table types.now names.now) (Ok tt) }
    ensures { ReadCall (table types.now names.now) s.now rows.old pool.old result rows.new pool.new }
{
    match quick::read::read(types, names, s, rows, pool) {
        Some(answer) => answer,
        None => generally(types, names, s, rows, pool),
    }
}

// Whatever the text is: judged, measured and stored, or refused.
fn generally(
    types: &[u32],
    names: &[u8],
    s: &[u8],
    rows: &mut [u32],
    pool: &mut [u8],
) -> Result<Counts, Refusal>
    requires { TableCall (table types.now names.now) (Ok tt) }
    ensures { ReadCall (table types.now names.now) s.now rows.old pool.old result rows.new pool.new }
{
    text::check(s)?;
    measured(types, names, s, rows, pool)
}

// The typed reading, run twice: it measures over no room, and stores once the room is known to be enough.
fn measured(
    types: &[u32],
    names: &[u8],
    s: &[u8],
    rows: &mut [u32],
    pool: &mut [u8],
) -> Result<Counts, Refusal>
    requires { TableCall (table types.now names.now) (Ok tt) × TextCall s.now (Ok tt) }
    ensures { ReadCall (table types.now names.now) s.now rows.old pool.old result rows.new pool.new }
{
    let p = outermost(s);
    let whole = value(
        types,
        names,
        s,
        &mut [0],
        &mut [0],
        0,
        p,
        0,
        0,
        json_text::BRACKETS,
    )?;
    let counts = Counts {
        rows: whole.rows,
        pool: whole.pool,
    };
    if rows.len() < counts.rows * 4 {
        return Err(counts.needed());
    }
    if pool.len() < counts.pool {
        return Err(counts.needed());
    }
    let _ = value(types, names, s, rows, pool, 0, p, 0, 0, json_text::BRACKETS);
    Ok(counts)
}
