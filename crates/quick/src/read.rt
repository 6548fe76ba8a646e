// The call that reads, where the quick way takes the text.
ghost use Rattle.std.specs.Prelude.{◌≤◌, length, Ok};
ghost use Rattle.jer.specs.CallClauses.{TableCall};
ghost use Rattle.jer.specs.Table.{table};
ghost use Rattle.quick.specs.Replied.{Replied};

use crate::emit::emit;
use crate::source::Source;
use crate::take::take;
use jer::{Counts, Refusal};
use json_text::TEXT;
use spelled::plain::Flags;

// Reads the text by the type table, which is good, into the lent rows and pool. With no answer the general way is to read the text, and
// the buffers are as they were.
pub fn read(
    types: &[u32],
    names: &[u8],
    s: &[u8],
    rows: &mut [u32],
    pool: &mut [u8],
) -> Option<Result<Counts, Refusal>>
    requires { TableCall (table types.now names.now) (Ok tt) }
    ensures { Replied (table types.now names.now) s.now rows.old pool.old result rows.new pool.new }
{
    if TEXT < s.len() {
        return None;
    }
    let source = &Source {
        types,
        names,
        s,
        flags: &Flags::new(),
    };
    if s.len() <= 1024 {
        return over_tape::<1024>(source, rows, pool);
    }
    if s.len() <= 8192 {
        return over_tape::<4096>(source, rows, pool);
    }
    over_tape::<24000>(source, rows, pool)
}

// Over a tape of N words.
fn over_tape<const N: usize>(
    source: &Source,
    rows: &mut [u32],
    pool: &mut [u8],
) -> Option<Result<Counts, Refusal>>
    requires { TableCall (table source.now.types.now source.now.names.now) (Ok tt) × (N ≤ 1048576) }
    ensures { Replied (table source.now.types.now source.now.names.now) source.now.s.now rows.old pool.old result rows.new pool.new }
{
    let mut tape = [0u32; N];
    over(source, &mut tape, rows, pool)
}

// Over a tape that is lent.
fn over(
    source: &Source,
    tape: &mut [u32],
    rows: &mut [u32],
    pool: &mut [u8],
) -> Option<Result<Counts, Refusal>>
    requires { TableCall (table source.now.types.now source.now.names.now) (Ok tt) × (length tape.old ≤ 1048576) }
    ensures { Replied (table source.now.types.now source.now.names.now) source.now.s.now rows.old pool.old result rows.new pool.new }
{
    let mut memo = [0u8; 1024];
    let g = take(source, tape, &mut memo)?;
    let counts = Counts {
        rows: g.rows,
        pool: g.pool,
    };
    if rows.len() < counts.rows * 4 || pool.len() < counts.pool {
        return Some(Err(counts.needed()));
    }
    emit(source.types, source.s, tape, rows, pool, 0, 0, 0, 0);
    Some(Ok(counts))
}
