// Words noted on the tape.
ghost use Rattle.std.specs.Prelude.{◌≡◌, List, ℕ, ◌+◌, ◌≤◌, ◌<◌, length, get_or, IfSome};
ghost use Rattle.std.specs.Int.Count.{ones};
ghost use Rattle.jer.specs.Table.{count_of, table};
ghost use Rattle.quick.specs.Tape.{Alike, headed};
ghost use Rattle.quick.specs.Taken.{Headed, Given, Walked, Shuts, Shut};

use crate::Got;
use crate::bare::leaf;
use crate::member::complete;
use crate::source::Source;
use scan::met::ones;
use types::row::{count_of, wide};

// A value without parts: its two words from `top` on.
pub fn note(
    source: &Source,
    tape: &mut [u32],
    memo: &mut [u8; 1024],
    row: usize,
    place: usize,
    top: usize,
) -> Option<Got>
    requires { Given (table source.now.types.now source.now.names.now) tape.old row place top }
    ensures { (d : ℕ) → Walked (table source.now.types.now source.now.names.now) source.now.s.now tape.old tape.new d row place top result }
{
    if tape.len() < top + 2 {
        return None;
    }
    let w = leaf(source, memo, row, place)?;
    tape[top] = w.a;
    tape[top + 1] = w.b;
    Some(Got {
        next: w.next,
        tape: top + 2,
        rows: 1,
        pool: w.pool,
    })
}

// The header at `top` of a bracket whose number is a and whose n rows of parts end at `end`; its closing bracket stands at `place`.
pub fn head(
    tape: &mut [u32],
    top: usize,
    a: u32,
    n: usize,
    pool: usize,
    end: usize,
    next: usize,
) -> Got
    requires { (top + 3 ≤ length tape.old) × (n ≤ 1048576) × (end ≤ 1048576) }
    ensures tape_after { tape.new ≡ headed tape.old top a (n + 1) end }
    ensures headed { Headed n pool end next result }
{
    tape[top] = a;
    tape[top + 1] = (n + 1) as u32;
    tape[top + 2] = end as u32;
    Got {
        next,
        tape: end,
        rows: n + 1,
        pool,
    }
}

// No member is met yet: the links from `from` on are 0. No value of a member stands at 0, where the header of the whole one is.
pub fn clear(tape: &mut [u32], from: usize, count: u32)
    requires { from + count ≤ length tape.old }
    ensures alike { Alike tape.old tape.new 0 from }
    ensures by_index { (i : ℕ) → i < count → get_or tape.new (from + i) 0 ≡ 0 }
{
    tape[from..from + wide(count)].fill(0);
}

// The header at `top` of a SEQUENCE, if every member that was not met may be missing; n rows are those of the members present.
pub fn shut(
    types: &[u32],
    tape: &mut [u32],
    row: usize,
    top: usize,
    met: u64,
    present: u64,
    n: usize,
    pool: usize,
    end: usize,
    next: usize,
) -> Option<Got>
    requires { ((ns : List ℕ) → Shuts (table types.now ns) row present n) × (top + 3 ≤ length tape.old) × (end ≤ 1048576) }
    ensures alike { Alike tape.old tape.new 0 top }
    ensures shut { IfSome result (λ g. (ns : List ℕ) → Shut (table types.now ns) row tape.old tape.new top met present n pool end next g) }
{
    if !complete(types, row, met) {
        return None;
    }
    let a = ones(present);
    let absent = count_of(types, row) - a;
    Some(head(tape, top, a, n + wide(absent), pool, end, next))
}
