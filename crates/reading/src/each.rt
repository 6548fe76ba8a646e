// Many texts under one type table, which is judged once. The texts stand one after another, and so do, in the lent room, their rows and their
// pool bytes; of each text five numbers are told.
// A C caller lends texts and ends, as `capi` has them: bytes and places, no slice of slices.
ghost use Rattle.std.specs.Prelude.{◌≡◌, ◌*◌, ◌^◌, ◌≤◌, length, Ok};
ghost use Rattle.std.proofs.lemmas.List.Edits.{sets};
ghost use Rattle.jer.specs.Reports.{reported_of};
ghost use Rattle.jer.specs.CallClauses.{TableCall};
ghost use Rattle.jer.specs.Table.{table};
ghost use Rattle.jer.specs.Each.{text_from, values_in, rows_used, pool_used, EachCall};
ghost use Rattle.slices.specs.Lent.{table_in};
ghost use Rattle.reading.specs.Run.{Ran, ReadFrom, told_of};

use crate::read_good;
use jer::{Counts, Refusal, Reported};
use slices::{part, put_all};

// The numbers told of a text: its answer's number and amounts, and where its rows and its pool bytes end.
const TOLD: usize = 5;

// The number that stands for no room: the number that is told decides, as in `Each.antt`.
const NO_ROOM: u32 = 14;

// The text from a place up to its end.
fn text_from(texts: &[u8], from: usize, end: usize) -> &[u8]
    ensures { result.now ≡ text_from texts.now from end }
{
    if end < from {
        return part(texts, from, 0);
    }
    part(texts, from, end - from)
}

// An answer by its number and amounts.
fn values_in(r: Result<Counts, Refusal>) -> Reported
    ensures { result ≡ reported_of (values_in r) }
{
    match r {
        Err(e) => Reported::from(e),
        Ok(c) => Reported {
            number: 0,
            first: c.rows as u64,
            second: c.pool as u64,
        },
    }
}

// The rows and pool bytes that an answer takes up.
fn used(r: Result<Counts, Refusal>) -> Counts
    ensures { (result.rows ≡ rows_used r) × (result.pool ≡ pool_used r) }
{
    r.unwrap_or(Counts { rows: 0, pool: 0 })
}

// Tells of the text k.
fn tell(tells: &mut [u64], k: usize, v: Reported, rows: usize, pool: usize)
    requires { k ≤ 2 ^ 60 }
    ensures { (tells.new ≡ sets tells.old (k * 5) (told_of v rows pool)) × (k ≤ 2 ^ 60) }
{
    put_all(
        tells,
        k * TOLD,
        &[
            u64::from(v.number),
            v.first,
            v.second,
            rows as u64,
            pool as u64,
        ],
    );
}

// The text s into the room that n rows and m pool bytes leave.
fn one(
    types: &[u32],
    names: &[u8],
    s: &[u8],
    rows: &mut [u32],
    pool: &mut [u8],
    n: usize,
    m: usize,
) -> Result<Counts, Refusal>
    requires { TableCall (table types.now names.now) (Ok tt) × (n * 4 ≤ length rows.old) × (m ≤ length pool.old) }
    ensures { ReadFrom (table_in types names) s.now n m result rows pool }
{
    let first = n * 4;
    read_good(types, names, s, &mut rows[first..], &mut pool[m..])
}

// With a good type table: how many texts are answered.
fn each(
    types: &[u32],
    names: &[u8],
    texts: &[u8],
    ends: &[u64],
    rows: &mut [u32],
    pool: &mut [u8],
    tells: &mut [u64],
) -> usize
    requires { TableCall (table types.now names.now) (Ok tt) }
    ensures { Ran (table_in types names) texts.now ends.now rows pool tells result }
{
    let mut from: usize = 0;
    let mut n: usize = 0;
    let mut m: usize = 0;
    for (k, end) in ends.iter().enumerate() {
        if tells.len() / TOLD <= k {
            return k;
        }
        let end = *end as usize;
        let s = text_from(texts, from, end);
        let r = one(types, names, s, rows, pool, n, m);
        let more = used(r);
        n += more.rows;
        m += more.pool;
        let v = values_in(r);
        tell(tells, k, v, n, m);
        if v.number == NO_ROOM {
            return k + 1;
        }
        from = end;
    }
    ends.len()
}

// Reads each of the texts that stand one after another in `texts` and end at `ends`, by one type table. Rows and pool bytes are stored one
// after another, and of each text five numbers are told. A text that finds no room, or of which there is no room to tell, is the last.
pub fn read_each(
    types: &[u32],
    names: &[u8],
    texts: &[u8],
    ends: &[u64],
    rows: &mut [u32],
    pool: &mut [u8],
    tells: &mut [u64],
) -> Result<usize, Refusal>
    ensures { EachCall (table types.now names.now) texts.now ends.now rows.old pool.old tells.old result rows.new pool.new tells.new }
{
    types::check(types, names)?;
    Ok(each(types, names, texts, ends, rows, pool, tells))
}
