// The calls for programs in C and other languages, as include/attrywind.h declares them: numbers and lent slices alone. The crate capi_c exports them.
// Contracts cite specs/Answers.antt: each is a call of the library (`jer`'s CallClauses.antt) whose answer is told in numbers.
#![tactic(auto)]

ghost use Rattle.std.specs.Prelude.{◌≡◌};
ghost use Rattle.jer.specs.Answer.{values_of};
ghost use Rattle.jer.specs.Table.{table};
ghost use Rattle.capi.specs.Answers.{amounts_after, amounts_by, TableFromC, ReadFromC, EachFromC, WriteFromC};

use jer::{Counts, Refusal, Reported};
use reading::each::read_each;

// Stores two amounts, if there is room for both.
fn told(amounts: &mut [u64], first: u64, second: u64)
    ensures { amounts.new ≡ amounts_after amounts.old first second }
{
    if 2 <= amounts.len() {
        amounts[0] = first;
        amounts[1] = second;
    }
}

// Stores a refusal's amounts, and returns its number.
fn refused(amounts: &mut [u64], e: Refusal) -> u32
    ensures value { result ≡ (values_of e).number }
    ensures amounts_after { amounts.new ≡ amounts_by amounts.old (values_of e) }
{
    let t = Reported::from(e);
    told(amounts, t.first, t.second);
    t.number
}

// Judges a type table with its names.
pub fn attrywind_check_table(types: &[u32], names: &[u8], amounts: &mut [u64]) -> u32
    ensures { TableFromC (table types.now names.now) amounts.old result amounts.new }
{
    match types::check(types, names) {
        Err(e) => refused(amounts, e),
        Ok(()) => {
            told(amounts, 0, 0);
            0
        }
    }
}

// Reads the text by the type table into the lent rows and pool.
pub fn attrywind_read(
    types: &[u32],
    names: &[u8],
    text: &[u8],
    rows: &mut [u32],
    pool: &mut [u8],
    amounts: &mut [u64],
) -> u32
    ensures { ReadFromC (table types.now names.now) text.now rows.old pool.old amounts.old result rows.new pool.new amounts.new }
{
    match reading::read(types, names, text, rows, pool) {
        Err(e) => refused(amounts, e),
        Ok(c) => {
            told(amounts, c.rows as u64, c.pool as u64);
            0
        }
    }
}

// Reads each of the texts that stand one after another and end at `ends`, by one type table.
pub fn attrywind_read_each(
    types: &[u32],
    names: &[u8],
    texts: &[u8],
    ends: &[u64],
    rows: &mut [u32],
    pool: &mut [u8],
    tells: &mut [u64],
    amounts: &mut [u64],
) -> u32
    ensures { EachFromC (table types.now names.now) texts.now ends.now rows.old pool.old tells.old amounts.old result rows.new pool.new tells.new amounts.new }
{
    match read_each(types, names, texts, ends, rows, pool, tells) {
        Err(e) => refused(amounts, e),
        Ok(n) => {
            told(amounts, n as u64, 0);
            0
        }
    }
}

// Writes the one text of the value table into the lent text.
pub fn attrywind_write(
    types: &[u32],
    names: &[u8],
    values: &[u32],
    pool: &[u8],
    text: &mut [u8],
    amounts: &mut [u64],
) -> u32
    ensures { WriteFromC (table types.now names.now) values.now pool.now text.old amounts.old result text.new amounts.new }
{
    match writing::write(types, names, values, pool, text) {
        Err(e) => refused(amounts, e),
        Ok(n) => {
            told(amounts, n as u64, 0);
            0
        }
    }
}
