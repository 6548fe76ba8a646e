// The static library for C: each function of `capi` under its name, with its clauses, as include/attrywind.h declares it.
#![tactic(auto)]

ghost use Rattle.jer.specs.Table.{table};
ghost use Rattle.capi.specs.Answers.{TableFromC, ReadFromC, EachFromC, WriteFromC};

// Judges a type table with its names.
#[unsafe(no_mangle)]
pub extern "C" fn attrywind_check_table(types: &[u32], names: &[u8], amounts: &mut [u64]) -> u32
    ensures { TableFromC (table types.now names.now) amounts.old result amounts.new }
{
    capi::attrywind_check_table(types, names, amounts)
}

// Reads the text by the type table into the lent rows and pool.
#[unsafe(no_mangle)]
pub extern "C" fn attrywind_read(
    types: &[u32],
    names: &[u8],
    text: &[u8],
    rows: &mut [u32],
    pool: &mut [u8],
    amounts: &mut [u64],
) -> u32
    ensures { ReadFromC (table types.now names.now) text.now rows.old pool.old amounts.old result rows.new pool.new amounts.new }
{
    capi::attrywind_read(types, names, text, rows, pool, amounts)
}

// Reads each of the texts that stand one after another and end at `ends`, by one type table.
#[unsafe(no_mangle)]
pub extern "C" fn attrywind_read_each(
    types: &[u32],
    names: &[u8],
    texts: &[u8],
    ends: &[u64],
    rows: &mut [u32],
    pool: &mut [u8],
    tells: &mut [u64],
    amounts: &mut [u64],
) -> u32
    ensures { EachFromC (table types.now names.now) texts.now ends.now rows.old pool.old tells.old amounts.old result rows.new pool.new tells.new amounts.new }
{
    capi::attrywind_read_each(types, names, texts, ends, rows, pool, tells, amounts)
}

// Writes the one text of the value table into the lent text.
#[unsafe(no_mangle)]
pub extern "C" fn attrywind_write(
    types: &[u32],
    names: &[u8],
    values: &[u32],
    pool: &[u8],
    text: &mut [u8],
    amounts: &mut [u64],
) -> u32
    ensures { WriteFromC (table types.now names.now) values.now pool.now text.old amounts.old result text.new amounts.new }
{
    capi::attrywind_write(types, names, values, pool, text, amounts)
}
