// The sizes of a type table, and three passes over its rows: each tells the first bad row.
ghost use Rattle.std.specs.Prelude.{◌≡◌};
ghost use Rattle.jer.specs.Valid.{good_alone, good_pointers, good_rules, good_sizes, pass};
ghost use Rattle.jer.specs.Table.{table};

use crate::alone::good_alone;
use crate::bytes::all_ascii;
use crate::row::row_count;
use crate::rules::{good_pointers, good_rules};

// House sizes of document 01: the numbers of 4,096 rows, and bytes of names.
const NUMBERS: usize = 32768;

const NAMES: usize = 65536;

pub fn good_sizes(rows: &[u32], names: &[u8]) -> bool
    ensures { result ≡ good_sizes (table rows.now names.now) }
{
    let n = rows.len();
    (1 <= n) & (n % 8 == 0) & (n <= NUMBERS) & (names.len() <= NAMES)
}

// Each row by itself.
pub fn bad_alone(rows: &[u32], names: &[u8]) -> Option<usize>
    ensures { result ≡ pass (table rows.now names.now) (good_alone (table rows.now names.now)) }
{
    let ascii = all_ascii(names);
    (0..row_count(rows)).find(|r| !good_alone(rows, names, ascii, *r))
}

// By the kinds of the rows it points to.
pub fn bad_pointers(rows: &[u32], names: &[u8]) -> Option<usize>
    ensures { result ≡ pass (table rows.now names.now) (good_pointers (table rows.now names.now)) }
{
    (0..row_count(rows)).find(|r| !good_pointers(rows, *r))
}

// Each type by its other rules.
pub fn bad_rules(rows: &[u32], names: &[u8]) -> Option<usize>
    ensures { result ≡ pass (table rows.now names.now) (good_rules (table rows.now names.now)) }
{
    (0..row_count(rows)).find(|r| !good_rules(rows, names, *r))
}
