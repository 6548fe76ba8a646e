// The text of a value: the value table judged and written in one walk, into as much room as there is. Made twice, it measures and stores.
// Contracts cite `specs/Text.antt`: what a call answers and stores of what `jer` takes of the value table.
#![tactic(auto)]

pub mod leaf; // leaf.rt: a value of one row
pub mod literal; // literal.rt: bytes that stand for themselves in a string
pub mod put; // put.rt: pieces of text, from a place on
pub mod rows; // rows.rt: the rows of the value table
pub mod start; // start.rt: where a value begins, past an UNWRAPPED choice
pub mod tables; // tables.rt: what a writing reads
pub mod taken; // taken.rt: what one value answers
pub mod value; // value.rt: a value of any type
