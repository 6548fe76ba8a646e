// The leaves of reading, by places in a text: the cursor, runs of bytes, strings, numbers, and the skip of a value.
// Contracts cite `specs/`, whose definitions are total: no place is out of range.
#![tactic(auto)]

pub mod cursor;
pub mod numbers;
pub mod skip;
pub mod strings;
