// What stands at a place of a text, by the grammar of JSON: each function answers a place after it, where it takes it.
// A reading that only succeeds is made of these. Contracts cite `specs/`, which cites the grammar.
#![tactic(auto)]

mod bytes; // bytes.rt: some bytes as one number
mod character; // character.rt: characters that are escaped, or of more than one byte
pub mod coded; // coded.rt: octets in hexadecimal or Base64
pub mod integer; // integer.rt: INTEGER
pub mod names; // names.rt: the member that has a name
mod number; // number.rt: any number
pub mod plain; // plain.rt: runs of characters that stand for themselves
pub mod put; // put.rt: octets stored
mod same; // same.rt: bytes compared
pub mod skip; // skip.rt: past any value
pub mod space; // space.rt: white space
pub mod string; // string.rt: strings
pub mod word; // word.rt: a literal
