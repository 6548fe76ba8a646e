// JSON texts: the grammar, the tree with places, and the machine that takes one byte at a time.
// This crate is its `specs/` (definitions) and `proofs/` (laws); code stands in the crates above it.
#![tactic(auto)]

// House sizes of document 01: bytes of text, and brackets open at one time.
pub const TEXT: usize = 65536;

pub const BRACKETS: u32 = 32;
