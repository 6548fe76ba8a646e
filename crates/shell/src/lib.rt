// The programs `jerread` and `jerwrite` as functions from what stands on standard input to what they print.
// Each stores what is printed into a lent text, as far as there is room, and returns how many bytes that makes.
// Lines stand in arrays, counted: the programs have no heap.
#![tactic(auto)]

pub mod reads; // reads.rt: `jerread`
pub mod writes; // writes.rt: `jerwrite`
