// Lines of hexadecimal in slices: those that the programs `jerread` and `jerwrite` are given, and those that they print.
#![tactic(auto)]

pub mod shown; // shown.rt: what is printed
pub mod taken; // taken.rt: what is given
