// A reading that only succeeds: one walk over the text notes the value on a tape, a second walk over the tape stores rows and pool.
// The tape is an array of words on the stack: there is no heap for a tree.
// What it does not take it answers by nothing; the general calls read that. So its contracts say only what a success means.
#![tactic(auto)]

pub mod bare; // bare.rt: a value without parts
pub mod emit; // emit.rt: the walk over the tape
pub mod member; // member.rt: members that are absent
pub mod name; // name.rt: the name of a member
pub mod note; // note.rt: words noted on the tape
pub mod read; // read.rt: the call that reads
pub mod source; // source.rt: what the walk over the text reads
pub mod step; // step.rt: what a member of an object gives
pub mod store; // store.rt: stores into lent room
pub mod take; // take.rt: a whole text
pub mod walk; // walk.rt: the walk over the text

// What a value gives: the place after it; the tape's end; how many rows and pool bytes.
#[derive(Clone, Copy)]
pub struct Got {
    pub next: usize,
    pub tape: usize,
    pub rows: usize,
    pub pool: usize,
}
