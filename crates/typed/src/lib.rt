// Typed reading by places of the text: a value of a type, stored as rows and pool bytes, or refused. The text and the type table were
// judged before; the room was not, and what has none is not stored. Contracts cite `specs/Cycle.antt`.
#![tactic(auto)]

mod close; // close.rt: a value's own row above its parts, and counts of 32 bits
pub mod cycle; // cycle.rt: the readers that call one another
mod members; // members.rt: the members of a sequence, and the one of a choice, before they are read
