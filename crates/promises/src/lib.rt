// The owner's demands as theorems about the calls, from their contracts alone: `jer`'s `specs/CallClauses.antt` says what each contract
// determines, and the calls cite it; `proofs/` has what follows. docs/PROMISES.md names each of them.
#![tactic(auto)]

// The demands that document 01's promises answer.
pub const DEMANDS: u32 = 3;
