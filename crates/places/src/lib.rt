// Typed reading by places of the text, as definitions in the shape of the code, with the proof that on a JSON text they are the
// meaning of its tree. The readers stand in the crates above; their contracts cite `specs/ByPlaces.antt`, and public ones the meaning
// alone. What the code and the definitions answer alike is declared here, once, with the refusal that a stopped scan becomes.
#![tactic(auto)]

ghost use Rattle.std.specs.Prelude.{◌≡◌};

use jer::Refusal;

// What follows the opening bracket, or a part of a bracket. No Result: neither is a failure.
#[derive(Clone, Copy)]
pub enum Follows {
    // The next part begins at this place.
    Part(usize),
    // The bracket is closed, and this place follows it.
    Shut(usize),
}

// An object's names: the place after its closing bracket, the members met and, of each, where its value stands.
// `met` is document 01's one number of 64 bits, and no list of pairs: there is no heap, and a member's place is asked for by its position.
#[derive(Clone, Copy)]
pub struct Scanned {
    pub next: usize,
    pub met: u64,
    pub places: [u32; 64],
}

// An object's names up to the first that is refused: why it is, the members met before it and, of each, where its value stands.
#[derive(Clone, Copy)]
pub struct Stopped {
    pub why: Refusal,
    pub met: u64,
    pub places: [u32; 64],
}

impl From<Stopped> for Refusal {
    ghost from_gives = { λ x e. e ≡ x.why };

    fn from(x: Stopped) -> Refusal {
        x.why
    }
}

// A member of an object. No Option: null and no name are both no value, and are taken otherwise where the member must be there.
#[derive(Clone, Copy)]
pub enum Member {
    Absent,
    Missing,
    // Where its value stands.
    There(usize),
}

// A member of an array.
#[derive(Clone, Copy)]
pub enum Element {
    // What follows it.
    Absent(Follows),
    // The place after the array.
    Missing(usize),
    // Where its value stands.
    There(usize),
}
