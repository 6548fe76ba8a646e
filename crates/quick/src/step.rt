// What a member of an object gives.

// The place after it; the tape's end; its rows and pool bytes; the members met, and those present, with it; and the position that is due next.
#[derive(Clone, Copy)]
pub struct Step {
    pub next: usize,
    pub tape: usize,
    pub rows: usize,
    pub pool: usize,
    pub met: u64,
    pub present: u64,
    pub due: u32,
}
