// Amounts of bytes: places and lengths that stay at the greatest.
ghost use Rattle.std.specs.Prelude.{◌≡◌, ◌+◌};
ghost use Rattle.jer.specs.Calls.{amount};

// The sum of two amounts.
#[tactic(auto, using(crate::proofs::AmountLaws::amount_is))]
pub fn add(a: usize, b: usize) -> usize
    ensures { result ≡ amount (a + b) }
{
    a.saturating_add(b)
}
