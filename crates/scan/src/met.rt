// The members met, one bit for each.
// 01, Reading: "One 64-bit number records which members were met, and its ones are counted against the members known."
ghost use Rattle.std.specs.Prelude.{◌≡◌, ◌<◌};
ghost use Rattle.std.specs.Int.Count.{ones};
ghost use Rattle.places.specs.ByPlaces.{bit_of, with_bit};

pub fn bit(met: u64, k: u32) -> bool
    requires { k < 64 }
    ensures { result ≡ bit_of met k }
{
    (met >> k) % 2 == 1
}

pub fn with(met: u64, k: u32) -> u64
    requires { k < 64 }
    ensures { result ≡ with_bit met k }
{
    met | (1 << k)
}

pub fn ones(met: u64) -> u32
    ensures { result ≡ ones met }
{
    u64::count_ones(met)
}
