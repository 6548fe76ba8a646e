// Bytes of a slice as one number, the first one lowest: they are read by one instruction.
ghost use Rattle.std.specs.Prelude.{◌≡◌, ◌+◌, ◌≤◌, ◌<◌, length, get_or};
ghost use Rattle.spelled.specs.Bytes.{FourAt, EightAt};

// The byte at a place.
pub fn byte(s: &[u8], p: usize) -> u32
    requires { p < length s.now }
    ensures { (result ≡ get_or s.now p 0) × (result < 256) }
{
    u32::from(s[p])
}

pub fn four(s: &[u8], p: usize) -> u32
    requires { p + 4 ≤ length s.now }
    ensures { FourAt s.now p result }
{
    u32::from_le_bytes([s[p], s[p + 1], s[p + 2], s[p + 3]])
}

pub fn eight(s: &[u8], p: usize) -> u64
    requires { p + 8 ≤ length s.now }
    ensures { EightAt s.now p result }
{
    u64::from(four(s, p)) + u64::from(four(s, p + 4)) * 0x100000000
}
