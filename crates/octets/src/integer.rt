// An INTEGER in decimal, stored into a lent text from k on, as far as there is room.
ghost use Rattle.std.specs.Prelude.{◌≡◌, [], ◌+◌, ◌*◌, ◌≤◌, ◌^◌, length};
ghost use Rattle.std.proofs.lemmas.List.Edits.{sets};
ghost use Rattle.jer.specs.Write.{digits, int_text};

use slices::put;

// How many decimal digits n has.
fn digit_count(n: u64) -> usize
    ensures value { result ≡ length (digits 20 n []) }
    ensures lower_bound { (1 ≤ result) × (result ≤ 20) }
{
    let mut m = n;
    let mut count = 1;
    // No index: the number falls.
    while 10 <= m {
        m /= 10;
        count += 1;
    }
    count
}

// Stores the decimal digits of n, the last one first. Returns how many they are.
fn put_digits(text: &mut [u8], k: usize, n: u64) -> usize
    requires { k ≤ 4294967296 }
    ensures value { result ≡ length (digits 20 n []) }
    ensures upper_bound { result ≤ 20 }
    ensures text_after { text.new ≡ sets text.old k (digits 20 n []) }
{
    let count = digit_count(n);
    let mut m = n;
    for j in 1..count {
        put(text, k + (count - j), 0x30 + (m % 10) as u8);
        m /= 10;
    }
    put(text, k, 0x30 + m as u8);
    count
}

// The 64-bit number of two halves.
fn joined(low: u32, high: u32) -> u64
    ensures { result ≡ high * 2 ^ 32 + low }
{
    u64::from(high) * 4294967296 + u64::from(low)
}

// Stores the INTEGER of two halves. Returns how many bytes that makes.
pub fn put_integer(text: &mut [u8], k: usize, low: u32, high: u32) -> usize
    requires { k ≤ 4294967295 }
    ensures value { result ≡ length (int_text (high * 2 ^ 32 + low)) }
    ensures text_after { text.new ≡ sets text.old k (int_text (high * 2 ^ 32 + low)) }
{
    let n = joined(low, high);
    if n < 9223372036854775808 {
        return put_digits(text, k, n);
    }
    put(text, k, 0x2D);
    1 + put_digits(text, k + 1, n.wrapping_neg())
}

// How many bytes it makes.
pub fn integer_len(low: u32, high: u32) -> usize
    ensures { result ≡ length (int_text (high * 2 ^ 32 + low)) }
{
    let n = joined(low, high);
    if n < 9223372036854775808 {
        return digit_count(n);
    }
    1 + digit_count(n.wrapping_neg())
}
