// Octets as the characters of a string, stored into a lent text from k on, as far as there is room.
ghost use Rattle.std.specs.Prelude.{◌≡◌, ◌+◌, ◌<◌, ◌≤◌, [], ◌∷◌, length};
ghost use Rattle.std.proofs.lemmas.List.Edits.{sets};
ghost use Rattle.jer.specs.Octets.{hex_digit, hex, base64_digit, base64};
ghost use Rattle.jer.specs.Calls.{amount};

use slices::put_all;

// A hexadecimal digit in upper case.
#[tactic(auto, unfolding(jer::specs::Octets::hex_digit))]
pub fn hex_digit(x: u8) -> u8
    requires { x < 16 }
    ensures { result ≡ hex_digit x }
{
    if x < 10 { 0x30 + x } else { 0x37 + x }
}

// Stores the octets in hexadecimal. Returns how many bytes that makes.
pub fn put_hex(text: &mut [u8], k: usize, octets: &[u8]) -> usize
    requires { k + length (hex octets.now) ≤ 4294967296 }
    ensures value { result ≡ length (hex octets.now) }
    ensures text_after { text.new ≡ sets text.old k (hex octets.now) }
{
    let mut n = 0;
    for b in octets {
        put_all(text, k + n, &[hex_digit(b / 16), hex_digit(b % 16)]);
        n += 2;
    }
    n
}

// How many bytes it makes.
pub fn hex_len(octets: &[u8]) -> usize
    ensures { result ≡ amount (length (hex octets.now)) }
{
    octets.len() * 2
}

// A Base64 digit.
#[tactic(auto, unfolding(jer::specs::Octets::base64_digit, json_text::specs::Bytes::pick))]
fn base64_digit(x: u8) -> u8
    requires { x < 64 }
    ensures { result ≡ base64_digit x }
{
    match x {
        0..=25 => x + 0x41,
        26..=51 => x + 0x47,
        52..=61 => x - 0x04,
        62 => 0x2B,
        _ => 0x2F,
    }
}

// The four digits of three octets.
fn group(a: u8, b: u8, c: u8) -> [u8; 4]
    ensures { result ≡ base64 (a ∷ b ∷ c ∷ []) }
{
    [
        base64_digit(a / 4),
        base64_digit(a % 4 * 16 + b / 16),
        base64_digit(b % 16 * 4 + c / 64),
        base64_digit(c % 64),
    ]
}

// Stores the octets in Base64. Returns how many bytes that makes.
pub fn put_base64(text: &mut [u8], k: usize, octets: &[u8]) -> usize
    requires { k + length (base64 octets.now) ≤ 4294967296 }
    ensures value { result ≡ length (base64 octets.now) }
    ensures text_after { text.new ≡ sets text.old k (base64 octets.now) }
{
    let mut left = octets;
    let mut n = 0;
    // Three octets a turn, and what is left.
    while let [a, b, c, rest @ ..] = left {
        put_all(text, k + n, &group(*a, *b, *c));
        n += 4;
        left = rest;
    }
    match left {
        [] => n,
        [a] => {
            let mut four = group(*a, 0, 0);
            four[2] = 0x3D;
            four[3] = 0x3D;
            put_all(text, k + n, &four);
            n + 4
        }
        [a, b, ..] => {
            let mut four = group(*a, *b, 0);
            four[3] = 0x3D;
            put_all(text, k + n, &four);
            n + 4
        }
    }
}

// How many bytes it makes.
pub fn base64_len(octets: &[u8]) -> usize
    ensures { result ≡ amount (length (base64 octets.now)) }
{
    (octets.len() + 2) / 3 * 4
}
