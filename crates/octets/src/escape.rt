// The characters of a string, escaped, stored into a lent text from k on, as far as there is room.
ghost use Rattle.std.specs.Prelude.{◌≡◌, ◌+◌, ◌≤◌, length};
ghost use Rattle.std.proofs.lemmas.List.Edits.{sets};
ghost use Rattle.jer.specs.Write.{escaped, escapes};
ghost use Rattle.jer.specs.Calls.{amount};
ghost use Rattle.octets.specs.Encode.{letter_for};

use crate::amount::add;
use crate::encode::hex_digit;
use slices::{put, put_all};

// The letter of a byte's short escape, if it has one.
#[tactic(auto, unfolding(crate::specs::Encode::letter_for, json_text::specs::Bytes::pick))]
fn letter_for(b: u8) -> Option<u8>
    ensures { result ≡ letter_for b }
{
    match b {
        0x22 => Some(0x22),
        0x5C => Some(0x5C),
        0x08 => Some(0x62),
        0x09 => Some(0x74),
        0x0A => Some(0x6E),
        0x0C => Some(0x66),
        0x0D => Some(0x72),
        _ => None,
    }
}

// Stores a byte, escaped where it must be. Returns how many bytes that makes.
fn put_escaped(text: &mut [u8], k: usize, b: u8) -> usize
    requires { k ≤ 4294967296 }
    ensures value { result ≡ length (escaped b) }
    ensures text_after { text.new ≡ sets text.old k (escaped b) }
{
    if let Some(letter) = letter_for(b) {
        put_all(text, k, &[0x5C, letter]);
        return 2;
    }
    if 0x20 <= b {
        put(text, k, b);
        return 1;
    }
    put_all(
        text,
        k,
        &[0x5C, 0x75, 0x30, 0x30, hex_digit(b / 16), hex_digit(b % 16)],
    );
    6
}

// How many bytes a byte makes.
fn escaped_len(b: u8) -> usize
    ensures { result ≡ length (escaped b) }
{
    match letter_for(b) {
        Some(_) => 2,
        None => { if 0x20 <= b { 1 } else { 6 } }
    }
}

// Stores the bytes of a string, escaped where they must be. Returns how many bytes that makes.
pub fn put_escapes(text: &mut [u8], k: usize, octets: &[u8]) -> usize
    requires { k + length (escapes octets.now) ≤ 4294967296 }
    ensures value { result ≡ length (escapes octets.now) }
    ensures text_after { text.new ≡ sets text.old k (escapes octets.now) }
{
    let mut n = 0;
    for b in octets {
        n += put_escaped(text, k + n, *b);
    }
    n
}

// How many bytes a string makes.
pub fn escapes_len(octets: &[u8]) -> usize
    ensures { result ≡ amount (length (escapes octets.now)) }
{
    let mut n = 0;
    for b in octets {
        n = add(n, escaped_len(*b));
    }
    n
}
