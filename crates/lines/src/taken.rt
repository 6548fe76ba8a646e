// A line of hexadecimal, from a place in what a program was given.
ghost use Rattle.std.specs.Prelude.{◌≡◌, ◌==◌, ℕ, ◌+◌, ◌*◌, ◌/◌, ◌<◌, ◌≤◌, List, length, get_or, drop};
ghost use Rattle.std.specs.Option.{option_map, is_some};
ghost use Rattle.std.specs.List.{position};
ghost use Rattle.std.proofs.Common.{rules};
ghost use Rattle.std.proofs.lemmas.List.Edits.{sets};
ghost use Rattle.jer.specs.Programs.{line_from, octets_in, line_at, numbers_in};
ghost use Rattle.lines.specs.Taken.{octets_of, octet_at, number_at, is_hex, numbers_line, taken_of, after, octets_each, numbers_each};

use slices::{hex_value, part, put};

// A line that was taken: how many octets or numbers it has, and the place after it.
#[derive(Clone, Copy)]
pub struct Taken {
    pub count: usize,
    pub next: usize,
}

// Digits in a line at the most.
pub const DIGITS: usize = 16384;

// The place of the first line feed.
fn line_feed(s: &[u8]) -> Option<usize>
    ensures { result ≡ position (λ b. b == 0x0A) s.now }
{
    s.iter().position(|b| *b == 0x0A)
}

// How many bytes the line at a place has.
fn line_len(s: &[u8], at: usize) -> usize
    requires { at ≤ length s.now }
    ensures { result ≡ length (line_from (drop at s.now)).bytes }
{
    let rest = &s[at..];
    line_feed(rest).unwrap_or(rest.len())
}

// Whether all bytes are hexadecimal digits.
fn is_hex(line: &[u8]) -> bool
    ensures { result ≡ is_hex line.now }
{
    line.iter().all(|b| hex_value(*b).is_some())
}

// Whether a line is hexadecimal, not over-long, of whole units of octets.
fn is_good(line: &[u8], unit: usize) -> bool
    requires { 1 ≤ unit }
    ensures { result ≡ is_some (octets_in unit line.now) }
{
    if DIGITS < line.len() {
        return false;
    }
    if line.len() % 2 != 0 {
        return false;
    }
    if line.len() / 2 % unit != 0 {
        return false;
    }
    is_hex(line)
}

// The octet whose two digits stand at i.
fn octet(line: &[u8], i: usize) -> u8
    requires { i + 1 < length line.now }
    ensures { result ≡ octet_at line.now i }
{
    hex_value(line[i]).unwrap_or(0) * 16 + hex_value(line[i + 1]).unwrap_or(0)
}

// The number whose eight digits stand at i.
fn number(line: &[u8], i: usize) -> u32
    requires { i + 7 < length line.now }
    ensures { result ≡ number_at line.now i }
{
    u32::from_be_bytes([
        octet(line, i),
        octet(line, i + 2),
        octet(line, i + 4),
        octet(line, i + 6),
    ])
}

// What a line is made of: octets, or numbers of four octets.
trait Unit: Copy {
    // How many octets one has.
    const OCTETS: usize;

    ghost OCTETS: { ℕ };

    // The units of octets.
    ghost units: { List ℕ → List Self };

    // A line's k-th unit.
    fn at(line: &[u8], k: usize) -> Self
        requires { k < length line.now / 2 / OCTETS }
        ensures { (d : Self) → result ≡ get_or (units (octets_of line.now)) k d };

    ghost some: { 1 ≤ OCTETS };

    ghost count: { (os : List ℕ) → length (units os) ≡ length os / OCTETS };
}

impl Unit for u8 {
    const OCTETS: usize = 1;

    ghost OCTETS = { 1 };

    ghost units = { λ os. os };

    fn at(line: &[u8], k: usize) -> u8 {
        octet(line, k * 2)
    }

    ghost some = { Prim.search rules };

    ghost count = { octets_each };
}

impl Unit for u32 {
    const OCTETS: usize = 4;

    ghost OCTETS = { 4 };

    ghost units = { numbers_in };

    fn at(line: &[u8], k: usize) -> u32 {
        number(line, k * 8)
    }

    ghost some = { Prim.search rules };

    ghost count = { numbers_each };
}

// Stores the units of digits, as far as there is room.
fn store<U: Unit>(line: &[u8], out: &mut [U])
    ensures { out.new ≡ sets out.old 0 (U.units (octets_of line.now)) }
{
    for k in 0..line.len() / 2 / U::OCTETS {
        put(out, k, U::at(line, k));
    }
}

// The units of the line at a place, stored as far as there is room. A bad line stores nothing.
fn line<U: Unit>(s: &[u8], at: usize, out: &mut [U]) -> Option<Taken>
    ensures value { result ≡ taken_of s.now at (option_map U.units (line_at U.OCTETS (drop at s.now))) }
    ensures out_after { out.new ≡ after out.old (option_map U.units (line_at U.OCTETS (drop at s.now))) }
{
    if s.len() <= at {
        return None;
    }
    let n = line_len(s, at);
    let line = part(s, at, n);
    if !is_good(line, U::OCTETS) {
        return None;
    }
    store(line, out);
    Some(Taken {
        count: n / 2 / U::OCTETS,
        next: at + n + 1,
    })
}

// The octets of the line at a place, stored as far as there is room. None if the line is missing, over-long, odd or
// not hexadecimal: it stores nothing. This and the next say by name what `Unit`, which is private, does.
pub fn octets_line(s: &[u8], at: usize, out: &mut [u8]) -> Option<Taken>
    ensures value { result ≡ taken_of s.now at (line_at 1 (drop at s.now)) }
    ensures out_after { out.new ≡ after out.old (line_at 1 (drop at s.now)) }
{
    line(s, at, out)
}

// The numbers of the line at a place, likewise. None also if they are not whole.
pub fn numbers_line(s: &[u8], at: usize, out: &mut [u32]) -> Option<Taken>
    ensures value { result ≡ taken_of s.now at (numbers_line (drop at s.now)) }
    ensures out_after { out.new ≡ after out.old (numbers_line (drop at s.now)) }
{
    line(s, at, out)
}
