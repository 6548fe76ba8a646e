// A reader's bytes for the programs, which pass standard input: what stands there collected, or its lines of hexadecimal read as they come.
// Of what comes from the operating system a contract can give bounds alone: that it is what stands there is tested and not proved.
// A read that fails counts as the end of the input.
// What is made of it and printed, the crates `lines` and `shell`, is proved.
#![tactic(auto)]

ghost use Rattle.std.specs.Prelude.{◌≤◌, ◌≡◌, length};

use lines::taken::DIGITS;
use slices::hex_value;
use std::io::Read;

// Where in its buffer the input stands: places and no slice, since the buffer is lent beside it and filled anew.
#[derive(Clone, Copy)]
pub struct Input {
    pub at: usize,
    pub end: usize,
}

// The next byte, if the input has one, and where the input stands then.
#[derive(Clone, Copy)]
struct Next {
    pub byte: Option<u8>,
    pub input: Input,
}

// A line's octets or numbers, counted; `over` if no byte was left where it would begin: a flag, since a line is answered in any case, and only
// one of six callers asks.
#[derive(Clone, Copy)]
pub struct Line {
    pub count: usize,
    pub over: bool,
    pub input: Input,
}

// The next byte of the input, which is read anew where the buffer is used up.
fn next_byte<R: Read>(from: &mut R, buf: &mut [u8], input: Input) -> Next {
    let Input { at, end } = input;
    if at < end {
        return Next {
            byte: buf.get(at).copied(),
            input: Input { at: at + 1, end },
        };
    }
    let n = from.read(buf).unwrap_or(0);
    if n == 0 {
        return Next {
            byte: None,
            input: Input { at: 0, end: 0 },
        };
    }
    Next {
        byte: buf.first().copied(),
        input: Input { at: 1, end: n },
    }
}

// What is read of the input: up to the end of this many lines, or to a line that is too long.
pub fn collect<R: Read>(from: &mut R, lines: u32, out: &mut [u8]) -> usize
    ensures { result ≤ length out.old }
{
    let mut buf = [0u8; 4096];
    let mut input = Input { at: 0, end: 0 };
    let mut left = lines;
    let mut digits = 0;
    for k in 0..out.len() {
        let a = next_byte(from, &mut buf, input);
        let Some(b) = a.byte else {
            return k;
        };
        out[k] = b;
        input = a.input;
        if b == 0x0A {
            if left <= 1 {
                return k + 1;
            }
            left -= 1;
            digits = 0;
        } else {
            if DIGITS <= digits {
                return k + 1;
            }
            digits += 1;
        }
    }
    out.len()
}

// A hexadecimal digit's value, 0 for any other byte and for none.
fn digit(b: Option<u8>) -> u32
    ensures { result ≤ 15 }
{
    b.and_then(hex_value).map_or(0, u32::from)
}

// What a line is made of: octets or numbers. Not `lines::Unit`, which is proved for every byte; here a contract can give bounds alone.
trait Unit: Copy {
    // How many digits one has.
    const DIGITS: usize;

    // The one whose digits are the last of x.
    fn of(x: u32) -> Self;
}

impl Unit for u8 {
    const DIGITS: usize = 2;

    fn of(x: u32) -> u8 {
        (x % 256) as u8
    }
}

impl Unit for u32 {
    const DIGITS: usize = 8;

    fn of(x: u32) -> u32 {
        x
    }
}

// One unit whose first digit is given, and where the input stands after it.
fn next_unit<R: Read, U: Unit>(from: &mut R, buf: &mut [u8], input: Input, high: u8) -> (U, Input) {
    let mut i = input;
    let mut x = digit(Some(high));
    for _ in 1..U::DIGITS {
        let a = next_byte(from, buf, i);
        x = x % 268435456 * 16 + digit(a.byte);
        i = a.input;
    }
    (U::of(x), i)
}

// The units of a line.
fn units<R: Read, U: Unit>(from: &mut R, buf: &mut [u8], input: Input, out: &mut [U]) -> Line
    ensures { result.count ≤ length out.old }
{
    let mut i = input;
    for k in 0..out.len() {
        let a = next_byte(from, buf, i);
        let high = match a.byte {
            None | Some(0x0A) => {
                return Line {
                    count: k,
                    over: k == 0 && a.byte.is_none(),
                    input: a.input,
                };
            }
            Some(b) => b,
        };
        let (x, rest) = next_unit(from, buf, a.input, high);
        out[k] = x;
        i = rest;
    }
    Line {
        count: out.len(),
        over: false,
        input: i,
    }
}

// The octets of a line.
pub fn octets<R: Read>(from: &mut R, buf: &mut [u8], input: Input, out: &mut [u8]) -> Line
    ensures { result.count ≤ length out.old }
{
    units(from, buf, input, out)
}

// The numbers of a line.
pub fn numbers<R: Read>(from: &mut R, buf: &mut [u8], input: Input, out: &mut [u32]) -> Line
    ensures { result.count ≤ length out.old }
{
    units(from, buf, input, out)
}

fn wide(x: u32) -> usize
    ensures { (result ≡ x) × (result ≤ 4294967295) }
{
    x as usize
}

// The first number of the next line, which stands in the place of a count.
pub fn single<R: Read>(from: &mut R, buf: &mut [u8], input: Input) -> Line
    ensures { result.count ≤ 4294967295 }
{
    let mut one = [0u32; 2];
    let line = numbers(from, buf, input, &mut one);
    let rest = line.input;
    let n = one[0];
    Line {
        count: wide(n),
        over: line.over,
        input: rest,
    }
}
