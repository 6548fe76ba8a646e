// What the programs print, stored into a lent text from k on, as far as there is room. Each returns how many bytes that makes.
ghost use Rattle.std.specs.Prelude.{◌≡◌, [], ◌∷◌, ◌+◌, ◌*◌, ◌/◌, ◌%◌, ◌^◌, ◌≤◌, length};
ghost use Rattle.std.proofs.lemmas.List.Edits.{sets};
ghost use Rattle.jer.specs.Octets.{hex};
ghost use Rattle.jer.specs.Answer.{values, values_of};
ghost use Rattle.jer.specs.Programs.{digits8, end_line, refusal_line};
ghost use Rattle.lines.specs.Shown.{Shows, four_line, four_lines, reading_lines, writing_lines, no_line, judged_line};

use jer::{Counts, Refusal, Reported};
use octets::encode::put_hex;
use slices::{part, put, put_all};

// Document 01's FFFFFFFF, which begins the line of a refusal.
const REFUSED: u64 = 0xFFFFFFFF;

// Document 01's number of a bad input line.
const BAD_LINE: u64 = 15;

// The four octets of a number.
fn octets_of(x: u64) -> [u8; 4]
    ensures { result ≡ x / 2 ^ 24 % 256 ∷ x / 2 ^ 16 % 256 ∷ x / 2 ^ 8 % 256 ∷ x % 256 ∷ [] }
{
    ((x % 4294967296) as u32).to_be_bytes()
}

// The eight digits of a number.
fn put_number(text: &mut [u8], k: usize, x: u64) -> usize
    requires { k ≤ 4294967000 }
    ensures value { result ≡ 8 }
    ensures text_after { text.new ≡ sets text.old k (digits8 (x ∷ [])) }
{
    let four = octets_of(x);
    put_hex(text, k, &four[..])
}

// A line of four numbers.
fn put_four(text: &mut [u8], k: usize, a: u64, b: u64, c: u64, d: u64) -> usize
    requires { k ≤ 4294960000 }
    ensures { Shows (four_line a b c d) k text.old result text.new }
{
    put_number(text, k, a);
    put_number(text, k + 8, b);
    put_number(text, k + 16, c);
    put_number(text, k + 24, d);
    put(text, k + 32, 0x0A);
    33
}

// The line of a refusal: FFFFFFFF, number, first and second amount.
pub fn put_refusal(text: &mut [u8], k: usize, e: Refusal) -> usize
    requires { k ≤ 4294960000 }
    ensures { Shows (refusal_line (values_of e)) k text.old result text.new }
{
    let r = Reported::from(e);
    put_four(text, k, REFUSED, u64::from(r.number), r.first, r.second)
}

// The line of refusal 15 at an input line.
pub fn put_bad_line(text: &mut [u8], line: u32) -> usize
    ensures { Shows (refusal_line (values 15 line 0)) 0 text.old result text.new }
{
    put_four(text, 0, REFUSED, BAD_LINE, u64::from(line), 0)
}

// Octets as one line.
pub fn put_octets(text: &mut [u8], k: usize, octets: &[u8]) -> usize
    requires { k + 2 * length octets.now ≤ 4294967000 }
    ensures { Shows (end_line (hex octets.now)) k text.old result text.new }
{
    let n = put_hex(text, k, octets);
    put(text, k + n, 0x0A);
    n + 1
}

// Numbers, four a line.
pub fn put_rows(text: &mut [u8], rows: &[u32], n: usize) -> usize
    requires { length rows.now ≤ 65536 }
    ensures { Shows (four_lines n rows.now) 0 text.old result text.new }
{
    let mut left = rows;
    let mut k = 0;
    for _ in 0..n {
        let [a, b, c, d, rest @ ..] = left else {
            return k;
        };
        k += put_four(
            text,
            k,
            u64::from(*a),
            u64::from(*b),
            u64::from(*c),
            u64::from(*d),
        );
        left = rest;
    }
    k
}

// What reading answered: rows and pool, or the refusal.
pub fn put_reading(text: &mut [u8], r: Result<Counts, Refusal>, rows: &[u32], pool: &[u8]) -> usize
    requires { (length rows.now ≤ 65536) × (length pool.now ≤ 65536) }
    ensures { Shows (reading_lines r rows.now pool.now) 0 text.old result text.new }
{
    match r {
        Err(e) => put_refusal(text, 0, e),
        Ok(c) => {
            let k = put_rows(text, rows, c.rows);
            k + put_octets(text, k, part(pool, 0, c.pool))
        }
    }
}

// What writing answered: the text, or the refusal.
pub fn put_writing(out: &mut [u8], w: Result<usize, Refusal>, text: &[u8]) -> usize
    requires { length text.now ≤ 65536 }
    ensures { Shows (writing_lines w text.now) 0 out.old result out.new }
{
    match w {
        Err(e) => put_refusal(out, 0, e),
        Ok(n) => put_octets(out, 0, part(text, 0, n)),
    }
}

// NO, a number and a place or row.
fn put_no(text: &mut [u8], number: u64, first: u64) -> usize
    ensures { Shows (no_line number first) 0 text.old result text.new }
{
    put_all(text, 0, b"NO ");
    put_number(text, 3, number);
    put(text, 11, 0x20);
    put_number(text, 12, first);
    put(text, 20, 0x0A);
    21
}

// What judging answered: OK, or the refusal's number and its place or row.
pub fn put_judged(text: &mut [u8], j: Result<(), Refusal>) -> usize
    ensures { Shows (judged_line j) 0 text.old result text.new }
{
    match j {
        Ok(()) => {
            put_all(text, 0, b"OK\n");
            3
        }
        Err(e) => {
            let r = Reported::from(e);
            put_no(text, u64::from(r.number), r.first)
        }
    }
}
