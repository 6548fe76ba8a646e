// A value without parts, at a place of the text.
ghost use Rattle.std.specs.Prelude.{List, ℕ, ◌≤◌, length, IfSome};
ghost use Rattle.jer.specs.Table.{Table, BOOLEAN, INTEGER, ENUMERATED, NULL, OCTET-STRING, UTF8String, table};
ghost use Rattle.spelled.specs.Names.{Distinct};
ghost use Rattle.quick.specs.Taken.{LeafTaken, LeafOf, OctetsTaken};

use crate::name::position_of;
use crate::source::Source;
use leaf::strings::octets_at;
use slices::byte_at;
use spelled::coded::{base64_count, hex_count};
use spelled::integer::integer;
use spelled::string::string;
use spelled::word::literal;
use types::row::{Row, kind_of};

// The place after it; the two words of it, as they are noted on the tape; how many pool bytes.
#[derive(Clone, Copy)]
pub struct Words {
    pub next: usize,
    pub a: u32,
    pub b: u32,
    pub pool: usize,
}

pub fn leaf(source: &Source, memo: &mut [u8; 1024], row: usize, place: usize) -> Option<Words>
    requires { (place ≤ 65536) × Distinct (table source.now.types.now source.now.names.now) row }
    ensures { IfSome result (λ w. LeafTaken (table source.now.types.now source.now.names.now) source.now.s.now row place w) }
{
    match kind_of(source.types, row) {
        Row::BOOLEAN => boolean(source.s, place),
        Row::INTEGER => number(source.s, place),
        Row::ENUMERATED => item(source, memo, row, place),
        Row::NULL => Some(Words {
            next: literal(source.s, place, b"null")?,
            a: 0,
            b: 0,
            pool: 0,
        }),
        Row::OCTET_STRING => octets(source, row, place),
        Row::UTF8_STRING => text(source, place),
        _ => None,
    }
}

fn boolean(s: &[u8], place: usize) -> Option<Words>
    ensures { IfSome result (λ w. (t : Table) (row : ℕ) → LeafOf BOOLEAN t s.now row place w) }
{
    if byte_at(s, place) == 0x74 {
        return Some(Words {
            next: literal(s, place, b"true")?,
            a: 1,
            b: 0,
            pool: 0,
        });
    }
    Some(Words {
        next: literal(s, place, b"false")?,
        a: 0,
        b: 0,
        pool: 0,
    })
}

fn number(s: &[u8], place: usize) -> Option<Words>
    ensures { IfSome result (λ w. (t : Table) (row : ℕ) → LeafOf INTEGER t s.now row place w) }
{
    let n = integer(s, place)?;
    Some(Words {
        next: n.next,
        a: n.low,
        b: n.high,
        pool: 0,
    })
}

// What is added to the length of a string in which something is escaped: a leaf has two words on the tape, and the place takes the other.
pub const ESCAPED: u32 = 2147483648;

// A UTF8String: where it stands, and its length.
fn text(source: &Source, place: usize) -> Option<Words>
    requires { place ≤ 65536 }
    ensures { IfSome result (λ w. (t : Table) (row : ℕ) → LeafOf UTF8String t source.now.s.now row place w) }
{
    let w = string(source.s, place, source.flags)?;
    let n = w.count as u32;
    Some(Words {
        next: w.next,
        a: place as u32,
        b: if w.escaped { n + ESCAPED } else { n },
        pool: w.count,
    })
}

// An ENUMERATED: the item's position.
fn item(source: &Source, memo: &mut [u8; 1024], row: usize, place: usize) -> Option<Words>
    requires { (place ≤ 65536) × Distinct (table source.now.types.now source.now.names.now) row }
    ensures { IfSome result (λ w. LeafOf ENUMERATED (table source.now.types.now source.now.names.now) source.now.s.now row place w) }
{
    let w = string(source.s, place, source.flags)?;
    let k = position_of(source, memo, row, 0, place, w.count, w.escaped)?;
    Some(Words {
        next: w.next,
        a: k,
        b: 0,
        pool: 0,
    })
}

// An OCTET STRING that has no escapes: where it stands, and how many octets it has; in Base64 with its characters above.
fn octets(source: &Source, row: usize, place: usize) -> Option<Words>
    requires { place ≤ 65536 }
    ensures { IfSome result (λ w. (ns : List ℕ) → LeafOf OCTET-STRING (table source.now.types.now ns) source.now.s.now row place w) }
{
    let w = string(source.s, place, source.flags)?;
    if w.escaped {
        return escaped(source, row, place, w.next, w.count);
    }
    if 32767 < w.count {
        return None;
    }
    // The characters and the octets share the second word.
    if Row::at(source.types, row).is_base64() {
        let n = base64_count(source.s, place + 1, w.count)?;
        return Some(Words {
            next: w.next,
            a: place as u32,
            b: (w.count * 65536 + n) as u32,
            pool: n,
        });
    }
    let n = hex_count(source.s, place + 1, w.count)?;
    Some(Words {
        next: w.next,
        a: place as u32,
        b: n as u32,
        pool: n,
    })
}

// One in which something is escaped, of n bytes: how many octets it has, and 2^31 more.
fn escaped(source: &Source, row: usize, place: usize, next: usize, n: usize) -> Option<Words>
    requires { (place ≤ 65536) × (n ≤ 65536) }
    ensures { IfSome result (λ w. OctetsTaken source.now.types.now source.now.s.now row place next n w) }
{
    let m = octets_at(source.types, source.s, &mut [0], row, place, 0)?;
    if n < m {
        return None;
    }
    Some(Words {
        next,
        a: place as u32,
        b: m as u32 + ESCAPED,
        pool: m,
    })
}
