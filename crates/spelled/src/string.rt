// Strings.
ghost use Rattle.std.specs.Prelude.{◌≡◌, IfSome};
ghost use Rattle.tokens.specs.Places.{byte_at};
ghost use Rattle.spelled.specs.Leaves.{CharsAt, StringAt};

use crate::character::{escape, wide};
use crate::plain::Flags;
use slices::byte_at;

// A string: the place after it; how many bytes it denotes; whether any of its characters is escaped.
#[derive(Clone, Copy)]
pub struct Text {
    pub next: usize,
    pub count: usize,
    pub escaped: bool,
}

// The characters from p on. `next` is the place of the closing quotation mark.
fn rest(s: &[u8], p: usize) -> Option<Text>
    ensures { IfSome result (λ w. CharsAt s.now p w.next w.count w.escaped × (byte_at s.now w.next ≡ 0x22)) }
{
    let mut i = p;
    let mut n: usize = 0;
    let mut escaped = false;
    // An escape is longer than one byte: the step varies.
    while i < s.len() {
        let b = s[i];
        if b == 0x22 {
            return Some(Text {
                next: i,
                count: n,
                escaped,
            });
        }
        if b < 0x20 {
            return None;
        }
        if b == 0x5C {
            let e = escape(s, i)?;
            i = e.next;
            n += e.count;
            escaped = true;
        } else if b < 0x80 {
            i += 1;
            n += 1;
        } else {
            let k = wide(s, i)?;
            i += k;
            n += k;
        }
    }
    None
}

// The string at p, from its opening quotation mark on.
pub fn string(s: &[u8], p: usize, flags: &Flags) -> Option<Text>
    ensures { IfSome result (λ w. StringAt s.now p w.next w.count w.escaped) }
{
    if byte_at(s, p) != 0x22 {
        return None;
    }
    let q = flags.run(s, p + 1);
    let n = q - p - 1;
    if byte_at(s, q) == 0x22 {
        return Some(Text {
            next: q + 1,
            count: n,
            escaped: false,
        });
    }
    let r = rest(s, q)?;
    Some(Text {
        next: r.next + 1,
        count: n + r.count,
        escaped: r.escaped,
    })
}
