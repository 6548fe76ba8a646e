// Pieces of text, stored from a place on as far as there is room. Each call hands back the place after its piece; a place that would pass 2^64-1 is 2^64-1.
ghost use Rattle.std.specs.Prelude.{◌≡◌, true, List, [], ◌∷◌, ℕ, ◌+◌, ◌-◌, ◌*◌, ◌^◌, ◌≤◌, ◌<◌, length};
ghost use Rattle.std.proofs.lemmas.List.Edits.{sets};
ghost use Rattle.jer.specs.Write.{null_text, bool_text, int_text, quotes, string_text};
ghost use Rattle.jer.specs.Calls.{amount};
ghost use Rattle.json_text.specs.Utf8.{utf8};
ghost use Rattle.written.specs.Literal.{PutsLiteral};
ghost use Rattle.written.specs.Text.{Puts, PutsWhole, Leads, spelled, comma, nulls, name_text, opening, closing, kept_after};

use crate::literal::{ANY, ASCII, Literal};
use crate::tables::Tables;
use octets::amount::add;
use octets::{encode, escape, integer};
use slices::{part, put};
use types::row::{Row, wide};

pub fn put_byte(text: &mut [u8], k: usize, b: u8) -> usize
    ensures { Puts (b ∷ []) k text.old text.new result }
{
    put(text, k, b);
    add(k, 1)
}

// The bytes of s, for which there is room. A loop: with `copy_from_slice` a write of 20 KB takes 6 % longer.
pub fn copy(text: &mut [u8], k: usize, s: &[u8])
    requires { k + length s.now ≤ length text.old }
    ensures { text.new ≡ sets text.old k s.now }
{
    for (j, b) in s.iter().enumerate() {
        text[k + j] = *b;
    }
}

// There are n bytes from k on in room for so many.
fn has_room(room: usize, k: usize, n: usize) -> bool
    ensures { result ≡ true → k + n ≤ room }
{
    k <= room && n <= room - k
}

// The same with two quotation marks.
fn has_quoted(room: usize, k: usize, n: usize) -> bool
    ensures { result ≡ true → k + n + 2 ≤ room }
{
    2 <= room && has_room(room - 2, k, n)
}

pub fn put_bytes(text: &mut [u8], k: usize, s: &[u8]) -> usize
    ensures { Puts s.now k text.old text.new result }
{
    if has_room(text.len(), k, s.len()) {
        copy(text, k, s);
        return k + s.len();
    }
    let mut p = k;
    for b in s {
        p = put_byte(text, p, *b);
    }
    p
}

// A comma before all but the first part.
pub fn put_comma(text: &mut [u8], k: usize, n: u32) -> usize
    ensures { Puts (comma n) k text.old text.new result }
{
    if n == 0 {
        return k;
    }
    put_byte(text, k, 0x2C)
}

#[tactic(auto, unfolding(jer::specs::Write::null_text))]
pub fn put_null(text: &mut [u8], k: usize) -> usize
    ensures { Puts null_text k text.old text.new result }
{
    put_bytes(text, k, b"null")
}

// Null for each element from n on and before i.
pub fn put_nulls(text: &mut [u8], k: usize, n: u32, i: u32) -> usize
    ensures { Puts (nulls n (i - n)) k text.old text.new result }
{
    let mut p = k;
    for j in n..i {
        let start = put_comma(text, p, j);
        p = put_null(text, start);
    }
    p
}

#[tactic(auto, unfolding(jer::specs::Write::bool_text))]
pub fn put_bool(text: &mut [u8], k: usize, b: bool) -> usize
    ensures { Puts (bool_text b) k text.old text.new result }
{
    if b {
        return put_bytes(text, k, b"true");
    }
    put_bytes(text, k, b"false")
}

pub fn put_integer(text: &mut [u8], k: usize, low: u32, high: u32) -> usize
    ensures { Puts (int_text (high * 2 ^ 32 + low)) k text.old text.new result }
{
    if k <= json_text::TEXT {
        let n = integer::put_integer(text, k, low, high);
        return add(k, n);
    }
    add(k, integer::integer_len(low, high))
}

// How the bytes of a string are spelled. An enum and no trait: the type table says which, as the program runs.
#[derive(Clone, Copy)]
pub enum Form {
    // As they are, escaped where they must be.
    Escaped,
    Hexadecimal,
    Base64,
}

#[tactic(auto, unfolding(crate::specs::Text::spelled))]
fn spelled_len(form: Form, s: &[u8]) -> usize
    ensures { result ≡ amount (length (spelled form s.now)) }
{
    match form {
        Form::Escaped => escape::escapes_len(s),
        Form::Hexadecimal => encode::hex_len(s),
        Form::Base64 => encode::base64_len(s),
    }
}

// Where a string from k on ends.
#[tactic(auto, using(crate::proofs::PutLaws::measured))]
fn end_of(k: usize, form: Form, s: &[u8]) -> usize
    ensures { result ≡ amount (k + length (spelled form s.now)) }
{
    add(k, spelled_len(form, s))
}

#[tactic(auto, unfolding(crate::specs::Text::spelled))]
fn store(text: &mut [u8], k: usize, form: Form, s: &[u8]) -> usize
    requires { (k ≤ 65536) × (length s.now ≤ 65536) }
    ensures value { result ≡ length (spelled form s.now) }
    ensures text_after { text.new ≡ sets text.old k (spelled form s.now) }
{
    match form {
        Form::Escaped => escape::put_escapes(text, k, s),
        Form::Hexadecimal => encode::put_hex(text, k, s),
        Form::Base64 => encode::put_base64(text, k, s),
    }
}

// Where there is no room, or the string is sure to end past the house size, it is only measured.
fn put_spelled(text: &mut [u8], k: usize, form: Form, s: &[u8]) -> usize
    ensures { Puts (spelled form s.now) k text.old text.new result }
{
    if text.len() <= k {
        return end_of(k, form, s);
    }
    if json_text::TEXT < k {
        return end_of(k, form, s);
    }
    if json_text::TEXT < s.len() {
        return end_of(k, form, s);
    }
    let n = store(text, k, form, s);
    add(k, n)
}

// A string in quotation marks, byte by byte.
pub fn put_string(text: &mut [u8], k: usize, form: Form, s: &[u8]) -> usize
    ensures { Puts (quotes (spelled form s.now)) k text.old text.new result }
{
    let start = put_byte(text, k, 0x22);
    let end = put_spelled(text, start, form, s);
    put_byte(text, end, 0x22)
}

// Where a string of characters ends, and whether they are known to be ASCII: no Option, since it ends somewhere in any case.
#[derive(Clone, Copy)]
pub struct Chars {
    pub end: usize,
    pub ascii: bool,
}

// Strings of characters: bytes that stand for themselves are put as they are. `least` is a mark, so that one comparison tests a byte.
impl Literal {
    // The bytes of s, for which there is room, up to the first with less than the least mark. Returns how many they are.
    fn put_literal(&self, least: u8, text: &mut [u8], k: usize, s: &[u8]) -> usize
        requires { (0x2D ≤ least) × (k + length s.now ≤ length text.old) }
        ensures { PutsLiteral least s.now k text.old text.new result }
    {
        for (j, b) in s.iter().enumerate() {
            if !self.has(least, *b) {
                return j;
            }
            text[k + j] = *b;
        }
        s.len()
    }

    // A string of characters that have the least mark, in quotation marks: whether there is room and they do.
    fn put_quoted(&self, least: u8, text: &mut [u8], k: usize, s: &[u8]) -> bool
        requires { 0x2D ≤ least }
        ensures { PutsWhole least s.now k text.old text.new result }
    {
        if !has_quoted(text.len(), k, s.len()) {
            return false;
        }
        text[k] = 0x22;
        let n = self.put_literal(least, text, k + 1, s);
        if n < s.len() {
            return false;
        }
        text[k + 1 + n] = 0x22;
        true
    }

    // A string of characters in quotation marks: as it stands if they stand for themselves, else with escapes.
    fn put_escaped(&self, text: &mut [u8], k: usize, s: &[u8]) -> usize
        ensures { Puts (string_text s.now) k text.old text.new result }
    {
        if self.put_quoted(ANY, text, k, s) {
            return k + s.len() + 2;
        }
        put_string(text, k, Form::Escaped, s)
    }

    // The same: first as if they were ASCII that stands for itself.
    pub fn put_chars(&self, text: &mut [u8], k: usize, s: &[u8]) -> Chars
        ensures puts { Puts (string_text s.now) k text.old text.new result.end }
        ensures s_value { result.ascii ≡ true → utf8 s.now ≡ true }
    {
        if self.put_quoted(ASCII, text, k, s) {
            return Chars {
                end: k + s.len() + 2,
                ascii: true,
            };
        }
        let end = self.put_escaped(text, k, s);
        Chars { end, ascii: false }
    }

    // A member's name and the colon.
    pub fn put_name(&self, text: &mut [u8], k: usize, name: &[u8]) -> usize
        ensures { Puts (name_text name.now) k text.old text.new result }
    {
        let chars = self.put_chars(text, k, name);
        put_byte(text, chars.end, 0x3A)
    }
}

impl Tables<'_> {
    // What stands before the member at i, whose row is `member`, with n parts written: in an ARRAY the nulls that are due, else its name.
    pub fn put_lead(
        &self,
        text: &mut [u8],
        member: Row,
        i: u32,
        n: u32,
        k: usize,
        array: bool,
    ) -> usize
        ensures { (types : List ℕ) (r : ℕ) → Leads array types self.now.names.now member r i n k text result }
    {
        if array {
            let start = put_nulls(text, k, n, i);
            return put_comma(text, start, i);
        }
        let start = put_comma(text, k, n);
        let name = part(self.names, wide(member.members), wide(member.root));
        self.literal.put_name(text, start, name)
    }
}

// The brackets of an ARRAY or an object. `array` is a bool through the walk, and no type: whichever it is, members are taken by one loop.
#[derive(Clone, Copy)]
pub struct Pair {
    pub opening: u8,
    pub closing: u8,
}

#[tactic(auto, unfolding(crate::specs::Text::opening, crate::specs::Text::closing))]
pub fn brackets(array: bool) -> Pair
    ensures opening { result.opening ≡ opening array }
    ensures closing { result.closing ≡ closing array }
{
    if array {
        return Pair {
            opening: b'[',
            closing: b']',
        };
    }
    Pair {
        opening: b'{',
        closing: b'}',
    }
}

// How many parts are written once the member at i is, after n.
#[tactic(auto, unfolding(crate::specs::Text::kept_after))]
pub fn kept_after(array: bool, i: u32, n: u32) -> u32
    requires { (i < 4294967295) × (n < 4294967295) }
    ensures { result ≡ kept_after array i n }
{
    if array { i + 1 } else { n + 1 }
}
