// A row of the type table: its fields by name, its kinds and marks, the tests of its marks, and the rows that it points to.
ghost use Rattle.std.specs.Prelude.{◌≡◌, List, ℕ, ◌<◌, ◌/◌, length};
ghost use Rattle.jer.specs.Table.{Table, row_count, field, carried, carries, type_kind, tag_of, kind_of, is_type, marked, extensible, is_base64, is_array, is_unwrapped, first_of, element_of, count_of, root_of, member_row, optional, type_in, type_at, name_start, name_length, name_in, code_of, token_of, may_miss, may_be_absent, table};
ghost use Rattle.jer.specs.Valid.{good_marks};
ghost use Rattle.types.specs.Rows.{row_of};

use jer::{Carried, Layout, Token};
use slices::part;

// Fields 0 to 4; the last three have another use in a member's row.
#[derive(Clone, Copy)]
pub struct Row {
    pub kind: u32,
    pub marks: u32,
    // The first member's row, or the element's type row; of a member, its type row.
    pub first: u32,
    // How many members; of a member, where its name starts.
    pub members: u32,
    // How many of them are root; of a member, its name's length.
    pub root: u32,
}

// Field i of row r, or 0 past the end: a number in any case, as the definition gives one.
fn field(rows: &[u32], r: usize, i: usize) -> u32
    ensures { (ns : List ℕ) → result ≡ field (table rows.now ns) r i }
{
    let end = rows.len();
    if end / 8 < r {
        return 0;
    }
    let k = r * 8;
    if end - k <= i {
        return 0;
    }
    rows[k + i]
}

// A number of the table as a row, a position or a place.
pub fn wide(n: u32) -> usize
    ensures { (result ≡ n) × (n < 4294967296) }
{
    n as usize
}

pub fn row_count(rows: &[u32]) -> usize
    ensures { (ns : List ℕ) → result ≡ row_count (table rows.now ns) }
{
    rows.len() / 8
}

// The kind of row r.
pub fn kind_of(rows: &[u32], r: usize) -> u32
    ensures { (ns : List ℕ) → result ≡ kind_of (table rows.now ns) r }
{
    field(rows, r, 0)
}

// The first member's row of the type at r.
pub fn first_of(rows: &[u32], r: usize) -> usize
    ensures { ((ns : List ℕ) → result ≡ first_of (table rows.now ns) r) × (result < 4294967296) }
{
    wide(field(rows, r, 2))
}

// The row of its elements' type. One field has three names, as in the definitions: this, `first_of` and `type_in`.
pub fn element_of(rows: &[u32], r: usize) -> usize
    ensures { (ns : List ℕ) → result ≡ element_of (table rows.now ns) r }
{
    wide(field(rows, r, 2))
}

// How many members it has.
pub fn count_of(rows: &[u32], r: usize) -> u32
    ensures { (ns : List ℕ) → result ≡ count_of (table rows.now ns) r }
{
    field(rows, r, 3)
}

// How many of them are root.
pub fn root_of(rows: &[u32], r: usize) -> u32
    ensures { (ns : List ℕ) → result ≡ root_of (table rows.now ns) r }
{
    field(rows, r, 4)
}

// The type's row in the member's row m.
pub fn type_in(rows: &[u32], m: usize) -> usize
    ensures { (ns : List ℕ) → result ≡ type_in (table rows.now ns) m }
{
    wide(field(rows, m, 2))
}

// Where the name in the member's row m starts.
pub fn name_start(rows: &[u32], m: usize) -> usize
    ensures { ((ns : List ℕ) → result ≡ name_start (table rows.now ns) m) × (result < 4294967296) }
{
    wide(field(rows, m, 3))
}

// Its length.
pub fn name_length(rows: &[u32], m: usize) -> usize
    ensures { ((ns : List ℕ) → result ≡ name_length (table rows.now ns) m) × (result < 4294967296) }
{
    wide(field(rows, m, 4))
}

// A line of the table of kinds, whose values begin with one token, or with none.
fn line(marks: u32, layout: Layout, token: Option<Token>) -> Carried
    ensures { result ≡ carried marks layout token token }
{
    Carried {
        marks,
        layout,
        token,
        other: token,
    }
}

impl Row {
    // Kinds, field 0, and marks: constants of the row's own type, the form that document 01 asks for.
    pub const BOOLEAN: u32 = 0;

    pub const INTEGER: u32 = 1;

    pub const ENUMERATED: u32 = 2;

    pub const NULL: u32 = 3;

    pub const OCTET_STRING: u32 = 4;

    pub const UTF8_STRING: u32 = 5;

    pub const SEQUENCE: u32 = 6;

    pub const SEQUENCE_OF: u32 = 7;

    pub const CHOICE: u32 = 8;

    pub const MEMBER: u32 = 9;

    // The kind of the row of an absent member, in a value table.
    pub const ABSENT: u32 = 15;

    // Marks, field 1.
    pub const BASE64: u32 = 1;

    pub const ARRAY: u32 = 1;

    pub const UNWRAPPED: u32 = 1;

    pub const EXTENSIBLE: u32 = 2;

    pub const OPTIONAL: u32 = 1;

    // What a row of the kind carries: a kind that has no line here is no kind.
    pub fn carries(kind: u32) -> Carried
        ensures { result ≡ carries kind }
    {
        match kind {
            Row::BOOLEAN => line(0, Layout::Bare, Some(Token::Boolean)),
            Row::INTEGER => line(0, Layout::Bare, Some(Token::Number)),
            Row::ENUMERATED => line(Row::EXTENSIBLE, Layout::Holds(1), Some(Token::String)),
            Row::NULL => line(0, Layout::Bare, Some(Token::Null)),
            Row::OCTET_STRING => line(Row::BASE64, Layout::Bare, Some(Token::String)),
            Row::UTF8_STRING => line(0, Layout::Bare, Some(Token::String)),
            Row::SEQUENCE => Carried {
                marks: Row::ARRAY + Row::EXTENSIBLE,
                layout: Layout::Holds(0),
                token: Some(Token::Object),
                other: Some(Token::Array),
            },
            Row::SEQUENCE_OF => line(0, Layout::Lists, Some(Token::Array)),
            Row::CHOICE => line(
                Row::UNWRAPPED + Row::EXTENSIBLE,
                Layout::Holds(1),
                Some(Token::Object),
            ),
            Row::MEMBER => line(Row::OPTIONAL, Layout::Names, None),
            _ => line(0, Layout::Unknown, None),
        }
    }

    // The kind is a type's.
    pub fn type_kind(kind: u32) -> bool
        ensures { result ≡ type_kind kind }
    {
        Row::carries(kind).token.is_some()
    }

    // Row r, with 0 past the end.
    pub fn at(rows: &[u32], r: usize) -> Row
        ensures { (ns : List ℕ) → result ≡ row_of (table rows.now ns) r }
    {
        Row {
            kind: field(rows, r, 0),
            marks: field(rows, r, 1),
            first: field(rows, r, 2),
            members: field(rows, r, 3),
            root: field(rows, r, 4),
        }
    }

    pub fn is_type(self) -> bool
        ensures { (t : Table) (r : ℕ) → self ≡ row_of t r → result ≡ is_type t r }
    {
        Row::type_kind(self.kind)
    }

    // It carries no mark but those that its kind may.
    pub fn good_marks(self, may: u32) -> bool
        ensures { (t : Table) (r : ℕ) → self ≡ row_of t r → may ≡ (carries (tag_of t r)).marks → result ≡ good_marks t r }
    {
        (self.marks % 2 <= may % 2) & (self.marks / 2 <= may / 2)
    }

    // It carries the mark.
    fn marked(self, mark: u32) -> bool
        requires { 0 < mark }
        ensures { (t : Table) (r : ℕ) → self ≡ row_of t r → result ≡ marked t r mark }
    {
        self.marks / mark % 2 == 1
    }

    pub fn extensible(self) -> bool
        ensures { (t : Table) (r : ℕ) → self ≡ row_of t r → result ≡ extensible t r }
    {
        self.marked(Row::EXTENSIBLE)
    }

    pub fn is_base64(self) -> bool
        ensures { (t : Table) (r : ℕ) → self ≡ row_of t r → result ≡ is_base64 t r }
    {
        (self.kind == Row::OCTET_STRING) & self.marked(Row::BASE64)
    }

    pub fn is_array(self) -> bool
        ensures { (t : Table) (r : ℕ) → self ≡ row_of t r → result ≡ is_array t r }
    {
        (self.kind == Row::SEQUENCE) & self.marked(Row::ARRAY)
    }

    pub fn is_unwrapped(self) -> bool
        ensures { (t : Table) (r : ℕ) → self ≡ row_of t r → result ≡ is_unwrapped t r }
    {
        (self.kind == Row::CHOICE) & self.marked(Row::UNWRAPPED)
    }

    // The token that a value of the type begins with, if it is not UNWRAPPED.
    pub fn begins(self) -> Option<Token>
        ensures { (t : Table) (r : ℕ) → self ≡ row_of t r → result ≡ token_of t r }
    {
        let c = Row::carries(self.kind);
        if self.marked(1) { c.other } else { c.token }
    }

    // Of the row of a member.
    pub fn optional(self) -> bool
        ensures { (t : Table) (r i : ℕ) → self ≡ row_of t (member_row t r i) → result ≡ optional t r i }
    {
        self.marks == Row::OPTIONAL
    }
}

// Row r, which is inside: its fields are read without a test for each.
pub fn row_in(rows: &[u32], r: usize) -> Row
    requires { r < length rows.now / 8 }
    ensures { (ns : List ℕ) → result ≡ row_of (table rows.now ns) r }
{
    let k = r * 8;
    Row {
        kind: rows[k],
        marks: rows[k + 1],
        first: rows[k + 2],
        members: rows[k + 3],
        root: rows[k + 4],
    }
}

// The row of the member at the position i of the type at r.
pub fn member_row(rows: &[u32], r: usize, i: u32) -> usize
    ensures { (ns : List ℕ) → result ≡ member_row (table rows.now ns) r i }
{
    first_of(rows, r) + wide(i)
}

// Its own row.
pub fn member_at(rows: &[u32], r: usize, i: u32) -> Row
    ensures { (ns : List ℕ) → result ≡ row_of (table rows.now ns) (member_row (table rows.now ns) r i) }
{
    Row::at(rows, member_row(rows, r, i))
}

// Its type's row.
pub fn type_at(rows: &[u32], r: usize, i: u32) -> usize
    ensures { (ns : List ℕ) → result ≡ type_at (table rows.now ns) r i }
{
    type_in(rows, member_row(rows, r, i))
}

// OPTIONAL, or an addition.
pub fn may_miss(rows: &[u32], r: usize, i: u32) -> bool
    ensures { (ns : List ℕ) → result ≡ may_miss (table rows.now ns) r i }
{
    member_at(rows, r, i).optional() | (root_of(rows, r) <= i)
}

// The same of the value: it may be absent. Another definition, and another answer once a member has a DEFAULT.
pub fn may_be_absent(rows: &[u32], r: usize, i: u32) -> bool
    ensures { (ns : List ℕ) → result ≡ may_be_absent (table rows.now ns) r i }
{
    member_at(rows, r, i).optional() | (root_of(rows, r) <= i)
}

// The name in the member's row m.
pub fn name_in<'a>(rows: &[u32], names: &'a [u8], m: usize) -> &'a [u8]
    ensures { result.now ≡ name_in (table rows.now names.now) m }
{
    part(names, name_start(rows, m), name_length(rows, m))
}
