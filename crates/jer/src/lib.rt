// ASN.1 values in JSON (X.697) as document 01 lays them down: the answers of the calls, and in `specs/` what they mean.
// Contracts of the crates above cite `specs/`; `specs/Answer.antt` gives document 01's number and values for each case.
#![tactic(auto)]

ghost use Rattle.std.specs.Prelude.{◌≡◌};
ghost use Rattle.jer.specs.Answer.{cause_number, table_number, limit_number, values_of};
ghost use Rattle.jer.specs.Reports.{reported_of};
ghost use Rattle.jer.specs.declared.Limit.TheVariants.{LentRoom};
ghost use Rattle.jer.specs.declared.Refusal.TheVariants.{Amounts};

// Why a text is refused at one of its bytes.
#[derive(Clone, Copy, PartialEq, Eq, Debug)]
pub enum Cause {
    // The text is over 65,536 bytes.
    TooLong,
    // Not JSON.
    NotJson,
    // A 33rd open bracket.
    TooDeep,
    // A token of another kind.
    OtherKind,
    // A number with fraction or exponent, or outside the range.
    BadNumber,
    // Bad octets, or no such item and not extensible.
    BadString,
    // An unknown name, not extensible.
    UnknownName,
    // A known name repeated.
    RepeatedName,
    // The member at this position is missing.
    Missing(u32),
    // A surplus element.
    Surplus,
    // A choice object without exactly one member.
    NotOne,
    // An item or alternative that is unknown, extensible.
    Unknown,
}

// Which table is refused at one of its rows.
#[derive(Clone, Copy, PartialEq, Eq, Debug)]
pub enum Which {
    TypeTable,
    ValueTable,
}

// What is too large for its room: a written text for the house size, or an answer for the lent room.
#[derive(Clone, Copy, PartialEq, Eq, Debug)]
pub enum Limit {
    HouseSize,
    LentRoom,
}

// A refusal, by what it returns beside its number.
#[derive(Clone, Copy, PartialEq, Eq, Debug)]
pub enum Refusal {
    AtByte(Cause, usize),
    AtRow(Which, usize),
    Amounts(Limit, u64, u64),
}

// How many rows and pool bytes a value has.
#[derive(Clone, Copy, PartialEq, Eq, Debug)]
pub struct Counts {
    pub rows: usize,
    pub pool: usize,
}

impl Counts {
    // Refuses for want of room, which so much would need.
    pub fn needed(self) -> Refusal
        ensures { result ≡ Amounts LentRoom self.rows self.pool }
    {
        Refusal::Amounts(Limit::LentRoom, self.rows as u64, self.pool as u64)
    }
}

// How a row of the type table uses its fields from 2 on.
#[derive(Clone, Copy, PartialEq, Eq, Debug)]
pub enum Layout {
    // Not at all.
    Bare,
    // First member row, how many members (at least so many), how many of them are root.
    Holds(u32),
    // The element's type row.
    Lists,
    // A member: its type row, its name's start and length.
    Names,
    // A row of no kind.
    Unknown,
}

// The JSON token that a value begins with.
#[derive(Clone, Copy, PartialEq, Eq, Debug)]
pub enum Token {
    Null,
    Boolean,
    Number,
    String,
    Array,
    Object,
}

// What a row of a kind carries.
#[derive(Clone, Copy, PartialEq, Eq, Debug)]
pub struct Carried {
    // The sum of the marks that it may have.
    pub marks: u32,
    pub layout: Layout,
    // Of a type, the token that a value begins with: without mark 1, and with it.
    pub token: Option<Token>,
    pub other: Option<Token>,
}

// Document 01's number of a refusal, with its first and second amount.
#[derive(Clone, Copy, PartialEq, Eq, Debug)]
pub struct Reported {
    pub number: u32,
    pub first: u64,
    pub second: u64,
}

impl Cause {
    fn number(self) -> u32
        ensures { result ≡ cause_number self }
    {
        match self {
            Cause::TooLong => 2,
            Cause::NotJson => 3,
            Cause::TooDeep => 4,
            Cause::OtherKind => 5,
            Cause::BadNumber => 6,
            Cause::BadString => 7,
            Cause::UnknownName => 8,
            Cause::RepeatedName => 9,
            Cause::Missing(_) | Cause::Surplus | Cause::NotOne => 10,
            Cause::Unknown => 11,
        }
    }
}

impl Which {
    fn number(self) -> u32
        ensures { result ≡ table_number self }
    {
        match self {
            Which::TypeTable => 1,
            Which::ValueTable => 12,
        }
    }
}

impl Limit {
    fn number(self) -> u32
        ensures { result ≡ limit_number self }
    {
        match self {
            Limit::HouseSize => 13,
            Limit::LentRoom => 14,
        }
    }
}

// What document 01's table of refusals gives for a refusal.
impl From<Refusal> for Reported {
    ghost from_gives = { λ e r. r ≡ reported_of (values_of e) };

    fn from(e: Refusal) -> Reported {
        match e {
            Refusal::AtByte(c, p) => Reported {
                number: c.number(),
                first: p as u64,
                second: 0,
            },
            Refusal::AtRow(w, row) => Reported {
                number: w.number(),
                first: row as u64,
                second: 0,
            },
            Refusal::Amounts(l, first, second) => Reported {
                number: l.number(),
                first,
                second,
            },
        }
    }
}
