// The machine of crate json_text with its trees left out, one byte a step.
ghost use Rattle.std.specs.Prelude.{◌≡◌, ◌≤◌};
ghost use Rattle.text.specs.Outline.{goes, opens, closes, comma, quoted, does, step_of, begin, whole, IsMode};

use crate::tables::Tables;
use jer::Cause;
use std::marker::Model;

// Where the check of a text stands.
#[derive(Clone, Copy)]
pub struct Outline {
    // A row of the table in `acts.rt`.
    mode: u8,
    // The open brackets: NONE, and for each of them twice the number before and its kind. They stand between the other two fields for
    // speed: LLVM packs two small ones side by side into one number, and takes them out again, at every byte.
    brackets: u64,
    // Is the string that is being read a name?
    name: bool,
}

impl Model for Outline {
    ghost use Rattle.text.specs.Outline.{Stand, IsMode};

    ghost Value = { Stand };

    ghost view = { λ o. record { mode = o.mode; name = o.name; brackets = o.brackets } };

    ghost invariant = { λ o. IsMode o.mode };

    ghost inverse = { λ s. record { mode = s.mode; name = s.name; brackets = s.brackets } };
}

// The modes that an act leads to: numbers, since a mode is a row of the constant table that document 01's form asks for.
const VALUE: u8 = b'V';

const ELEMENT: u8 = b'E';

const AFTER: u8 = b'A';

const MEMBER: u8 = b'M';

const NAME: u8 = b'N';

const COLON: u8 = b'C';

const STRING: u8 = b'T';

// No bracket is open.
const NONE: u64 = 1;

// From this number on 32 brackets are open.
const FULL: u64 = 1 << json_text::BRACKETS;

// The kinds of brackets: numbers, since the open ones are the digits of one number.
const ARRAY: u64 = 0;

const OBJECT: u64 = 1;

// A byte leads to where the check stands then, or to why no text that may be read has it there.
fn goes(mode: u8, name: bool, brackets: u64) -> Result<Outline, Cause>
    requires { IsMode mode }
    ensures { result ≡ goes mode name brackets }
{
    Ok(Outline {
        mode,
        name,
        brackets,
    })
}

#[tactic(auto, unfolding(crate::specs::Outline::opens, crate::specs::Outline::opening))]
fn opens(mode: u8, kind: u64, brackets: u64) -> Result<Outline, Cause>
    requires { IsMode mode × (kind ≤ 1) }
    ensures { result ≡ opens mode kind brackets }
{
    if FULL <= brackets {
        return Err(Cause::TooDeep);
    }
    goes(mode, false, brackets * 2 + kind)
}

#[tactic(auto, unfolding(crate::specs::Outline::closes, crate::specs::Outline::closing))]
fn closes(kind: u64, brackets: u64) -> Result<Outline, Cause>
    ensures { result ≡ closes kind brackets }
{
    if brackets == NONE {
        return Err(Cause::NotJson);
    }
    if brackets % 2 != kind {
        return Err(Cause::NotJson);
    }
    goes(AFTER, false, brackets / 2)
}

#[tactic(auto, unfolding(crate::specs::Outline::comma, crate::specs::Outline::parted))]
fn comma(brackets: u64) -> Result<Outline, Cause>
    ensures { result ≡ comma brackets }
{
    if brackets == NONE {
        return Err(Cause::NotJson);
    }
    if brackets % 2 == ARRAY {
        return goes(VALUE, false, brackets);
    }
    goes(NAME, false, brackets)
}

// The end of a string.
#[tactic(auto, unfolding(crate::specs::Outline::quoted))]
fn quoted(name: bool, brackets: u64) -> Result<Outline, Cause>
    ensures { result ≡ quoted name brackets }
{
    if name {
        return goes(COLON, false, brackets);
    }
    goes(AFTER, false, brackets)
}

// What an act of the table does.
#[tactic(auto, unfolding(crate::specs::Outline::does, crate::specs::Outline::lookup))]
fn does(act: u8, name: bool, brackets: u64) -> Result<Outline, Cause>
    ensures { result ≡ does act name brackets }
{
    match act {
        b'[' => opens(ELEMENT, ARRAY, brackets),
        b'{' => opens(MEMBER, OBJECT, brackets),
        b']' => closes(ARRAY, brackets),
        b'}' => closes(OBJECT, brackets),
        b'c' => comma(brackets),
        b'n' => goes(STRING, true, brackets),
        b'e' => quoted(name, brackets),
        _ => Err(Cause::NotJson),
    }
}

impl Outline {
    // A value is due.
    pub fn begin() -> Outline
        ensures { result ≡ begin }
    {
        Outline {
            mode: VALUE,
            name: false,
            brackets: NONE,
        }
    }

    // One byte on.
    #[tactic(auto, unfolding(crate::specs::Outline::step_of, crate::specs::Outline::leads))]
    pub fn step(self, tables: &Tables, b: u8) -> Result<Outline, Cause>
        ensures { result ≡ step_of self b }
    {
        let a = tables.act(self.mode, b);
        if a <= b'Z' {
            return goes(a, self.name, self.brackets);
        }
        does(a, self.name, self.brackets)
    }

    // May the text end here? It may where a blank would follow its value.
    #[tactic(auto, unfolding(crate::specs::Outline::whole))]
    pub fn whole(self, tables: &Tables) -> bool
        ensures { result ≡ whole self }
    {
        (tables.act(self.mode, b' ') == AFTER) & (self.brackets == NONE)
    }
}
