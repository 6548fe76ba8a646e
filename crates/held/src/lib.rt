// A reader that holds the lent text together with its place, for the outermost tokens. `outermost`, whose parameter is a
// plain slice, stands above, and serves `reading::read`.
#![tactic(auto)]

ghost use Rattle.std.specs.Prelude.{◌≡◌};
ghost use Rattle.tokens.specs.Places.{past_space};

use tokens::cursor::Cursor;

// A lent text, and a place in it.
#[derive(Clone, Copy)]
pub struct Reader<'a> {
    pub src: &'a [u8],
    pub at: usize,
}

impl<'a> Reader<'a> {
    // A reader at the text's start.
    pub fn new(src: &'a [u8]) -> Reader<'a>
        ensures { (result.src ≡ src.entry) × (result.at ≡ 0) }
    {
        Reader { src, at: 0 }
    }

    // Past white space.
    pub fn to_token(self) -> Reader<'a>
        ensures { (result.src ≡ self.entry.src) × (result.at ≡ past_space self.entry.src.now self.entry.at) }
    {
        let cursor = Cursor { at: self.at }.skip_space(self.src);
        Reader {
            src: self.src,
            at: cursor.at,
        }
    }
}

// The place of the outermost token of a text, its length if there is none. Callers need no walk.
pub fn outermost(s: &[u8]) -> usize
    ensures { result ≡ past_space s.now 0 }
{
    Reader::new(s).to_token().at
}
