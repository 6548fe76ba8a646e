// Runs of characters that stand for themselves in a string and are a byte each: 20 to 7F without the quotation mark and the backslash.
ghost use Rattle.std.specs.Prelude.{◌≡◌, true, ◌<◌, length, get_or};
ghost use Rattle.spelled.specs.Stretch.{Stretch, Selves, Within};
ghost use Rattle.spelled.specs.Leaves.{SelfByte, IsFlags};

// 0 for such a byte, 1 for any other: as a byte string the table can be read. Crate written has one of its own, which tells three classes.
const FLAGS: [u8; 256] = *b"\
    \x01\x01\x01\x01\x01\x01\x01\x01\x01\x01\x01\x01\x01\x01\x01\x01\x01\x01\x01\x01\x01\x01\x01\x01\x01\x01\x01\x01\x01\x01\x01\x01\
    \x00\x00\x01\x00\x00\x00\x00\x00\x00\x00\x00\x00\x00\x00\x00\x00\x00\x00\x00\x00\x00\x00\x00\x00\x00\x00\x00\x00\x00\x00\x00\x00\
    \x00\x00\x00\x00\x00\x00\x00\x00\x00\x00\x00\x00\x00\x00\x00\x00\x00\x00\x00\x00\x00\x00\x00\x00\x00\x00\x00\x00\x01\x00\x00\x00\
    \x00\x00\x00\x00\x00\x00\x00\x00\x00\x00\x00\x00\x00\x00\x00\x00\x00\x00\x00\x00\x00\x00\x00\x00\x00\x00\x00\x00\x00\x00\x00\x00\
    \x01\x01\x01\x01\x01\x01\x01\x01\x01\x01\x01\x01\x01\x01\x01\x01\x01\x01\x01\x01\x01\x01\x01\x01\x01\x01\x01\x01\x01\x01\x01\x01\
    \x01\x01\x01\x01\x01\x01\x01\x01\x01\x01\x01\x01\x01\x01\x01\x01\x01\x01\x01\x01\x01\x01\x01\x01\x01\x01\x01\x01\x01\x01\x01\x01\
    \x01\x01\x01\x01\x01\x01\x01\x01\x01\x01\x01\x01\x01\x01\x01\x01\x01\x01\x01\x01\x01\x01\x01\x01\x01\x01\x01\x01\x01\x01\x01\x01\
    \x01\x01\x01\x01\x01\x01\x01\x01\x01\x01\x01\x01\x01\x01\x01\x01\x01\x01\x01\x01\x01\x01\x01\x01\x01\x01\x01\x01\x01\x01\x01\x01";

// The table, made once and lent for a whole text: a constant array is made anew wherever it is read.
#[derive(Drop)]
pub struct Flags {
    pub entries: [u8; 256],
    pub ghost right: { IsFlags entries },
}

impl Flags {
    pub fn new() -> Flags
        ensures { IsFlags result.entries }
    {
        Flags { entries: FLAGS }
    }

    // Whether the byte at i is such a character.
    fn plain(&self, s: &[u8], i: usize) -> bool
        requires { i < length s.now }
        ensures { result ≡ true → SelfByte (get_or s.now i 0) }
    {
        self.entries[usize::from(s[i])] == 0
    }

    // The first place from p on whose byte is not such a character, or the end. A loop: `plain` says only what a yes means.
    fn run_short(&self, s: &[u8], p: usize) -> usize
        ensures stretch { Stretch Selves s.now p result }
        ensures within { Within s.now p result }
    {
        for i in p..s.len() {
            if !self.plain(s, i) {
                return i;
            }
        }
        s.len().max(p)
    }

    // The same, four bytes in a turn.
    pub fn run(&self, s: &[u8], p: usize) -> usize
        ensures stretch { Stretch Selves s.now p result }
        ensures within { Within s.now p result }
    {
        if s.len() <= p {
            return p;
        }
        let turns = (s.len() - p) / 4;
        for k in 0..turns {
            let i = p + k * 4;
            if !self.plain(s, i) {
                return i;
            }
            if !self.plain(s, i + 1) {
                return i + 1;
            }
            if !self.plain(s, i + 2) {
                return i + 2;
            }
            if !self.plain(s, i + 3) {
                return i + 3;
            }
        }
        self.run_short(s, p + turns * 4)
    }
}
