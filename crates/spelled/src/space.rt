// White space.
ghost use Rattle.std.specs.Prelude.{◌≡◌, true};
ghost use Rattle.json_text.specs.Grammar.{Space};
ghost use Rattle.spelled.specs.Stretch.{Stretch, Within, Blank};

fn is_space(b: u8) -> bool
    ensures { result ≡ true → Blank b }
{
    // most bytes are none: one comparison tells
    b <= 0x20 && matches!(b, 0x20 | 0x0A | 0x0D | 0x09)
}

// The place after the white space at p. A loop: the law of `find` asks what a test answers, and `is_space` says only what a yes means.
pub fn space(s: &[u8], p: usize) -> usize
    ensures stretch { Stretch Space s.now p result }
    ensures within { Within s.now p result }
{
    for i in p..s.len() {
        if !is_space(s[i]) {
            return i;
        }
    }
    s.len().max(p)
}
