// A literal: null, true or false.
ghost use Rattle.std.specs.Prelude.{◌≤◌, length, IfSome};
ghost use Rattle.spelled.specs.Stretch.{Stretch, Spells};

use crate::same::same;

// The place after the word, if it stands at p.
pub fn literal(s: &[u8], p: usize, word: &[u8]) -> Option<usize>
    ensures { IfSome result (λ q. Stretch (Spells word.now) s.now p q × (q ≤ length s.now)) }
{
    if s.len() < word.len() || s.len() - word.len() < p {
        return None;
    }
    if same(s, p, word) {
        Some(p + word.len())
    } else {
        None
    }
}
