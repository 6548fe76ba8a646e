// The name of a member at a place: its position in the type, and where its value stands.
ghost use Rattle.std.specs.Prelude.{◌≡◌, ◌+◌, ◌<◌, ◌≤◌, length, IfSome};
ghost use Rattle.jer.specs.Table.{name_in, same_bytes, position, table};
ghost use Rattle.tokens.specs.declared.strings.Piece.TheVariants.{Bare};
ghost use Rattle.tokens.specs.Strings.{piece_at, denoted};
ghost use Rattle.places.specs.ByPlaces.{value_place};

use tokens::cursor::Cursor;
use tokens::strings::{first_differs, plain_first, same, string_end};
use types::row::{count_of, first_of, name_length, name_start, wide};

// The value of the member whose name stands at q.
pub fn value_place(s: &[u8], q: usize) -> usize
    requires { (length s.now ≤ 65536) × (q ≤ 65536) }
    ensures { (result ≡ value_place s.now q) × (result ≤ 65538) }
{
    let name = Cursor {
        at: string_end(s, q + 1),
    };
    let value = name.skip_space(s).advance(1).skip_space(s);
    value.at
}

// Whether the name in the member's row m is the string at p, whose plain first byte is b, if it has one: it is compared first.
fn has_name(types: &[u32], names: &[u8], s: &[u8], m: usize, p: usize, b: Option<u8>) -> bool
    requires { (length s.now ≤ 65536) × IfSome b (λ b. Bare b ≡ piece_at s.now p) }
    ensures { result ≡ same_bytes (name_in (table types.now names.now) m) (denoted s.now p) }
{
    let start = name_start(types, m);
    if first_differs(names, start, b) {
        return false;
    }
    same(s, p, names, start, name_length(types, m))
}

// The position, in the type at `row`, of the member whose name stands at q.
pub fn position(types: &[u32], names: &[u8], s: &[u8], row: usize, q: usize) -> Option<u32>
    requires { (length s.now ≤ 65536) × (q ≤ 65536) }
    ensures { result ≡ position (table types.now names.now) row (denoted s.now (q + 1)) }
{
    let first = first_of(types, row);
    let count = count_of(types, row);
    let p = q + 1;
    let b = plain_first(s, p);
    (0..count).find(|i| has_name(types, names, s, first + wide(*i), p, b))
}
