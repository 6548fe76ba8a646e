// The name of a member at a place: its position, and where its value begins.
ghost use Rattle.std.specs.Prelude.{◌≡◌, false, ℕ, ◌+◌, ◌≤◌, length, IfSome};
ghost use Rattle.jer.specs.Table.{position, table};
ghost use Rattle.spelled.specs.Leaves.{StringAt};
ghost use Rattle.spelled.specs.Names.{Distinct};
ghost use Rattle.quick.specs.Taken.{NameTaken};

use crate::source::Source;
use scan::names::position;
use slices::byte_at;
use spelled::names::find;
use spelled::space::space;
use spelled::string::string;
use types::row::{count_of, first_of};

// The place after the colon; the position of the member that has the name.
#[derive(Clone, Copy)]
pub struct Name {
    pub next: usize,
    pub position: Option<u32>,
}

// The name whose quotation mark stands at `place`; the member that is due is tried first.
pub fn name_at(
    source: &Source,
    memo: &mut [u8; 1024],
    row: usize,
    due: u32,
    place: usize,
) -> Option<Name>
    requires { (place ≤ 65536) × Distinct (table source.now.types.now source.now.names.now) row }
    ensures { IfSome result (λ n. NameTaken (table source.now.types.now source.now.names.now) source.now.s.now row place n) }
{
    let w = string(source.s, place, source.flags)?;
    let c = space(source.s, w.next);
    if byte_at(source.s, c) != 0x3A {
        return None;
    }
    Some(Name {
        next: c + 1,
        position: position_of(source, memo, row, due, place, w.count, w.escaped),
    })
}

// The position of the member that has the name at `place`, a string that denotes n bytes.
pub fn position_of(
    source: &Source,
    memo: &mut [u8; 1024],
    row: usize,
    due: u32,
    place: usize,
    n: usize,
    escaped: bool,
) -> Option<u32>
    requires { (place ≤ 65536) × Distinct (table source.now.types.now source.now.names.now) row × (escaped ≡ false → place + 1 + n ≤ length source.now.s.now) }
    ensures { (q : ℕ) (w : StringAt source.now.s.now place q n escaped) → position (table source.now.types.now source.now.names.now) row w.chars ≡ result }
{
    if !escaped {
        return find(
            source.types,
            source.names,
            source.s,
            memo,
            first_of(source.types, row),
            count_of(source.types, row),
            due,
            place + 1,
            n,
        );
    }
    position(source.types, source.names, source.s, row, place)
}
