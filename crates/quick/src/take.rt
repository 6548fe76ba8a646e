// A whole text: it is JSON, and its value stands on the tape.
ghost use Rattle.std.specs.Prelude.{◌≤◌, length, IfSome};
ghost use Rattle.jer.specs.Table.{table};
ghost use Rattle.jer.specs.Sane.{Sane};
ghost use Rattle.quick.specs.Taken.{Whole};

use crate::Got;
use crate::source::Source;
use crate::walk::value;
use spelled::space::space;

pub fn take(source: &Source, tape: &mut [u32], memo: &mut [u8; 1024]) -> Option<Got>
    requires { Sane (table source.now.types.now source.now.names.now) × (length tape.old ≤ 1048576) }
    ensures { IfSome result (λ g. Whole (table source.now.types.now source.now.names.now) source.now.s.now tape.new g) }
{
    let g = value(
        source,
        tape,
        memo,
        0,
        space(source.s, 0),
        0,
        json_text::BRACKETS,
    )?;
    if space(source.s, g.next) != source.s.len() {
        return None;
    }
    Some(g)
}
