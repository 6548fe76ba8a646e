// `jerwrite`, line by line: type table, names, value rows, pool.
ghost use Rattle.std.specs.Prelude.{drop};
ghost use Rattle.jer.specs.Programs.{write_shown, write_fourth, write_third, write_second, jerwrite};
ghost use Rattle.lines.specs.Shown.{Shows};

use lines::shown::{put_bad_line, put_writing};
use lines::taken::{Taken, numbers_line, octets_line};
use slices::part;

// What is printed of a value table. 65,536 bytes of text are lent.
fn show(types: &[u32], names: &[u8], values: &[u32], pool: &[u8], out: &mut [u8]) -> usize
    ensures { Shows (write_shown types.now names.now values.now pool.now) 0 out.old result out.new }
{
    let mut text = [0u8; 65536];
    let w = writing::write(types, names, values, pool, &mut text);
    put_writing(out, w, &text)
}

// From the fourth line on, which begins at p.
fn fourth(types: &[u32], names: &[u8], values: &[u32], s: &[u8], p: usize, out: &mut [u8]) -> usize
    ensures { Shows (write_fourth types.now names.now values.now (drop p s.now)) 0 out.old result out.new }
{
    let mut pool = [0u8; 8192];
    let Some(Taken { count, .. }) = octets_line(s, p, &mut pool) else {
        return put_bad_line(out, 4);
    };
    show(types, names, values, part(&pool, 0, count), out)
}

// From the third line on, which begins at p.
fn third(types: &[u32], names: &[u8], s: &[u8], p: usize, out: &mut [u8]) -> usize
    ensures { Shows (write_third types.now names.now (drop p s.now)) 0 out.old result out.new }
{
    let mut values = [0u32; 2048];
    let Some(Taken { count, next }) = numbers_line(s, p, &mut values) else {
        return put_bad_line(out, 3);
    };
    fourth(types, names, part(&values, 0, count), s, next, out)
}

// From the second line on, which begins at p.
fn second(types: &[u32], s: &[u8], p: usize, out: &mut [u8]) -> usize
    ensures { Shows (write_second types.now (drop p s.now)) 0 out.old result out.new }
{
    let mut names = [0u8; 8192];
    let Some(Taken { count, next }) = octets_line(s, p, &mut names) else {
        return put_bad_line(out, 2);
    };
    third(types, part(&names, 0, count), s, next, out)
}

// What `jerwrite` prints for the input s.
pub fn answer(s: &[u8], out: &mut [u8]) -> usize
    ensures { Shows (jerwrite s.now) 0 out.old result out.new }
{
    let mut types = [0u32; 2048];
    let Some(Taken { count, next }) = numbers_line(s, 0, &mut types) else {
        return put_bad_line(out, 1);
    };
    second(part(&types, 0, count), s, next, out)
}
