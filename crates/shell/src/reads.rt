// `jerread`, line by line: type table, names, text.
ghost use Rattle.std.specs.Prelude.{drop};
ghost use Rattle.jer.specs.Programs.{read_shown, read_third, read_second, jerread};
ghost use Rattle.lines.specs.Shown.{Shows};

use lines::shown::{put_bad_line, put_reading};
use lines::taken::{Taken, numbers_line, octets_line};
use slices::part;

// What is printed of a text. 4,096 rows and 16,384 pool bytes are lent.
fn show(types: &[u32], names: &[u8], text: &[u8], out: &mut [u8]) -> usize
    ensures { Shows (read_shown types.now names.now text.now) 0 out.old result out.new }
{
    let mut rows = [0u32; 16384];
    let mut pool = [0u8; 16384];
    let r = reading::read(types, names, text, &mut rows, &mut pool);
    put_reading(out, r, &rows, &pool)
}

// From the third line on, which begins at p.
fn third(types: &[u32], names: &[u8], s: &[u8], p: usize, out: &mut [u8]) -> usize
    ensures { Shows (read_third types.now names.now (drop p s.now)) 0 out.old result out.new }
{
    let mut text = [0u8; 8192];
    let Some(Taken { count, .. }) = octets_line(s, p, &mut text) else {
        return put_bad_line(out, 3);
    };
    show(types, names, part(&text, 0, count), out)
}

// From the second line on, which begins at p.
fn second(types: &[u32], s: &[u8], p: usize, out: &mut [u8]) -> usize
    ensures { Shows (read_second types.now (drop p s.now)) 0 out.old result out.new }
{
    let mut names = [0u8; 8192];
    let Some(Taken { count, next }) = octets_line(s, p, &mut names) else {
        return put_bad_line(out, 2);
    };
    third(types, part(&names, 0, count), s, next, out)
}

// What `jerread` prints for the input s.
pub fn answer(s: &[u8], out: &mut [u8]) -> usize
    ensures { Shows (jerread s.now) 0 out.old result out.new }
{
    let mut types = [0u32; 2048];
    let Some(Taken { count, next }) = numbers_line(s, 0, &mut types) else {
        return put_bad_line(out, 1);
    };
    second(part(&types, 0, count), s, next, out)
}
