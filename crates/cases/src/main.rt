// Runs the stored cases through the calls and the programs. The input comes in parts: a line with the part's kind and its number of cases,
// then the cases, each some lines of hexadecimal; second/README.md says which, and how each is answered.
// Lines stand in arrays, counted: the program has no heap.
#![tactic(auto)]

use jer::{Counts, Refusal};
use lines::shown::{put_judged, put_reading, put_writing};
use slices::part;
use std::io::{self, Write};
use stdin::{Input, Line, numbers, octets, single};

// What the cases of a part are given to.
#[derive(Clone, Copy)]
enum Part {
    Table,
    Text,
    Read,
    Write,
    JerRead,
    JerWrite,
}

impl From<u32> for Part {
    fn from(kind: u32) -> Part {
        match kind {
            0 => Part::Table,
            1 => Part::Text,
            2 => Part::Read,
            3 => Part::Write,
            4 => Part::JerRead,
            _ => Part::JerWrite,
        }
    }
}

// A type table and its names: judged.
fn table_case(rt: HostRuntime, buf: &mut [u8], input: Input) -> io::Result<Line> {
    let mut rows = [0u32; 33000];
    let a = numbers(&mut rt.stdin(), buf, input, &mut rows);
    let mut names = [0u8; 65600];
    let at = a.input;
    let b = octets(&mut rt.stdin(), buf, at, &mut names);
    let judged = types::check(part(&rows, 0, a.count), part(&names, 0, b.count));
    let mut out = [0u8; 21];
    let k = put_judged(&mut out, judged);
    rt.stdout().write_all(part(&out, 0, k))?;
    Ok(b)
}

// A text: judged.
fn text_case(rt: HostRuntime, buf: &mut [u8], input: Input) -> io::Result<Line> {
    let mut text = [0u8; 65600];
    let a = octets(&mut rt.stdin(), buf, input, &mut text);
    let mut out = [0u8; 21];
    let k = put_judged(&mut out, text::check(part(&text, 0, a.count)));
    rt.stdout().write_all(part(&out, 0, k))?;
    Ok(a)
}

// Reads into the first n numbers and m bytes of what is lent, and prints the answer.
fn read_answer(
    rt: HostRuntime,
    types: &[u32],
    names: &[u8],
    text: &[u8],
    n: usize,
    m: usize,
) -> io::Result<()> {
    let mut rows = [0u32; 16384];
    let mut pool = [0u8; 16384];
    let r = read_in(types, names, text, &mut rows, &mut pool, n, m);
    let mut out = [0u8; 168000];
    let k = put_reading(&mut out, r, &rows, &pool);
    rt.stdout().write_all(part(&out, 0, k))
}

fn read_in(
    types: &[u32],
    names: &[u8],
    text: &[u8],
    rows: &mut [u32],
    pool: &mut [u8],
    n: usize,
    m: usize,
) -> Result<Counts, Refusal> {
    if rows.len() < n || pool.len() < m {
        return reading::read(types, names, text, rows, pool);
    }
    reading::read(types, names, text, &mut rows[..n], &mut pool[..m])
}

// The text of a case, the room for its rows and pool, and its answer.
fn read_text(
    rt: HostRuntime,
    buf: &mut [u8],
    input: Input,
    types: &[u32],
    names: &[u8],
) -> io::Result<Line> {
    let mut text = [0u8; 65600];
    let c = octets(&mut rt.stdin(), buf, input, &mut text);
    let at = c.input;
    let n = single(&mut rt.stdin(), buf, at);
    let next = n.input;
    let m = single(&mut rt.stdin(), buf, next);
    read_answer(rt, types, names, part(&text, 0, c.count), n.count, m.count)?;
    Ok(m)
}

// Writes into the first n bytes of what is lent, and prints the answer.
fn write_answer(
    rt: HostRuntime,
    types: &[u32],
    names: &[u8],
    values: &[u32],
    pool: &[u8],
    n: usize,
) -> io::Result<()> {
    let mut text = [0u8; 65536];
    let w = write_in(types, names, values, pool, &mut text, n);
    let mut out = [0u8; 131200];
    let k = put_writing(&mut out, w, &text);
    rt.stdout().write_all(part(&out, 0, k))
}

fn write_in(
    types: &[u32],
    names: &[u8],
    values: &[u32],
    pool: &[u8],
    text: &mut [u8],
    n: usize,
) -> Result<usize, Refusal> {
    if text.len() < n {
        return writing::write(types, names, values, pool, text);
    }
    writing::write(types, names, values, pool, &mut text[..n])
}

// The value table of a case, its pool, the room for its text, and its answer.
fn write_values(
    rt: HostRuntime,
    buf: &mut [u8],
    input: Input,
    types: &[u32],
    names: &[u8],
) -> io::Result<Line> {
    let mut values = [0u32; 4096];
    let c = numbers(&mut rt.stdin(), buf, input, &mut values);
    let mut pool = [0u8; 16384];
    let at = c.input;
    let d = octets(&mut rt.stdin(), buf, at, &mut pool);
    let next = d.input;
    let n = single(&mut rt.stdin(), buf, next);
    write_answer(
        rt,
        types,
        names,
        part(&values, 0, c.count),
        part(&pool, 0, d.count),
        n.count,
    )?;
    Ok(n)
}

// A type table and its names, and then a text to be read or a value table to be written: `one` gives it these two parts alone.
fn call_case(rt: HostRuntime, buf: &mut [u8], input: Input, kind: Part) -> io::Result<Line> {
    let mut types = [0u32; 33000];
    let a = numbers(&mut rt.stdin(), buf, input, &mut types);
    let mut names = [0u8; 65600];
    let at = a.input;
    let b = octets(&mut rt.stdin(), buf, at, &mut names);
    let next = b.input;
    let rows = part(&types, 0, a.count);
    let bytes = part(&names, 0, b.count);
    match kind {
        Part::Read => read_text(rt, buf, next, rows, bytes),
        _ => write_values(rt, buf, next, rows, bytes),
    }
}

// The whole standard input of `jerread`: what it prints.
fn jerread_case(rt: HostRuntime, buf: &mut [u8], input: Input) -> io::Result<Line> {
    let mut given = [0u8; 65600];
    let a = octets(&mut rt.stdin(), buf, input, &mut given);
    let mut out = [0u8; 168000];
    let k = shell::reads::answer(part(&given, 0, a.count), &mut out);
    rt.stdout().write_all(part(&out, 0, k))?;
    Ok(a)
}

// The same of `jerwrite`, which has other room for what it prints.
fn jerwrite_case(rt: HostRuntime, buf: &mut [u8], input: Input) -> io::Result<Line> {
    let mut given = [0u8; 65600];
    let a = octets(&mut rt.stdin(), buf, input, &mut given);
    let mut out = [0u8; 131200];
    let k = shell::writes::answer(part(&given, 0, a.count), &mut out);
    rt.stdout().write_all(part(&out, 0, k))?;
    Ok(a)
}

// Answers the next case of a part.
fn one(rt: HostRuntime, buf: &mut [u8], input: Input, kind: Part) -> io::Result<Line> {
    match kind {
        Part::Table => table_case(rt, buf, input),
        Part::Text => text_case(rt, buf, input),
        Part::Read | Part::Write => call_case(rt, buf, input, kind),
        Part::JerRead => jerread_case(rt, buf, input),
        Part::JerWrite => jerwrite_case(rt, buf, input),
    }
}

// Answers the cases of a part.
fn cases(
    rt: HostRuntime,
    buf: &mut [u8],
    input: Input,
    kind: Part,
    count: u32,
) -> io::Result<Input> {
    let mut at = input;
    for _ in 0..count {
        let line = one(rt, buf, at, kind)?;
        at = line.input;
    }
    Ok(at)
}

// Nothing says that the input ends: the loop takes no more turns than a number that no run uses up.
fn main(rt: HostRuntime) -> io::Result<()> {
    let mut buf = [0u8; 65536];
    let mut input = Input { at: 0, end: 0 };
    for _ in 0..u32::MAX {
        let mut head = [0u32; 3];
        let line = numbers(&mut rt.stdin(), &mut buf, input, &mut head);
        if line.over {
            return Ok(());
        }
        let at = line.input;
        input = cases(rt, &mut buf, at, Part::from(head[0]), head[1])?;
    }
    Ok(())
}
