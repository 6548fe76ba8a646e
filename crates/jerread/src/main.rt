// `jerread`: three lines of hexadecimal on standard input, type table, names and text; prints the value rows and the pool, or the refusal.
#![tactic(auto)]

use shell::reads::answer;
use slices::part;
use std::io::{self, Write};
use stdin::collect;

// 4,096 rows, a pool of 16,384 bytes and their line feeds are 167,937 bytes at the most.
fn main(rt: HostRuntime) -> io::Result<()> {
    let mut input = [0u8; 49200];
    let n = collect(&mut rt.stdin(), 3, &mut input);
    let mut out = [0u8; 168000];
    let k = answer(part(&input, 0, n), &mut out);
    rt.stdout().write_all(part(&out, 0, k))
}
