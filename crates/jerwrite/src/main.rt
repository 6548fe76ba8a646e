// `jerwrite`: four lines of hexadecimal on standard input, type table, names, value rows and pool; prints the text, or the refusal.
#![tactic(auto)]

use shell::writes::answer;
use slices::part;
use std::io::{self, Write};
use stdin::collect;

// A text of 65,536 bytes and its line feed are 131,073 bytes.
fn main(rt: HostRuntime) -> io::Result<()> {
    let mut input = [0u8; 65600];
    let n = collect(&mut rt.stdin(), 4, &mut input);
    let mut out = [0u8; 131200];
    let k = answer(part(&input, 0, n), &mut out);
    rt.stdout().write_all(part(&out, 0, k))
}
