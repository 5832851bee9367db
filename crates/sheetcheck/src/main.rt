// `sheetcheck`: checks the program that standard input holds for confluence, and prints the pass, an unjoined overlap or the refusal.
// 40,000 bytes decide every longer input (`check-prefix-decides`, crates/replies/proofs/Prefix.antt).
#![tactic(auto)]

use std::io;
use std::io::Write;

// Writes what is printed on an input.
// `sheetrun` has the same by `put_run`: one for both would take a closure and its promise, and be no shorter.
fn answer(rt: &impl Print, input: &[u8]) -> io::Result<()> {
    let mut out = [0u8; 32768];
    let n = roketuma::put_check(input, &mut out);
    io::writer(rt).write_all(&out[..n])
}

fn main(rt: HostRuntime) -> io::Result<()> {
    let mut input = [0u8; 40000];
    let n = streams::read_full(&mut rt.reader(), &mut input)?;
    answer(&rt, &input[..n])
}
