// The planning program: a job's text on standard input, its plan or its refusal on standard output. It allows 64 records of each group, and its area list has
// 64 ranges.
#![tactic(auto)]

use planning::answer;
use reading::input;
use std::io;
use std::io::Print;
use text_grammar::{GROUP_COUNT, ROW_NUMBERS};

fn main(rt: HostRuntime) -> io::Result<()> {
    let stdout = rt.stdout();
    let mut rows = [0; ROW_NUMBERS];
    let mut counts = [0; GROUP_COUNT];
    let mut out = [0; 65536];
    let v = input(rt.stdin(), &mut rows, &mut counts)?;
    let n = answer(v, &rows, &counts, &mut out);
    stdout.write_all(&out[0..n])
}
