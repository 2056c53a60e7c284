// Runs `reach` on each case of standard input, and `carried` for each of its locals and for one past the end, and prints what they answer and leave: held to
// the file `stdout`. Answer list and work space have 7s at first, so that what is written past an answer, or by a refusal, shows.
// The columns of a case: points, V, the length of the answer list and of the work space; blocks, instructions, operands, crossings, locals, addresses, ends.
#![tactic(auto)]

use cases::Case;
use refusals::Refused;
use std::io;
use std::io::{Print, Stdout};

fn listed(out: Stdout, c: Result<Option<usize>, Refused>) -> io::Result<()> {
    match c {
        Ok(Some(n)) => cases::counted(out, n),
        Ok(None) => print!(out; " absent:"),
        Err(Refused(r, i)) => cases::refused(out, r, i),
    }
}

// Asks for the kinds of all locals, and then for the registers that carry the address of one, by its place counted from 1.
fn ask(out: Stdout, case: &Case, l: usize, answer: &mut [u32], work: &mut [u64]) -> io::Result<()> {
    let points = case.number(0);
    let v = case.number(1);
    let blocks = case.column(1);
    let insts = case.column(2);
    let operands = case.column(3);
    let crossings = case.column(4);
    let locals = case.column(5);
    let addresses = case.column(6);
    let ends = case.column(7);
    if l == 0 {
        print!(out; " reach")?;
        let a = local_kinds::reach(
            points, v, blocks, insts, operands, crossings, locals, addresses, ends, answer, work,
        );
        return cases::given(out, a);
    }
    let local = l - 1;
    print!(out; " carried({local})")?;
    let c = carried_registers::carried(
        points, v, blocks, insts, operands, crossings, locals, addresses, ends, local, answer, work,
    );
    listed(out, c)
}

// In lists of these lengths, and shows what is left.
fn turn(out: Stdout, case: &Case, l: usize) -> io::Result<()> {
    let mut answer = [7u32; 16];
    let mut work = [7u64; 2304];
    let most = case.number(2) as usize;
    let words = case.number(3) as usize;
    if most > 16 || words > 2304 {
        return Ok(());
    }
    let answer = &mut answer[..most];
    let work = &mut work[..words];
    ask(out, case, l, answer, work)?;
    cases::left(out, answer, work)
}

fn run(out: Stdout, case: &Case) -> io::Result<()> {
    for l in 0..2 + case.column(5).len() / 2 {
        turn(out, case, l)?;
    }
    Ok(())
}

fn main(rt: HostRuntime) -> io::Result<()> {
    let out = rt.stdout();
    let mut text = [0; 12288];
    cases::each(rt.stdin(), out, &mut text, |case| run(out, case))
}
