// Runs `spilled` and `moved` on the cases of standard input and prints what they answer and leave: held to the file `stdout`.
// Answer lists and work space have 7s at first, so that what is written past an answer, or by a refusal, shows.
// A case's name is that of its entry. The columns of `spilled`: V, slots, the lengths of the answer list and of the work space; assignments. Of `moved`: points, V,
// the slot, the lengths of the answer list and of the work space; blocks, instructions, operands, moves.
#![tactic(auto)]

use cases::Case;
use std::io;
use std::io::Stdout;

fn spilled(out: Stdout, case: &Case) -> io::Result<()> {
    let mut answer = [7u32; 16];
    let mut work = [7u64; 128];
    let most = case.number(2) as usize;
    let words = case.number(3) as usize;
    if most > 16 || words > 128 {
        return Ok(());
    }
    let answer = &mut answer[..most];
    let work = &mut work[..words];
    let a = spilled_registers::spilled(
        case.number(0),
        case.number(1) as usize,
        case.column(1),
        answer,
        work,
    );
    cases::given(out, a)?;
    cases::left(out, answer, work)
}

fn moved(out: Stdout, case: &Case) -> io::Result<()> {
    let mut answer = [7u32; 64];
    let mut work = [7u64; 512];
    let most = case.number(3) as usize;
    let words = case.number(4) as usize;
    if most > 64 || words > 512 {
        return Ok(());
    }
    let answer = &mut answer[..most];
    let work = &mut work[..words];
    let a = moved_ranges::moved(
        case.number(0),
        case.number(1),
        case.column(1),
        case.column(2),
        case.column(3),
        case.column(4),
        case.number(2),
        answer,
        work,
    );
    cases::given(out, a)?;
    cases::left(out, answer, work)
}

// Runs an entry, by the first letter of its name.
fn run(out: Stdout, case: &Case) -> io::Result<()> {
    match case.letter {
        b's' => spilled(out, case),
        _ => moved(out, case),
    }
}

fn main(rt: HostRuntime) -> io::Result<()> {
    let out = rt.stdout();
    let mut text = [0; 8192];
    cases::each(rt.stdin(), out, &mut text, |case| run(out, case))
}
