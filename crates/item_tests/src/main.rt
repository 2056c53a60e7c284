// Runs `item_areas` on each case of standard input and prints what it answers and leaves: held to the file `stdout`.
// Answer lists and work space have 7s at first, so that what is written past an answer, or by a refusal, shows.
// The columns of a case: points, V, the lengths of the area list, of the item list and of the work space; then the records of a job, in the job text's group order.
#![tactic(auto)]

use cases::Case;
use std::io;
use std::io::Stdout;

// The areas of a case's records.
fn answer(
    out: Stdout,
    case: &Case,
    areas: &mut [u32],
    items: &mut [u32],
    work: &mut [u64],
) -> io::Result<()> {
    let a = item_areas::item_areas(
        case.number(0),
        case.number(1),
        case.column(1),
        case.column(2),
        case.column(3),
        case.column(4),
        case.column(5),
        case.column(6),
        case.column(7),
        case.column(8),
        case.column(9),
        case.column(10),
        case.column(11),
        case.column(12),
        areas,
        items,
        work,
    );
    cases::given(out, a)?;
    cases::listed(out, areas)?;
    cases::left(out, items, work)
}

// In lists of these lengths.
fn run(out: Stdout, case: &Case) -> io::Result<()> {
    let mut areas = [7u32; 128];
    let mut items = [7u32; 256];
    let mut work = [7u64; 4096];
    let a = case.number(2) as usize;
    let i = case.number(3) as usize;
    let w = case.number(4) as usize;
    if a > 128 || i > 256 || w > 4096 {
        return Ok(());
    }
    answer(out, case, &mut areas[..a], &mut items[..i], &mut work[..w])
}

fn main(rt: HostRuntime) -> io::Result<()> {
    let out = rt.stdout();
    let mut text = [0; 32768];
    cases::each(rt.stdin(), out, &mut text, |case| run(out, case))
}
