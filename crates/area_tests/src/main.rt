// Runs `local_areas` on each case of standard input and prints what it answers and leaves: held to the file `stdout`.
// Answer lists and work space have 7s at first, so that what is written past an answer, or by a refusal, shows.
// The columns of a case: points, the lengths of the area list, of the item list and of the work space; blocks, edges, kinds, touches, ends.
#![tactic(auto)]

use cases::Case;
use std::io;
use std::io::Stdout;

// The areas of a case's records.
fn answer(
    out: Stdout,
    case: &Case,
    areas: &mut [u32],
    items: &mut [u32],
    work: &mut [u64],
) -> io::Result<()> {
    let a = area_entries::local_areas(
        case.column(1),
        case.column(2),
        case.number(0),
        case.column(3),
        case.column(4),
        case.column(5),
        areas,
        items,
        work,
    );
    cases::given(out, a)?;
    cases::listed(out, areas)?;
    cases::left(out, items, work)
}

// In lists of these lengths.
fn run(out: Stdout, case: &Case) -> io::Result<()> {
    let mut areas = [7u32; 80];
    let mut items = [7u32; 240];
    let mut work = [7u64; 2048];
    let a = case.number(1) as usize;
    let i = case.number(2) as usize;
    let w = case.number(3) as usize;
    if a > 80 || i > 240 || w > 2048 {
        return Ok(());
    }
    answer(out, case, &mut areas[..a], &mut items[..i], &mut work[..w])
}

fn main(rt: HostRuntime) -> io::Result<()> {
    let out = rt.stdout();
    let mut text = [0; 8192];
    cases::each(rt.stdin(), out, &mut text, |case| run(out, case))
}
