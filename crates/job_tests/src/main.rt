// Replays a recorded sample: runs `share` on each job of standard input and prints what it answers and leaves, held to the file `stdout`, which was recorded from slots.rs
// and a model of the refusals. Answer lists and work space have 7s at first, so that what is written past an answer, or by a refusal, shows. The last line counts what
// the plans show.
// The columns of a case: points, V, budget, the lengths of the cell, the item, the area and the offset list and of the work space; then the records of a job, in the job text's group order.
#![tactic(auto)]

use cases::Case;
use fitting::Terms;
use job::Tally;
use job_space::Head;
use refusals::Refused;
use std::io;
use std::io::{Print, Stdout};
use words::widths::moving;

// How many plans there are, and how many of them have fewer cells than items, spent as many probes as the budget has, have an ending local, over 64 locals, and a move that
// names a slot. There are fewer cases than bytes of text, so that no count wraps.
#[derive(Clone, Copy, Default)]
struct Counts {
    plans: u32,
    sharing: u32,
    spent: u32,
    ending: u32,
    wide: u32,
    moving: u32,
}

// What one plan shows of these.
#[derive(Clone, Copy)]
struct Shown {
    sharing: bool,
    spent: bool,
    ending: bool,
    wide: bool,
    moving: bool,
}

fn told(out: Stdout, s: Result<Tally, Refused>) -> io::Result<()> {
    match s {
        Ok(
            Tally {
                cells,
                probes,
                depth,
            },
        ) => {
            print!(out; " plan")?;
            cases::plan(out, cells, probes, depth)?;
        }
        Err(Refused(r, i)) => cases::refused(out, r, i)?,
    }
    Ok(())
}

// How many words are as they were, and what the lists hold.
fn show(
    out: Stdout,
    cells: &[u32],
    items: &[u32],
    areas: &[u32],
    offsets: &[i32],
    work: &[u64],
) -> io::Result<()> {
    let kept = work.iter().filter(|w| **w == 7).count();
    print!(out; " {kept} |")?;
    cases::listed(out, cells)?;
    cases::listed(out, items)?;
    cases::listed(out, areas)?;
    cases::left(out, offsets, work)
}

// What `share` answers for the records of a case.
fn shared(
    case: &Case,
    cells: &mut [u32],
    items: &mut [u32],
    areas: &mut [u32],
    offsets: &mut [i32],
    work: &mut [u64],
) -> Result<Tally, Refused> {
    let budget = case.number(2);
    job::share(
        Head {
            points: case.number(0),
            v: case.number(1),
            terms: Terms { budget },
        },
        case.column(1),
        case.column(2),
        case.column(3),
        case.column(4),
        case.column(5),
        case.column(6),
        case.column(7),
        case.column(8),
        case.column(9),
        case.column(10),
        case.column(11),
        case.column(12),
        cells,
        items,
        areas,
        offsets,
        work,
    )
}

// Whether a local of these records ends; a refusal leaves the kinds as they were.
fn ending(case: &Case) -> bool {
    let mut kinds = [7u32; 160];
    let mut work = [7u64; 4096];
    let _ = local_kinds::reach(
        case.number(0),
        case.number(1),
        case.column(1),
        case.column(3),
        case.column(4),
        case.column(5),
        case.column(6),
        case.column(8),
        case.column(9),
        &mut kinds,
        &mut work,
    );
    kinds.contains(&2)
}

// Whether a row of these moves names one of so many slots.
fn moving(moves: &[u32], slots: usize) -> bool {
    let mut rows = moves.chunks_exact(moving::WIDTH);
    rows.any(|m| (m[moving::TO] as usize) < slots || (m[moving::FROM] as usize) < slots)
}

fn shows(cells: usize, probes: u64, case: &Case) -> Shown {
    let locals = case.column(6).len() / 2;
    let slots = case.column(7).len();
    Shown {
        sharing: cells < locals + slots,
        spent: probes == case.number(2) as u64,
        ending: ending(case),
        wide: locals > 64,
        moving: moving(case.column(12), slots),
    }
}

// One more where it is so.
fn more(n: u32, so: bool) -> u32 {
    if so {
        return ((n as u64 + 1) % 0x1_0000_0000) as u32;
    }
    n
}

fn added(t: Counts, s: Shown) -> Counts {
    Counts {
        plans: more(t.plans, true),
        sharing: more(t.sharing, s.sharing),
        spent: more(t.spent, s.spent),
        ending: more(t.ending, s.ending),
        wide: more(t.wide, s.wide),
        moving: more(t.moving, s.moving),
    }
}

fn plan(
    out: Stdout,
    case: &Case,
    t: Counts,
    cells: &mut [u32],
    items: &mut [u32],
    areas: &mut [u32],
    offsets: &mut [i32],
    work: &mut [u64],
) -> io::Result<Counts> {
    let s = shared(case, cells, items, areas, offsets, work);
    told(out, s)?;
    show(out, cells, items, areas, offsets, work)?;
    Ok(match s {
        Ok(
            Tally {
                cells,
                probes,
                depth: _,
            },
        ) => added(t, shows(cells, probes, case)),
        Err(Refused(_, _)) => t,
    })
}

// In lists of these lengths; the counts with its answer.
fn run(out: Stdout, case: &Case, t: Counts) -> io::Result<Counts> {
    let mut cells = [7u32; 160];
    let mut items = [7u32; 320];
    let mut areas = [7u32; 128];
    let mut offsets = [7i32; 80];
    let mut work = [7u64; 4096];
    let c = case.number(3) as usize;
    let i = case.number(4) as usize;
    let a = case.number(5) as usize;
    let o = case.number(6) as usize;
    let w = case.number(7) as usize;
    if c > 160 || i > 320 || a > 128 || o > 80 || w > 4096 {
        return Ok(t);
    }
    plan(
        out,
        case,
        t,
        &mut cells[..c],
        &mut items[..i],
        &mut areas[..a],
        &mut offsets[..o],
        &mut work[..w],
    )
}

fn summed(out: Stdout, t: Counts) -> io::Result<()> {
    let Counts {
        plans,
        sharing,
        spent,
        ending,
        wide,
        moving,
    } = t;
    println!(out;
        "plans {plans}: a shared cell {sharing}, the budget spent {spent}, an ending local {ending}, over 64 locals {wide}, a move of a slot {moving}"
    )
}

fn main(rt: HostRuntime) -> io::Result<()> {
    let out = rt.stdout();
    let mut text = [0; 98304];
    let mut t = Counts::default();
    cases::each(rt.stdin(), out, &mut text, |case| {
        t = run(out, case, t)?;
        Ok(())
    })?;
    summed(out, t)
}
