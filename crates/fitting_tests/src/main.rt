// Runs fitting alone and the queries on the cases of standard input and prints what they answer and leave: held to the file `stdout`.
// Answer lists and work space have 7s at first, so that what is written past an answer, or by a refusal, shows. A fit's line: cells, probes and depth; the list of cells; the list of items;
// the list of offsets; how many words of the work space are zero. The cells and the items' cells of every fit that is not refused are those that `fit` of slots.rs gives for the same wants.
// A case's name is that of what it asks. The columns of `fit`: locals, budget; wants, areas. Of `local`, which asks for locals 0 and 2, slots 0 and 2 and what is saved, of `shared`, which asks
// for locals 0, 1 and 2, and of `crowded`: locals; cells, items, areas. Of `apart`: none; locals, slots. Of `cap`: how many cells, the largest alignment.
// The cases of `fit`: the three wants of star 9, whose areas do not clash, with three budgets; alignment, then size, then index, and the size and the alignment of a cell are the largest of its
// members; a want without area opens a cell, spends nothing, and its cell still costs a probe; an empty area clashes with none; nothing; four counts that are refused; more items than the lists
// take, and a work space under W; four wants that are refused. Of the layout: two wants in one cell of alignment 8, and with no budget in two, of which the second's is 3;
// cells with padding; a cell of size 0; the deepest cell; one too deep; a cell too deep before one whose alignment is 3.
// Then two locals and two slots in two cells, where local 1 is alone: its places, shares and crowded slots, and those of a plan
// without locals. Places refused: a row cut short, more locals than items, an item that names no cell, more cells than items. Shares refused: an area list cut short, a part outside it before an
// item that names no cell, more cells than items. Crowded slots refused: a row cut short; a list under the slots comes before an item that names no cell; such an item. Then `apart` and `cap`.
#![tactic(auto)]

use cases::Case;
use fitting::Terms;
use queries::Stretch;
use refusals::{Answer, Refused};
use std::io;
use std::io::{Print, Stdout};
use wants::Tally;

fn fitted(out: Stdout, f: Result<Tally, Refused>) -> io::Result<()> {
    match f {
        Ok(
            Tally {
                cells,
                probes,
                depth,
            },
        ) => cases::plan(out, cells, probes, depth),
        Err(Refused(r, i)) => cases::refused(out, r, i),
    }
}

fn fit(out: Stdout, wants: &[u32], areas: &[u32], locals: u32, budget: u32) -> io::Result<()> {
    let mut cells = [7u32; 8];
    let mut items = [7u32; 16];
    let mut offsets = [7i32; 4];
    let mut work = [7u64; 60];
    let f = wants::fit_wants(
        wants,
        areas,
        locals,
        Terms { budget },
        &mut cells,
        &mut items,
        &mut offsets,
        &mut work,
    );
    fitted(out, f)?;
    cases::listed(out, &cells)?;
    cases::listed(out, &items)?;
    cases::left(out, &offsets, &work)
}

fn none(out: Stdout) -> io::Result<()> {
    print!(out; " -")
}

fn placed(out: Stdout, p: Result<Option<usize>, Refused>) -> io::Result<()> {
    match p {
        Ok(Some(c)) => print!(out; " {c}"),
        Ok(None) => none(out),
        Err(Refused(r, i)) => cases::bad(out, r, i),
    }
}

fn saved(out: Stdout, s: Answer) -> io::Result<()> {
    match s {
        Ok(n) => print!(out; " {n}"),
        Err(Refused(r, i)) => cases::bad(out, r, i),
    }
}

fn places(out: Stdout, cells: &[u32], items: &[u32], locals: u32) -> io::Result<()> {
    placed(out, queries::local(cells, items, locals, 0))?;
    placed(out, queries::local(cells, items, locals, 2))?;
    print!(out; " slot")?;
    placed(out, queries::slot(cells, items, locals, 0))?;
    placed(out, queries::slot(cells, items, locals, 2))?;
    print!(out; " saved")?;
    saved(out, queries::saved(cells, items, locals))
}

fn shared(out: Stdout, s: Result<Option<Stretch>, Refused>) -> io::Result<()> {
    match s {
        Ok(Some(Stretch { first, count: n })) => print!(out; " {first} {n}")?,
        Ok(None) => none(out)?,
        Err(Refused(r, i)) => cases::bad(out, r, i)?,
    }
    print!(out; ";")
}

fn shares(out: Stdout, cells: &[u32], items: &[u32], areas: &[u32], locals: u32) -> io::Result<()> {
    shared(out, queries::shared(cells, items, areas, locals, 0))?;
    shared(out, queries::shared(cells, items, areas, locals, 1))?;
    shared(out, queries::shared(cells, items, areas, locals, 2))
}

fn crowd(out: Stdout, c: Answer) -> io::Result<()> {
    match c {
        Ok(n) => cases::counted(out, n),
        Err(Refused(r, i)) => cases::refused(out, r, i),
    }
}

fn crowded(out: Stdout, cells: &[u32], items: &[u32], locals: u32) -> io::Result<()> {
    let mut slots = [7u32; 3];
    crowd(out, queries::crowded(cells, items, locals, &mut slots))?;
    cases::show(out, &slots)
}

fn apart(out: Stdout, locals: &[u32], slots: &[u32]) -> io::Result<()> {
    let mut cells = [7u32; 6];
    let mut items = [7u32; 12];
    cases::verdict(out, apart::apart(locals, slots, &mut cells, &mut items))?;
    cases::listed(out, &cells)?;
    cases::show(out, &items)
}

fn cap(out: Stdout, count: u32, most: u32) -> io::Result<()> {
    let mut cells = [4u32, 16, 8, 8, 32, 32];
    cases::verdict(out, capping::cap(&mut cells, count, most))?;
    cases::show(out, &cells)
}

// Runs what a case asks, by the first letter of its name. `crowded` and `cap` begin with the same letter: `cap` is lent no list.
fn run(out: Stdout, case: &Case) -> io::Result<()> {
    let a = case.column(1);
    let b = case.column(2);
    let c = case.column(3);
    let x = case.number(0);
    let y = case.number(1);
    match case.letter {
        b'f' => return fit(out, a, b, x, y),
        b'l' => places(out, a, b, x)?,
        b's' => shares(out, a, b, c, x)?,
        b'a' => apart(out, a, b)?,
        _ if a.is_empty() => cap(out, x, y)?,
        _ => crowded(out, a, b, x)?,
    }
    println!(out)
}

fn main(rt: HostRuntime) -> io::Result<()> {
    let out = rt.stdout();
    let mut text = [0; 4096];
    cases::each(rt.stdin(), out, &mut text, |case| run(out, case))
}
