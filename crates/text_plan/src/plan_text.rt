// The text of a plan, or of a refusal, written into a lent list.
ghost use Rattle.std.specs.Prelude.{◌≡◌, ◌+◌, ◌-◌, ◌≤◌, ◌<◌, length};
ghost use Rattle.words.specs.Rows.{tabulate, flat};
ghost use Rattle.words.specs.Widths.{cell_count, item_row_count, range_count};
ghost use Rattle.query_checks.specs.Checks.{shared_verdict};
ghost use Rattle.text_plan.specs.Inner.{Puts, row_line, Alike};
ghost use Rattle.text_plan.specs.Printed.{cell_lines, item_lines, shared_lines, printed, PrintedTo, plan_text, no_text};
ghost use Rattle.refusals.specs.Verdicts.{Fine};

use crate::printing::put_line;
use queries::shared;
use refusals::{Answer, Refusal, Refused, Verdict};
use words::widths::{cell, item, range};

fn put_cells(cells: &[u32], out: &mut [u8], at: usize) -> usize
    requires { (at < 1152921504606846976) × (cell_count cells.now ≤ 4096) }
    ensures { Puts (cell_lines cells.now) out.old at out.new result }
{
    let n = cells.len() / cell::WIDTH;
    let mut next = at;
    for i in 0..n {
        let ns = [
            i as u64,
            cells[cell::WIDTH * i] as u64,
            cells[cell::WIDTH * i + cell::ALIGN] as u64,
        ];
        next = put_line(out, next, b'C', &ns);
    }
    next
}

// The items from `base` on, by their place among them.
fn put_items(letter: u8, items: &[u32], base: usize, n: usize, out: &mut [u8], at: usize) -> usize
    requires { (at < 1152921504606846976) × (n ≤ 4096) × (base ≤ 4096) × (base + n ≤ item_row_count items.now) }
    ensures { Puts (item_lines letter items.now base n) out.old at out.new result }
{
    let mut next = at;
    for i in 0..n {
        let ns = [i as u64, items[item::WIDTH * (base + i)] as u64];
        next = put_line(out, next, letter, &ns);
    }
    next
}

// A part of the area list, as a shared local's.
fn put_area(areas: &[u32], local: u32, start: usize, n: usize, out: &mut [u8], at: usize) -> usize
    requires { (at < 1152921504606846976) × (range_count areas.now ≤ 65536) × (start + n ≤ range_count areas.now) }
    ensures { Puts (flat (tabulate n (λ j. row_line areas.now local (start + j)))) out.old at out.new result }
{
    let mut next = at;
    for j in 0..n {
        let k = range::WIDTH * (start + j);
        let ns = [local as u64, areas[k] as u64, areas[k + range::END] as u64];
        next = put_line(out, next, b'G', &ns);
    }
    next
}

// The areas of the locals that share their cell.
fn put_shared(
    cells: &[u32],
    items: &[u32],
    areas: &[u32],
    locals: u32,
    out: &mut [u8],
    at: usize,
) -> usize
    requires { (at < 1099511627776) × (locals ≤ 4096) × (range_count areas.now ≤ 65536) × (shared_verdict cells.now items.now areas.now locals ≡ Fine) }
    ensures { Puts (shared_lines cells.now items.now areas.now locals) out.old at out.new result × (result ≤ at + 34359738368) }
{
    let mut next = at;
    for i in 0..locals {
        // The plan was checked, so nothing is refused.
        let found = shared(cells, items, areas, locals, i).unwrap();
        if let Some(part) = found {
            next = put_area(areas, i, part.first, part.count, out, next);
        }
    }
    next
}

// All lines of a plan that was checked, as far as there is room; answers how many bytes they are.
fn put_plan(
    cells: &[u32],
    items: &[u32],
    areas: &[u32],
    locals: u32,
    probes: u64,
    depth: u64,
    out: &mut [u8],
) -> usize
    requires { shared_verdict cells.now items.now areas.now locals ≡ Fine }
    ensures { Puts (printed cells.now items.now areas.now locals probes depth) out.old 0 out.new result }
{
    let n = items.len() / item::WIDTH;
    let m = cells.len() / cell::WIDTH;
    let l = locals as usize;
    let a = put_cells(cells, out, 0);
    let b = put_items(b'L', items, 0, l, out, a);
    let c = put_items(b'S', items, l, n - l, out, b);
    let d = put_shared(cells, items, areas, locals, out, c);
    let ns = [m as u64, (n - m) as u64, probes, depth];
    put_line(out, d, b'T', &ns)
}

// The refusals of a plan that is lent, as `shared` gives them.
fn plan_verdict(cells: &[u32], items: &[u32], areas: &[u32], locals: u32) -> Verdict
    ensures { Alike result (shared_verdict cells.now items.now areas.now locals) }
{
    shared(cells, items, areas, locals, 0)?;
    Ok(())
}

// Writes the text of a plan: its cells, items, areas, probes and depth as the entries answer them. Refuses a plan as `shared` does (1 and 10), then a list that is
// shorter than the text (7).
pub fn print_plan(
    cells: &[u32],
    items: &[u32],
    areas: &[u32],
    locals: u32,
    probes: u64,
    depth: u64,
    out: &mut [u8],
) -> Answer
    ensures { PrintedTo (plan_text cells.now items.now areas.now locals probes depth (length out.old)) out.old result out.new }
{
    plan_verdict(cells, items, areas, locals)?;
    let mut scratch = [0; 1];
    let n = put_plan(cells, items, areas, locals, probes, depth, &mut scratch);
    if out.len() < n {
        return Err(Refused(Refusal::Space, 0));
    }
    put_plan(cells, items, areas, locals, probes, depth, out);
    Ok(n)
}

// Writes the text of a refusal. Refuses a list that is shorter than the text (7).
pub fn print_refusal(number: u32, index: u64, out: &mut [u8]) -> Answer
    ensures { PrintedTo (no_text number index (length out.old)) out.old result out.new }
{
    let ns = [number as u64, index];
    let mut scratch = [0; 1];
    let len = put_line(&mut scratch, 0, b'N', &ns);
    if out.len() < len {
        return Err(Refused(Refusal::Space, 0));
    }
    put_line(out, 0, b'N', &ns);
    Ok(len)
}
