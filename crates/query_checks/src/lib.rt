// The refusals of the queries: numbers 1, 7 and 10, in this order.
#![tactic(auto)]

ghost use Rattle.std.specs.Prelude.{◌≡◌, ◌||◌, ◌+◌};
ghost use Rattle.query_checks.specs.Checks.{bad_count, items_verdict, plan_verdict, bad_areas, outside, parts_verdict, shared_verdict, crowded_verdict};

use refusals::{Refusal, Refused, Verdict};
use words::widths::{cell, item, range};

// The most locals, slots and ranges.
const MOST: usize = 2048;

const RANGES: usize = 65536;

// Whether a list is no whole rows, or a count is over its limit.
fn bad_count(cells: &[u32], items: &[u32], locals: u32) -> bool
    ensures { result ≡ bad_count cells.now items.now locals }
{
    if cells.len() % cell::WIDTH != 0 {
        return true;
    }
    if items.len() % item::WIDTH != 0 {
        return true;
    }
    let n = items.len() / item::WIDTH;
    let l = locals as usize;
    if n < l {
        return true;
    }
    if MOST < l {
        return true;
    }
    MOST < n - l
}

// The first item that names no cell.
fn items_named(cells: &[u32], items: &[u32]) -> Verdict
    ensures { result ≡ items_verdict cells.now items.now }
{
    let count = cells.len() / cell::WIDTH;
    let n = items.len() / item::WIDTH;
    for i in 0..n {
        if count <= items[item::WIDTH * i] as usize {
            return Err(Refused(Refusal::Want, i));
        }
    }
    Ok(())
}

// Of a plan that is lent.
pub fn plan(cells: &[u32], items: &[u32], locals: u32) -> Verdict
    ensures { result ≡ plan_verdict cells.now items.now locals }
{
    if bad_count(cells, items, locals) {
        return Err(Refused(Refusal::Count, 0));
    }
    items_named(cells, items)?;
    if items.len() / item::WIDTH < cells.len() / cell::WIDTH {
        return Err(Refused(Refusal::Want, items.len() / item::WIDTH));
    }
    Ok(())
}

// Whether an area list is no whole rows, or over its limit.
fn bad_areas(areas: &[u32]) -> bool
    ensures { result ≡ bad_areas areas.now }
{
    if areas.len() % range::WIDTH != 0 {
        return true;
    }
    RANGES < areas.len() / range::WIDTH
}

// Whether a list of a plan with its areas is no whole rows, or a count is over its limit: number 1 of `shared`.
pub fn counts(cells: &[u32], items: &[u32], areas: &[u32], locals: u32) -> bool
    ensures { result ≡ bad_count cells.now items.now locals || bad_areas areas.now }
{
    if bad_count(cells, items, locals) {
        return true;
    }
    bad_areas(areas)
}

// Whether a part is outside a list of so many ranges.
fn part_outside(ranges: usize, present: u32, first: u32, count: u32) -> bool
    ensures { result ≡ outside ranges present first count }
{
    if present == 0 {
        return false;
    }
    ranges < first as usize + count as usize
}

// The first item that names no cell, or a part outside a list of so many ranges.
fn items_within(cells: &[u32], items: &[u32], ranges: usize) -> Verdict
    ensures { result ≡ parts_verdict cells.now items.now ranges }
{
    let count = cells.len() / cell::WIDTH;
    let n = items.len() / item::WIDTH;
    for i in 0..n {
        let at = item::WIDTH * i;
        if count <= items[at] as usize {
            return Err(Refused(Refusal::Want, i));
        }
        if part_outside(
            ranges,
            items[at + item::PRESENT],
            items[at + item::FIRST],
            items[at + item::RANGES],
        ) {
            return Err(Refused(Refusal::Want, i));
        }
    }
    Ok(())
}

// Of `shared`.
pub fn parts(cells: &[u32], items: &[u32], areas: &[u32], locals: u32) -> Verdict
    ensures { result ≡ shared_verdict cells.now items.now areas.now locals }
{
    if counts(cells, items, areas, locals) {
        return Err(Refused(Refusal::Count, 0));
    }
    items_within(cells, items, areas.len() / range::WIDTH)?;
    if items.len() / item::WIDTH < cells.len() / cell::WIDTH {
        return Err(Refused(Refusal::Want, items.len() / item::WIDTH));
    }
    Ok(())
}

// Of `crowded`, by the length of its answer list.
pub fn crowd(cells: &[u32], items: &[u32], locals: u32, room: usize) -> Verdict
    ensures { result ≡ crowded_verdict cells.now items.now locals room }
{
    if bad_count(cells, items, locals) {
        return Err(Refused(Refusal::Count, 0));
    }
    if room < items.len() / item::WIDTH - locals as usize {
        return Err(Refused(Refusal::Space, 0));
    }
    plan(cells, items, locals)
}
