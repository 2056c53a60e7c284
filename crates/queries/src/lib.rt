// The queries of a plan that is lent: cells as rows of size and alignment, items as rows of cell, present, first and count, the locals first.
#![tactic(auto)]

ghost use Rattle.std.specs.Prelude.{◌≡◌, ◌+◌, ◌*◌, length};
ghost use Rattle.queries.specs.Entry.{local_of, slot_of, saved_by};
ghost use Rattle.queries.specs.Shares.{shared_of, crowded_of, CrowdedBy};
ghost use Rattle.refusals.specs.Outcomes.{answered, found};

use refusals::{Answer, Refused};
use words::widths::{cell, item};

// A part of the area list: its first range, and how many it has.
#[derive(Clone, Copy)]
pub struct Stretch {
    pub first: usize,
    pub count: usize,
}

// The cell of local `i`. Refuses lengths that are no whole rows and counts over their limits (1), an item that names no cell and more cells than items (10).
pub fn local(cells: &[u32], items: &[u32], locals: u32, i: u32) -> Result<Option<usize>, Refused>
    ensures { found result ≡ local_of cells.now items.now locals i }
{
    query_checks::plan(cells, items, locals)?;
    if i < locals {
        return Ok(Some(items[item::WIDTH * i as usize] as usize));
    }
    Ok(None)
}

// The cell of slot `i`; refuses as `local` does.
pub fn slot(cells: &[u32], items: &[u32], locals: u32, i: u32) -> Result<Option<usize>, Refused>
    ensures { found result ≡ slot_of cells.now items.now locals i }
{
    query_checks::plan(cells, items, locals)?;
    let at = locals as usize + i as usize;
    if at < items.len() / item::WIDTH {
        return Ok(Some(items[item::WIDTH * at] as usize));
    }
    Ok(None)
}

// Items less cells; refuses as `local` does.
pub fn saved(cells: &[u32], items: &[u32], locals: u32) -> Answer
    ensures { answered result ≡ saved_by cells.now items.now locals }
{
    query_checks::plan(cells, items, locals)?;
    Ok(items.len() / item::WIDTH - cells.len() / cell::WIDTH)
}

// The area of local `i`, only if its cell has two or more members. Refuses as `local` does, and an area list that is no whole rows or over its limit (1), a part outside it (10).
pub fn shared(
    cells: &[u32],
    items: &[u32],
    areas: &[u32],
    locals: u32,
    i: u32,
) -> Result<Option<Stretch>, Refused>
    ensures { found result ≡ shared_of cells.now items.now areas.now locals i }
{
    query_checks::parts(cells, items, areas, locals)?;
    if locals <= i {
        return Ok(None);
    }
    let at = item::WIDTH * i as usize;
    if items[at + item::PRESENT] == 0 {
        return Ok(None);
    }
    if members::members(items, items[at]) < 2 {
        return Ok(None);
    }
    Ok(Some(Stretch {
        first: items[at + item::FIRST] as usize,
        count: items[at + item::RANGES] as usize,
    }))
}

// Lists the slots whose cell has two or more members, rising. Refuses as `local` does, and an answer list under the slots (7).
pub fn crowded(cells: &[u32], items: &[u32], locals: u32, out: &mut [u32]) -> Answer
    ensures { CrowdedBy (crowded_of cells.now items.now locals (length out.old)) out.old result out.new }
{
    query_checks::crowd(cells, items, locals, out.len())?;
    Ok(members::crowded(items, locals as usize, out))
}
