// `apart`: the plan in which nothing is shared, as the rows of a lent plan: cells of size and alignment, items of cell, present, first and count.
#![tactic(auto)]

ghost use Rattle.std.specs.Prelude.{◌≡◌, ◌+◌, ◌*◌, ◌≤◌, ◌++◌, length, drop};
ghost use Rattle.words.specs.Widths.{local_count, cell_width, item_width, slot_count};
ghost use Rattle.apart.specs.Apart.{apart_verdict, apart_of, ApartBy};
ghost use Rattle.apart.specs.Inner.{own_cells, own_items};

use refusals::Verdict;
use words::widths::{cell, item, local};

mod checks; // checks.rt: refusals 1 and 7

// A cell for each item, in index order, and no shared area: locals are rows of size and alignment, slots widths.
// Refuses a list that is no whole rows, a count over its limit (1), an answer list under the items (7).
pub fn apart(locals: &[u32], slots: &[u32], cells: &mut [u32], items: &mut [u32]) -> Verdict
    ensures { ApartBy (apart_verdict locals.now slots.now (length cells.old) (length items.old))
        (apart_of locals.now slots.now (length cells.old) (length items.old))
        cells.old items.old result cells.new items.new }
{
    checks::apart(locals, slots, cells.len(), items.len())?;
    own_cells(cells, locals, slots);
    own_items(items, locals.len() / local::WIDTH + slots.len());
    Ok(())
}

fn own_cells(cells: &mut [u32], locals: &[u32], slots: &[u32])
    requires { (cell_width * (local_count locals.now + slot_count slots.now) ≤ length cells.old) × (local_count locals.now + slot_count slots.now ≤ 4096) }
    ensures { cells.new ≡ own_cells locals.now slots.now
        ++ drop (cell_width * (local_count locals.now + slot_count slots.now)) cells.old }
{
    let l = locals.len() / local::WIDTH;
    for i in 0..l {
        cells[cell::WIDTH * i] = locals[local::WIDTH * i];
        cells[cell::WIDTH * i + cell::ALIGN] = locals[local::WIDTH * i + local::ALIGN];
    }
    for (s, width) in slots.iter().enumerate() {
        let at = cell::WIDTH * (l + s);
        cells[at] = *width;
        cells[at + cell::ALIGN] = *width;
    }
}

fn own_items(items: &mut [u32], n: usize)
    requires { (item_width * n ≤ length items.old) × (n ≤ 4096) }
    ensures { items.new ≡ own_items n ++ drop (item_width * n) items.old }
{
    for i in 0..n {
        items[item::WIDTH * i] = i as u32;
        items[item::WIDTH * i + item::PRESENT] = 0;
        items[item::WIDTH * i + item::FIRST] = 0;
        items[item::WIDTH * i + item::RANGES] = 0;
    }
}
