// Members of cells, in items as rows of cell, present, first and count: counted, and the slots that are not alone.
#![tactic(auto)]

ghost use Rattle.std.specs.Prelude.{◌≡◌, ℕ, ◌+◌, ◌-◌, ◌≤◌, ◌<◌, length, get_or};
ghost use Rattle.words.specs.Widths.{item_row_count, item_cell};
ghost use Rattle.members.specs.Inner.{members_in, Counted, crowded_slots, Picked};

use words::widths::item;

// How many items are in a cell.
pub fn members(items: &[u32], cell: u32) -> usize
    ensures { result ≡ members_in items.now cell }
{
    let n = items.len() / item::WIDTH;
    let mut m = 0;
    for i in 0..n {
        if items[item::WIDTH * i] == cell {
            m += 1;
        }
    }
    m
}

// A count for each cell that an item names.
fn count(items: &[u32], counts: &mut [u32])
    requires { (item_row_count items.now ≤ 4096) × ((i : ℕ) → i < item_row_count items.now → item_cell items.now i < length counts.old)
        × ((c : ℕ) → c < length counts.old → get_or counts.old c 0 ≡ 0) }
    ensures { Counted items.now counts.new (item_row_count items.now) }
{
    let n = items.len() / item::WIDTH;
    for i in 0..n {
        let c = items[item::WIDTH * i] as usize;
        counts[c] = counts[c] + 1;
    }
}

// The slots whose cell has two or more members, rising.
fn pick(items: &[u32], locals: usize, counts: &[u32], out: &mut [u32]) -> usize
    requires { Counted items.now counts.now (item_row_count items.now) × (locals ≤ item_row_count items.now) × (item_row_count items.now ≤ 4096)
        × (item_row_count items.now - locals ≤ length out.old) }
    ensures { Picked (crowded_slots items.now locals) out.old out.new result }
{
    let n = items.len() / item::WIDTH - locals;
    let mut k = 0;
    for s in 0..n {
        let c = items[item::WIDTH * (locals + s)] as usize;
        if 1 < counts[c] {
            out[k] = s as u32;
            k += 1;
        }
    }
    k
}

// The same, with the counts in an array by value: there are at most 4,096 cells.
pub fn crowded(items: &[u32], locals: usize, out: &mut [u32]) -> usize
    requires { (item_row_count items.now ≤ 4096) × (locals ≤ item_row_count items.now) × ((i : ℕ) → i < item_row_count items.now → item_cell items.now i < 4096)
        × (item_row_count items.now - locals ≤ length out.old) }
    ensures { Picked (crowded_slots items.now locals) out.old out.new result }
{
    let mut counts = [0u32; 4096];
    count(items, &mut counts);
    pick(items, locals, &counts, out)
}
