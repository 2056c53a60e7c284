// From the tables of the work space into the answer lists.
#![tactic(auto)]

ghost use Rattle.std.specs.Prelude.{◌≡◌, ◌++◌, ℕ, ◌+◌, ◌*◌, ◌^◌, ◌≤◌, ◌<◌, length, get_or, drop};
ghost use Rattle.words.specs.Inner.{row_put};
ghost use Rattle.words.specs.Widths.{item_width};
ghost use Rattle.answer_rows.specs.Inner.{item_of};
ghost use Rattle.job_tables.specs.Inner.{rows_of, Listable, Written};

use fit_tables::{CELLS, HOMES};
use words::widths::{item, range};

// One item's row of four numbers: its cell, then its part of the area list by its word.
fn put_item(out: &mut [u32], at: usize, cell: u64, word: u64)
    requires { (at + 4 ≤ length out.old) × (cell < 2 ^ 32) }
    ensures { out.new ≡ row_put out.old at cell (item_of word).present (item_of word).first (item_of word).count }
{
    let t = answer_rows::part(word);
    out[at] = cell as u32;
    out[at + 1] = t.present;
    out[at + 2] = t.first;
    out[at + 3] = t.count;
}

// A row of four numbers for each of `n` items: cells from `cells` on, words from `from` on.
fn write_items(out: &mut [u32], w: &[u64], from: usize, cells: usize, n: usize)
    requires { (item_width * n ≤ length out.old) × (from + n ≤ length w.now) × (cells + n ≤ length w.now) × ((i : ℕ) → i < n → get_or w.now (cells + i) 0 < 2 ^ 32) }
    ensures { out.new ≡ rows_of w.now from cells n ++ drop (item_width * n) out.old }
{
    for i in 0..n {
        put_item(out, item::WIDTH * i, w[cells + i], w[from + i]);
    }
}

// The three answer lists: `used` cells, `n` items and `total` ranges.
pub fn write(
    cells: &mut [u32],
    items: &mut [u32],
    areas: &mut [u32],
    w: &[u64],
    n: usize,
    used: usize,
    total: usize,
)
    requires { Listable (length cells.old) (length items.old) (length areas.old) w.now n used total }
    ensures { Written cells.old items.old areas.old w.now n used total cells.new items.new areas.new }
{
    let room = areas.len() / range::WIDTH;
    fit_tables::want_tables::write_cells(cells, w, room + CELLS * n, used);
    write_items(items, w, room, room + HOMES * n, n);
    answer_rows::write_rows(areas, w, 0, total, 0);
}
