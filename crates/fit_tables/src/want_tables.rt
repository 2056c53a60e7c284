// From the lent rows into the tables of the work space, and from there into the answer lists.
ghost use Rattle.std.specs.Prelude.{◌≡◌, ℕ, ◌+◌, ◌*◌, ◌/◌, ◌%◌, ◌^◌, ◌≤◌, ◌<◌, ◌++◌, length, get_or, drop};
ghost use Rattle.words.specs.Inner.{row_put, Region};
ghost use Rattle.words.specs.Widths.{cell_width, item_width, range_count, want_count, want_present, want_first};
ghost use Rattle.fit_tables.specs.Inner.{item_word, area_word_at, item_word_at, want_word_at, Loaded, cell_rows_in, item_rows_in};

use crate::HALF;
use words::widths::{item, range, want};

fn load_areas(w: &mut [u64], areas: &[u32], n: usize)
    requires { (n ≤ length w.old) × (n ≤ range_count areas.now) }
    ensures { Region w.old w.new 0 n (area_word_at areas.now) }
{
    for i in 0..n {
        w[i] = areas[range::WIDTH * i] as u64 * HALF + areas[range::WIDTH * i + range::END] as u64;
    }
}

// An item's word: 0, or one more than its part.
fn item_word(present: u32, first: u32, count: u32) -> u64
    requires { 0 < present → first ≤ 65536 }
    ensures { result ≡ item_word present first count }
{
    if present == 0 {
        return 0;
    }
    first as u64 * HALF + count as u64 + 1
}

fn load_items(w: &mut [u64], at: usize, wants: &[u32], n: usize)
    requires { (at + n ≤ length w.old) × (n ≤ want_count wants.now) × ((i : ℕ) → i < n → 0 < want_present wants.now i → want_first wants.now i ≤ 65536) }
    ensures { Region w.old w.new at n (item_word_at wants.now) }
{
    for i in 0..n {
        let r = want::WIDTH * i;
        w[at + i] = item_word(
            wants[r + want::PRESENT],
            wants[r + want::FIRST],
            wants[r + want::RANGES],
        );
    }
}

fn load_wants(w: &mut [u64], at: usize, wants: &[u32], n: usize)
    requires { (at + n ≤ length w.old) × (n ≤ want_count wants.now) }
    ensures { Region w.old w.new at n (want_word_at wants.now) }
{
    for i in 0..n {
        w[at + i] = wants[want::WIDTH * i] as u64 * HALF
            + wants[want::WIDTH * i + want::ALIGN] as u64;
    }
}

// The areas, the items' table and the wants' table.
pub fn load(w: &mut [u64], wants: &[u32], areas: &[u32], n: usize, ranges: usize)
    requires { (ranges + 2 * n ≤ length w.old) × (n ≤ want_count wants.now) × (ranges ≤ range_count areas.now) × (n ≤ 4096)
        × ((i : ℕ) → i < n → 0 < want_present wants.now i → want_first wants.now i ≤ 65536) }
    ensures { Loaded w.old w.new wants.now areas.now n ranges }
{
    load_areas(w, areas, ranges);
    load_items(w, ranges, wants, n);
    load_wants(w, ranges + n, wants, n);
}

// A row of size and alignment for each of `n` words.
pub fn write_cells(cells: &mut [u32], w: &[u64], from: usize, n: usize)
    requires { (cell_width * n ≤ length cells.old) × (from + n ≤ length w.now) }
    ensures { cells.new ≡ cell_rows_in w.now from n ++ drop (cell_width * n) cells.old }
{
    answer_rows::write_rows(cells, w, from, n, 0);
}

// A row of cell, present, first and count for each of `n` items.
pub fn write_items(items: &mut [u32], w: &[u64], wants: &[u32], from: usize, n: usize)
    requires { (item_width * n ≤ length items.old) × (from + n ≤ length w.now) × (n ≤ want_count wants.now) × ((i : ℕ) → i < n → get_or w.now (from + i) 0 < 2 ^ 32) }
    ensures { items.new ≡ item_rows_in w.now wants.now from n ++ drop (item_width * n) items.old }
{
    for i in 0..n {
        let cell = w[from + i] as u32;
        let r = want::WIDTH * i;
        if wants[r + want::PRESENT] == 0 {
            put_row(items, item::WIDTH * i, cell, 0, 0, 0);
        } else {
            put_row(
                items,
                item::WIDTH * i,
                cell,
                1,
                wants[r + want::FIRST],
                wants[r + want::RANGES],
            );
        }
    }
}

fn put_row(items: &mut [u32], at: usize, a: u32, b: u32, c: u32, d: u32)
    requires { at + 4 ≤ length items.old }
    ensures { items.new ≡ row_put items.old at a b c d }
{
    items[at] = a;
    items[at + item::PRESENT] = b;
    items[at + item::FIRST] = c;
    items[at + item::RANGES] = d;
}
