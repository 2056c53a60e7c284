// From the words of the work space into the rows of an answer list.
#![tactic(auto)]

ghost use Rattle.std.specs.Prelude.{◌≡◌, ◌++◌, ℕ, ◌+◌, ◌*◌, ◌≤◌, ◌<◌, length, get_or, drop};
ghost use Rattle.answer_rows.specs.Inner.{rows_in, item_of, rows_of};
ghost use Rattle.words.specs.Widths.{part_width, range_width};

use words::HALF;
use words::widths::{part, range};

// A row of two numbers for each of the `n` words from `from` on, less `less`: its upper and its lower half.
pub fn write_rows(out: &mut [u32], w: &[u64], from: usize, n: usize, less: u64)
    requires { (range_width * n ≤ length out.old) × (from + n ≤ length w.now) × ((i : ℕ) → i < n → less ≤ get_or w.now (from + i) 0) }
    ensures { out.new ≡ rows_in w.now from n less ++ drop (range_width * n) out.old }
{
    for i in 0..n {
        let x = w[from + i] - less;
        out[range::WIDTH * i] = (x / HALF) as u32;
        out[range::WIDTH * i + range::END] = (x % HALF) as u32;
    }
}

// Whether an item has an area, the first of its ranges and how many they are.
#[derive(Clone, Copy)]
pub struct Item {
    pub present: u32,
    pub first: u32,
    pub count: u32,
}

// An item by its word.
pub fn part(x: u64) -> Item
    ensures { result ≡ item_of x }
{
    if x == 0 {
        return Item {
            present: 0,
            first: 0,
            count: 0,
        };
    }
    Item {
        present: 1,
        first: ((x - 1) / HALF) as u32,
        count: ((x - 1) % HALF) as u32,
    }
}

// A row of three numbers for each of the `n` words from `from` on.
pub fn write_items(out: &mut [u32], w: &[u64], from: usize, n: usize)
    requires { (part_width * n ≤ length out.old) × (from + n ≤ length w.now) }
    ensures { out.new ≡ rows_of w.now from n ++ drop (part_width * n) out.old }
{
    for i in 0..n {
        let t = part(w[from + i]);
        out[part::WIDTH * i] = t.present;
        out[part::WIDTH * i + part::FIRST] = t.first;
        out[part::WIDTH * i + part::RANGES] = t.count;
    }
}
