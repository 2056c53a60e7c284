// Tables of one work space that hold wants, cells and their areas while items are fitted: where they stand, what stands in them, and what a step tells of them.
#![tactic(auto)]

ghost use Rattle.std.specs.Prelude.{◌≡◌, max};

pub mod order; // order.rt: the items in order
pub mod sample_rows; // sample_rows.rt: one item's row of sample points
pub mod samples; // samples.rt: sample points that rule cells out
pub mod want_tables; // want_tables.rt: from the lent rows into the tables, and from there into the answer lists

// Where they stand: the areas' ranges from `at` on, up to `items`; from there on eight tables of `n` words; behind them, up to `end`, the cells' lists.
#[derive(Clone, Copy)]
pub struct Tables {
    pub at: usize,
    pub items: usize,
    pub n: usize,
    pub end: usize,
}

// Which table it is, counted from the items' words, which the wants' (size and alignment) follow. By place of the order, its item.
pub const ORDER: usize = 2;

// By cell, one more than its latest place.
pub const HEADS: usize = 3;

// By place, one more than the place of the cell before it, or 0.
pub const LINKS: usize = 4;

// By cell, its size and alignment.
pub const CELLS: usize = 5;

// By item, its cell.
pub const HOMES: usize = 6;

// By place, its list of ranges, in a word like an item's.
pub const LISTS: usize = 7;

// How many tables there are.
pub const TABLES: usize = 8;

pub use words::HALF;

// A plan's counts: its cells and the probes spent.
#[derive(Clone, Copy)]
pub struct Counts {
    pub cells: usize,
    pub probes: u64,
}

// The cells opened so far, what is left of the budget, and where the stored lists end.
#[derive(Clone, Copy)]
pub struct Progress {
    pub cells: usize,
    pub left: u64,
    pub top: usize,
}

// A list of ranges: where it begins, and how many there are.
#[derive(Clone, Copy)]
pub struct Part {
    pub from: usize,
    pub count: usize,
}

// A row of sample points: where it stands, its words, and how far two points are apart.
#[derive(Clone, Copy)]
pub struct SampleRow {
    pub at: usize,
    pub width: usize,
    pub step: u64,
}

// A word of the sample points that an item's area has, and which word of its row it is.
#[derive(Clone, Copy)]
pub struct Own {
    pub at: usize,
    pub word: u64,
}

// An item's word of sample points, and where the cells' words for the same points stand: that of cell c at base + c * width.
#[derive(Clone, Copy)]
pub struct Sample {
    pub base: usize,
    pub width: usize,
    pub word: u64,
}

pub fn larger(a: u64, b: u64) -> u64
    ensures { result ≡ max a b }
{
    a.max(b)
}
