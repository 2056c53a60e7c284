// One item put into the lowest cell that takes it, or into a new one, in tables of one work space.
ghost use Rattle.std.specs.Prelude.{◌≡◌, ◌+◌, ◌-◌, ◌*◌, ◌/◌, ◌%◌, ◌<◌, ◌≤◌, max, min, length};
ghost use Rattle.fit_tables.specs.Inner.{size_of, align_of, behind, item_at, Sure, entered_in, Ready, Stepped};

use fit_tables::{
    CELLS, HALF, HEADS, HOMES, LINKS, LISTS, ORDER, Part, Progress, Sample, Tables, larger,
};

// What an item brings into a cell: the cell, the link to its other lists, its size and alignment with the item, and the item's list.
#[derive(Clone, Copy)]
struct Entry {
    cell: usize,
    link: u64,
    word: u64,
    list: u64,
}

// The larger size and the larger alignment of two words.
fn wider(x: u64, y: u64) -> u64
    ensures { (size_of result ≡ max (size_of x) (size_of y)) × (align_of result ≡ max (align_of x) (align_of y)) }
{
    let size = larger(x / HALF, y / HALF);
    let align = larger(x % HALF, y % HALF);
    size * HALF + align
}

// The item `i` at place `k` of the order enters a cell.
fn enter(w: &mut [u64], t: Tables, k: usize, i: usize, e: Entry)
    requires { (behind t ≤ length w.old) × (k < t.n) × (i < t.n) × (e.cell < t.n) }
    ensures { w.new ≡ entered_in w.old t k i e.cell e.link e.word e.list }
{
    w[t.items + LINKS * t.n + k] = e.link;
    w[t.items + HEADS * t.n + e.cell] = k as u64 + 1;
    w[t.items + CELLS * t.n + e.cell] = e.word;
    w[t.items + HOMES * t.n + i] = e.cell as u64;
    w[t.items + LISTS * t.n + k] = e.list;
}

// The smaller of a count and a number.
fn least(cells: usize, left: u64) -> usize
    ensures { result ≡ min cells left }
{
    left.min(cells as u64) as usize
}

// The item at place `k` of the order goes into the lowest cell that takes it, met while budget is left, else into a new one.
pub fn put(w: &mut [u64], t: Tables, k: usize, p: Progress, s: Sample) -> Progress
    requires { Ready w.old t k p × Sure w.old t s p.cells (item_at w.old t k) }
    ensures { Stepped w.old w.new t k p result }
{
    let i = w[t.items + ORDER * t.n + k] as usize;
    let x = w[t.items + i];
    let word = w[t.items + t.n + i];
    let alone = Entry {
        cell: p.cells,
        link: 0,
        word: word,
        list: x,
    };
    if x < 1 {
        enter(w, t, k, i, alone);
        return Progress {
            cells: p.cells + 1,
            left: p.left,
            top: p.top,
        };
    }
    let most = least(p.cells, p.left);
    let from = t.at + ((x - 1) / HALF) as usize;
    let count = ((x - 1) % HALF) as usize;
    let a = Part {
        from: from,
        count: count,
    };
    let c = crate::probing::probe(w, t, k, most, a, s);
    if c < most {
        let link = w[t.items + HEADS * t.n + c];
        let wide = wider(w[t.items + CELLS * t.n + c], word);
        let joined = Entry {
            cell: c,
            link: link,
            word: wide,
            list: x,
        };
        enter(w, t, k, i, joined);
        let top = crate::folding::fold(w, t, k, p.top);
        return Progress {
            cells: p.cells,
            left: p.left - (c as u64 + 1),
            top: top,
        };
    }
    enter(w, t, k, i, alone);
    Progress {
        cells: p.cells + 1,
        left: p.left - most as u64,
        top: p.top,
    }
}
