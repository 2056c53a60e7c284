// The lowest fitting cell for each item, over tables of one work space: fitting alone and the whole job both call `fit`.
#![tactic(auto)]

ghost use Rattle.std.specs.Prelude.{◌≡◌, ℕ, ◌+◌, ◌-◌, ◌*◌, ◌/◌, ◌^◌, ◌<◌, ◌≤◌, length, get_or};
ghost use Rattle.fit_tables.specs.Inner.{home_table, behind, Lent, Fitted, InOrder, Gridded, Placed, Each};

use fit_tables::{Counts, HOMES, ORDER, Progress, Sample, SampleRow, TABLES, Tables};

mod folding; // folding.rt: the lists of a cell united
mod probing; // probing.rt: the first cell that takes an item
mod putting; // putting.rt: one item put

// Each item in order, with rows of sample points from `end` on.
fn each(w: &mut [u64], t: Tables, width: usize, step: u64, budget: u64) -> Progress
    requires { InOrder w.old t × ((i : ℕ) → i < t.n → get_or w.old (home_table t + i) 0 ≡ 0) × Gridded w.old t width step }
    ensures { Each w.old w.new t width budget result }
{
    let top = t.items + TABLES * t.n;
    let mut s = Progress {
        cells: 0,
        left: budget,
        top: top,
    };
    for k in 0..t.n {
        let at = t.end + s.cells * width;
        let row = SampleRow {
            at: at,
            width: width,
            step: step,
        };
        let own = fit_tables::sample_rows::draw(w, t, k, row);
        let base = t.end + own.at;
        let sample = Sample {
            base: base,
            width: width,
            word: own.word,
        };
        let next = putting::put(w, t, k, s, sample);
        fit_tables::samples::join_row(w, t, k, width, s.cells);
        s = next;
    }
    s
}

// Each item in order, with sample points spread over all areas.
fn place(w: &mut [u64], t: Tables, budget: u64) -> Progress
    requires { InOrder w.old t × ((i : ℕ) → i < t.n → get_or w.old (home_table t + i) 0 ≡ 0) }
    ensures { Placed w.old w.new t budget result }
{
    let width = fit_tables::samples::width_for(t.n, t.end - (t.items + TABLES * t.n));
    let step = fit_tables::samples::reach(w, t) / (64 * width as u64 + 1) + 1;
    let end = t.end - t.n * width;
    let below = Tables {
        at: t.at,
        items: t.items,
        n: t.n,
        end: end,
    };
    each(w, below, width, step, budget)
}

// Fits the items of the tables: the plan stands in the tables behind the wants'. The words up to `end` hold the cells' areas and sample points meanwhile.
pub fn fit(w: &mut [u64], t: Tables, budget: u64) -> Counts
    requires { Lent w.old t × (behind t ≤ t.end) × (t.end ≤ length w.old) × (t.end < 2 ^ 32) }
    ensures { Fitted w.old w.new t budget result }
{
    fit_tables::order::order(w, t.items + t.n, t.n, t.items + ORDER * t.n);
    words::fill(w, t.items + HOMES * t.n, t.n, 0);
    let s = place(w, t, budget);
    Counts {
        cells: s.cells,
        probes: budget - s.left,
    }
}
