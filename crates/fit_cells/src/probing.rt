// The cells looked at for one item, from the lowest on: which is the first that has an area and does not clash.
ghost use Rattle.std.specs.Prelude.{◌≡◌, ℕ, ◌+◌, ◌*◌, ◌/◌, ◌%◌, ◌<◌, ◌≤◌, length};
ghost use Rattle.ranges.specs.Points.{Apart};
ghost use Rattle.fitting.specs.Plan.{joinable};
ghost use Rattle.fit_tables.specs.Inner.{Proper, area_in, chain, allow, next_at, head_at, area_at, ranges_of, Linked, Probed, Sure};

use fit_tables::{HALF, HEADS, LINKS, LISTS, Part, Sample, Tables};

// Whether a list, by its word, is there and does not clash with the ranges of `a`.
fn free(w: &[u64], t: Tables, x: u64, a: Part) -> bool
    requires { (0 < x → Proper w.now t.at t.end x) × (t.end ≤ length w.now) × (a.from + a.count ≤ length w.now) × Apart (ranges_of w.now a) }
    ensures { result ≡ joinable (area_in w.now t.at x) (ranges_of w.now a) }
{
    if x < 1 {
        return false;
    }
    let first = t.at + ((x - 1) / HALF) as usize;
    let end = first + ((x - 1) % HALF) as usize;
    let from = a.from;
    let to = from + a.count;
    !packed_pairs::clash(&w[first..end], &w[from..to])
}

// Whether every list that a link leads to is there and does not clash.
fn joins(w: &[u64], t: Tables, link: u64, a: Part) -> bool
    requires { Linked w.now t t.end link × (a.from + a.count ≤ length w.now) × Apart (ranges_of w.now a) }
    ensures { result ≡ allow (area_at w.now t) (chain (next_at w.now t) link) (ranges_of w.now a) }
{
    let mut m = link as usize;
    while 0 < m {
        let q = m - 1;
        if !free(w, t, w[t.items + LISTS * t.n + q], a) {
            return false;
        }
        m = w[t.items + LINKS * t.n + q] as usize;
    }
    true
}

// The first of `most` cells that has an area and does not clash, else `most`. A sample point in common is a clash.
pub fn probe(w: &[u64], t: Tables, k: usize, most: usize, a: Part, s: Sample) -> usize
    requires { Linked w.now t t.end k × (most ≤ k) × ((c : ℕ) → c < most → head_at w.now t c ≤ k) × (a.from + a.count ≤ length w.now) × Apart (ranges_of w.now a)
        × Sure w.now t s most (ranges_of w.now a) }
    ensures { Probed w.now t most (ranges_of w.now a) result }
{
    for c in 0..most {
        if fit_tables::samples::hit(w, s, c) {
            continue;
        }
        if joins(w, t, w[t.items + HEADS * t.n + c], a) {
            return c;
        }
    }
    most
}
