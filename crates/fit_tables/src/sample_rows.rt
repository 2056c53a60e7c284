// The row of sample points of one item: a bit is set only where its area has the sample point.
ghost use Rattle.std.specs.Prelude.{◌≡◌, ◌+◌, ◌*◌, ◌/◌, ◌^◌, ◌<◌, ◌≤◌, length};
ghost use Rattle.words.specs.Inner.{part};
ghost use Rattle.ranges.specs.Inner.{unpacked};
ghost use Rattle.fit_tables.specs.Inner.{behind, Lent, order_at, MarkedTo, Pointed, Drawn};

use crate::{HALF, ORDER, Own, SampleRow, Tables};

// Every bit of a word.
const FULL: u64 = 0xffff_ffff_ffff_ffff;

// The last sample point at or before an area.
fn first_point(w: &[u64], from: usize, count: usize, step: u64) -> usize
    requires { (from + count ≤ length w.now) × (0 < step) }
{
    if count < 1 {
        return 0;
    }
    (w[from] / HALF / step) as usize
}

// Sets bit `t` of a row, or its whole word where `t` begins one whose sample points all are at most `end`: the next bit.
fn mark(w: &mut [u64], row: usize, t: usize, p: u64, step: u64, end: u64) -> usize
    requires { (row + t / 64 < length w.old) × (p ≡ t * step) × (p ≤ end) × (p ≤ 2 ^ 62) × (step ≤ 2 ^ 32) × (t < 2 ^ 62) }
    ensures { MarkedTo w.old w.new row t step end result }
{
    if t % 64 == 0 {
        if p + 63 * step <= end {
            w[row + t / 64] = FULL;
            return t + 64;
        }
    }
    bits::set(w, row, t);
    t + 1
}

// Sets the row's bits of the sample points from `first` on that are in `count` ranges from `from` on; the word that the last of them is in.
fn points(w: &mut [u64], row: SampleRow, from: usize, count: usize, first: usize) -> usize
    requires { (row.at + row.width ≤ length w.old) × (from + count ≤ row.at) × (0 < row.width) × (row.width ≤ 8) × (0 < row.step) × (row.step ≤ 2 ^ 32) }
    ensures { Pointed w.old w.new row.at row.width row.step (unpacked (part from count w.old)) result }
{
    let mut t = first;
    let mut i = 0;
    let mut last = 0;
    while t < row.width * 64 {
        if i >= count {
            return last;
        }
        let x = w[from + i];
        let p = t as u64 * row.step;
        if x % HALF < p {
            i += 1;
        } else {
            if x / HALF <= p {
                last = t / 64;
                t = mark(w, row.at, t, p, row.step, x % HALF);
            } else {
                t += 1;
            }
        }
    }
    last
}

// A word of the row with a bit set, where there is one: the middle one, which is full where the area is wide, else the last.
fn choose(w: &[u64], row: usize, width: usize, first: usize, last: usize) -> usize
    requires { (row + width ≤ length w.now) × (last < width) }
    ensures { result < width }
{
    if first < last {
        let middle = first + (last - first) / 2;
        if 0 < w[row + middle] {
            return middle;
        }
    }
    last
}

// The row becomes that of the item at place `k` of the order.
pub fn draw(w: &mut [u64], t: Tables, k: usize, row: SampleRow) -> Own
    requires { Lent w.old t × (order_at w.old t k < t.n) × (k < t.n) × (behind t ≤ row.at) × (row.at + row.width ≤ length w.old)
        × (row.width ≤ 8) × (0 < row.step) × (row.step ≤ 2 ^ 32) }
    ensures { Drawn w.old w.new t k row.at row.width row.step result }
{
    let i = w[t.items + ORDER * t.n + k] as usize;
    let x = w[t.items + i];
    if x < 1 {
        return Own { at: 0, word: 0 };
    }
    if row.width < 1 {
        return Own { at: 0, word: 0 };
    }
    let at = row.at;
    let from = t.at + ((x - 1) / HALF) as usize;
    let count = ((x - 1) % HALF) as usize;
    words::fill(w, at, row.width, 0);
    let first = first_point(w, from, count, row.step);
    let last = points(w, row, from, count, first);
    let word = choose(w, at, row.width, first / 64, last);
    Own {
        at: word,
        word: w[at + word],
    }
}
