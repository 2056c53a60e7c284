// Sample points: each cell has a row of bits, and a bit is set only where the area has the sample point.
// A bit that an item's row and a cell's have in common is a clash.
ghost use Rattle.std.specs.Prelude.{◌≡◌, true, ◌+◌, ◌-◌, ◌*◌, ◌/◌, ◌%◌, ◌^◌, ◌<◌, ◌≤◌, length, get_or};
ghost use Rattle.std.specs.Int.Bits.{bit_and};
ghost use Rattle.fit_tables.specs.Inner.{behind, Proper, Lent, order_at, cell_in, Joined};

use crate::{HALF, HOMES, ORDER, Sample, Tables, larger};

// Whether a cell's word and an item's have a sample point in common.
pub fn hit(w: &[u64], s: Sample, c: usize) -> bool
    requires { 0 < s.word → s.base + c * s.width < length w.now }
    ensures { result ≡ true → 0 < bit_and (get_or w.now (s.base + c * s.width) 0) s.word }
{
    if s.word < 1 {
        return false;
    }
    w[s.base + c * s.width] & s.word != 0
}

// The row of number `cells`, of those from `end` on, joins that of the cell of the item at place `k`.
pub fn join_row(w: &mut [u64], t: Tables, k: usize, width: usize, cells: usize)
    requires { (behind t ≤ t.end) × (t.end + t.n * width ≤ length w.old) × (k < t.n) × (cells < t.n) × (order_at w.old t k < t.n) × (cell_in w.old t k < t.n) }
    ensures { Joined w.old w.new t k width cells }
{
    let i = w[t.items + ORDER * t.n + k] as usize;
    let c = w[t.items + HOMES * t.n + i] as usize;
    bits::row_or(w, t.end + c * width, t.end + cells * width, width);
}

// The last point of a list, by its word, or 0.
fn last_point(w: &[u64], at: usize, top: usize, x: u64) -> u64
    requires { (0 < x → Proper w.now at top x) × (top ≤ length w.now) }
    ensures { result < 2 ^ 32 }
{
    if x < 1 {
        return 0;
    }
    let count = ((x - 1) % HALF) as usize;
    if count < 1 {
        return 0;
    }
    w[at + ((x - 1) / HALF) as usize + count - 1] % HALF
}

// The last point of all areas.
pub fn reach(w: &[u64], t: Tables) -> u64
    requires { Lent w.now t }
    ensures { result < 2 ^ 32 }
{
    let mut most = 0;
    for i in 0..t.n {
        most = larger(most, last_point(w, t.at, t.items, w[t.items + i]));
    }
    most
}

// How many words of sample points a cell has: none for few items, and less than half of the room for all.
pub fn width_for(n: usize, room: usize) -> usize
    ensures { (result ≤ 8) × (n * result ≤ room) }
{
    if n < 64 {
        return 0;
    }
    if n <= room / 20 {
        return 8;
    }
    if n <= room / 6 {
        return 2;
    }
    0
}
