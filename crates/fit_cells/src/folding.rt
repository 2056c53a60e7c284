// The lists of a cell united, so that a cell has few of them: the ranges of two lists in place of both.
ghost use Rattle.std.specs.Prelude.{◌≡◌, ◌+◌, ◌-◌, ◌*◌, ◌/◌, ◌%◌, ◌<◌, ◌≤◌};
ghost use Rattle.fit_tables.specs.Inner.{count_of, next_at, Topped, Meets, Folded};

use fit_tables::{HALF, LINKS, LISTS, Tables};

// More ranges than any list has.
const NEVER: u64 = 0xffff_ffff_ffff_ffff;

// Unites the list of place `k` with that of place `q`, which it is linked to: the lists' new end.
fn unite_top(w: &mut [u64], t: Tables, k: usize, q: usize, top: usize) -> usize
    requires { Topped w.old t k top × Meets w.old t k q top }
    ensures { Folded w.old w.new t k top result × (next_at w.new t k ≤ q) }
{
    let y = w[t.items + LISTS * t.n + k];
    let z = w[t.items + LISTS * t.n + q];
    let next = w[t.items + LINKS * t.n + q];
    let one = t.at + ((y - 1) / HALF) as usize;
    let two = t.at + ((z - 1) / HALF) as usize;
    let ones = ((y - 1) % HALF) as usize;
    let twos = ((z - 1) % HALF) as usize;
    let r = packed_pairs::unite(w, one, ones, two, twos, top);
    w[t.items + LISTS * t.n + k] = (top - t.at) as u64 * HALF + r as u64 + 1;
    w[t.items + LINKS * t.n + k] = next;
    top + r
}

// How many ranges two lists have together; or NEVER, where one is absent or the second is many times as long as the first.
fn together(y: u64, z: u64) -> u64
    ensures { result < 18446744073709551615 → (0 < y) × (0 < z) × (result ≡ count_of y + count_of z) }
{
    if y < 1 {
        return NEVER;
    }
    if z < 1 {
        return NEVER;
    }
    let ones = (y - 1) % HALF;
    let twos = (z - 1) % HALF;
    if 3 * ones < twos {
        return NEVER;
    }
    ones + twos
}

// Unites the list of place `k`, where there is room, with those it is linked to, until one is much longer: so a cell has few lists, and a range is moved seldom.
pub fn fold(w: &mut [u64], t: Tables, k: usize, top: usize) -> usize
    requires { Topped w.old t k top }
    ensures { Folded w.old w.new t k top result }
{
    let mut e = top;
    let mut p = w[t.items + LINKS * t.n + k] as usize;
    while 0 < p {
        let q = p - 1;
        let need = together(w[t.items + LISTS * t.n + k], w[t.items + LISTS * t.n + q]);
        let room = (t.end - e) as u64;
        if room < need {
            return e;
        }
        e = unite_top(w, t, k, q, e);
        p = w[t.items + LINKS * t.n + k] as usize;
    }
    e
}
