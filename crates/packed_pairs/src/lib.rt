// The range functions over two lists of words that hold a range each.
#![tactic(auto)]

ghost use Rattle.std.specs.Prelude.{◌≡◌, ◌+◌, ◌≤◌, length};
ghost use Rattle.words.specs.Inner.{part};
ghost use Rattle.ranges.specs.Points.{Apart};
ghost use Rattle.ranges.specs.Merged.{clashes};
ghost use Rattle.ranges.specs.Inner.{unpacked, one_first};
ghost use Rattle.packed.specs.Inner.{Clear};
ghost use Rattle.packed_pairs.specs.Inner.{UnitedIn};

use clashing::Listed;
use packed::{end_of, start_of, take_up};
use ranges::Range;

// Whether the first list's front is next of both lists together.
fn one_first(w: &[u64], one: usize, n: usize, two: usize, m: usize, i: usize, j: usize) -> bool
    requires { (one + n ≤ length w.now) × (two + m ≤ length w.now) }
    ensures { result ≡ one_first (unpacked (part one n w.now)) (unpacked (part two m w.now)) i j }
{
    if j >= m {
        return true;
    }
    if i >= n {
        return false;
    }
    w[one + i] <= w[two + j]
}

// The ranges of two lists in order and apart, merged, from `to` on: those words hold neither list.
pub fn unite(w: &mut [u64], one: usize, n: usize, two: usize, m: usize, to: usize) -> usize
    requires { (one + n ≤ length w.old) × (two + m ≤ length w.old) × (to + (n + m) ≤ length w.old) × Clear one n to (n + m) × Clear two m to (n + m)
        × Apart (unpacked (part one n w.old)) × Apart (unpacked (part two m w.old)) }
    ensures { UnitedIn w.old w.new one n two m to result }
{
    let total = n + m;
    let mut i = 0;
    let mut j = 0;
    let mut k = 0;
    while i + j < total {
        if one_first(w, one, n, two, m, i, j) {
            let x = w[one + i];
            k = take_up(w, to, k, x);
            i += 1;
        } else {
            let x = w[two + j];
            k = take_up(w, to, k, x);
            j += 1;
        }
    }
    k
}

// Words that hold a range each.
#[derive(Drop)]
struct Words<'a> {
    words: &'a [u64],
}

impl<'a> Listed for Words<'a> {
    ghost list = { λ w. unpacked w.words.now };

    fn count(&self) -> usize {
        self.words.len()
    }

    fn at(&self, i: usize) -> Range {
        let x = self.words[i];
        Range {
            start: start_of(x),
            end: end_of(x),
        }
    }

    fn ending_before(&self, from: usize, point: u32) -> usize {
        words::gallop(&self.words[from..], |x| end_of(*x) < point)
    }
}

// Whether some point is in both of two lists that are in order and apart.
pub fn clash(one: &[u64], two: &[u64]) -> bool
    requires { Apart (unpacked one.now) × Apart (unpacked two.now) }
    ensures { result ≡ clashes (unpacked one.now) (unpacked two.now) }
{
    let one = Words { words: one };
    let two = Words { words: two };
    clashing::clash_of(&one, &two)
}
