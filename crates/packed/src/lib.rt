// The range functions over words that hold a range each: the form in which areas stand in a work space.
#![tactic(auto)]

ghost use Rattle.std.specs.Prelude.{◌≡◌, ◌+◌, ◌/◌, ◌%◌, ◌^◌, ◌<◌, ◌≤◌, length};
ghost use Rattle.ranges.specs.Points.{range};
ghost use Rattle.ranges.specs.Inner.{pack};
ghost use Rattle.packed.specs.Inner.{TakenIn, MergedIn};

use words::HALF;

// A range in one word: the start above, the end in the low 32 bits.
pub fn pack(start: u32, end: u32) -> u64
    ensures { result ≡ pack (range start end) }
{
    (start as u64) * HALF + (end as u64)
}

pub fn start_of(x: u64) -> u32
    ensures { result ≡ x / 2 ^ 32 }
{
    (x / HALF) as u32
}

pub fn end_of(x: u64) -> u32
    ensures { result ≡ x % 2 ^ 32 }
{
    (x % HALF) as u32
}

// Takes a range up into the k ranges from `at` on: the last is widened where they share a point or touch, else it is appended. After the largest point there is no next one.
pub fn take_up(w: &mut [u64], at: usize, k: usize, x: u64) -> usize
    requires { at + k < length w.old }
    ensures { TakenIn w.old w.new at k result x }
{
    if 0 < k {
        let i = at + k - 1;
        let last = w[i];
        let end = end_of(last);
        if start_of(x) as u64 <= end as u64 + 1 {
            let e = end_of(x);
            if end < e {
                w[i] = pack(start_of(last), e);
            }
            return k;
        }
    }
    w[at + k] = x;
    k + 1
}

// Merges the n ranges from `at` on, in place; how many there are then. What is left of the n words is free.
pub fn merge(w: &mut [u64], at: usize, n: usize) -> usize
    requires { at + n ≤ length w.old }
    ensures { MergedIn w.old w.new at n result }
{
    sorting::sort_part(w, at, n);
    let mut k = 0;
    for i in 0..n {
        let x = w[at + i];
        k = take_up(w, at, k, x);
    }
    k
}
