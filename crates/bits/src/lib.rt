// Bits of words, and rows of bits: a row of `n` words at `base` has `n * 64` bits.
#![tactic(auto)]

ghost use Rattle.std.specs.Prelude.{◌≡◌, true, false, ◌||◌, ◌&&◌, ◌+◌, ◌*◌, ◌/◌, ◌^◌, ◌≤◌, ◌<◌, length};
ghost use Rattle.bits.specs.Bits.{bit};
ghost use Rattle.bits.specs.Inner.{PutBit, Row, Grown, Aligned, Lowest, Without, FirstSet};

// Whether bit `b` of the row at `base` is set.
pub fn test(w: &[u64], base: usize, b: usize) -> bool
    requires { base + b / 64 < length w.now }
    ensures { result ≡ bit w.now base b }
{
    let x = w[base + b / 64];
    (x >> (b % 64)) & 1 == 1
}

pub fn set(w: &mut [u64], base: usize, b: usize)
    requires { base + b / 64 < length w.old }
    ensures { PutBit w.old w.new base b true }
{
    let i = base + b / 64;
    w[i] = w[i] | (1 << (b % 64));
}

pub fn unset(w: &mut [u64], base: usize, b: usize)
    requires { base + b / 64 < length w.old }
    ensures { PutBit w.old w.new base b false }
{
    let i = base + b / 64;
    let x = w[i];
    w[i] = x ^ (x & (1 << (b % 64)));
}

// Puts the bits of the row at `from` into the row at `to`.
pub fn row_or(w: &mut [u64], to: usize, from: usize, n: usize)
    requires { (to + n ≤ length w.old) × (from + n ≤ length w.old) × Aligned to from n }
    ensures { Row w.old w.new to n (λ c. bit w.old to c || bit w.old from c) }
{
    for k in 0..n {
        w[to + k] = w[to + k] | w[from + k];
    }
}

// The same with the bits of two rows, in one pass. One function over a list of rows would be no plainer: a loop over the rows in the loop over the words, and clauses over the list.
pub fn row_or_two(w: &mut [u64], to: usize, one: usize, two: usize, n: usize)
    requires { (to + n ≤ length w.old) × (one + n ≤ length w.old) × (two + n ≤ length w.old) × Aligned to one n × Aligned to two n }
    ensures { Row w.old w.new to n (λ c. bit w.old to c || (bit w.old one c || bit w.old two c)) }
{
    for k in 0..n {
        w[to + k] = w[to + k] | (w[one + k] | w[two + k]);
    }
}

// Puts into the row at `to` the bits of the row at `from` that `pass` has too, and those of `leave`; whether one of them is new there.
pub fn row_pass(w: &mut [u64], to: usize, from: usize, pass: usize, leave: usize, n: usize) -> bool
    requires n_in_bounds { (to + n ≤ length w.old) × (from + n ≤ length w.old) × (pass + n ≤ length w.old) × (leave + n ≤ length w.old) }
    requires aligned { Aligned to from n × Aligned to pass n × Aligned to leave n }
    ensures { Grown w.old w.new to n (λ c. bit w.old to c || (bit w.old from c && bit w.old pass c || bit w.old leave c)) result }
{
    let mut came = false;
    for k in 0..n {
        let x = w[to + k];
        let y = x | ((w[from + k] & w[pass + k]) | w[leave + k]);
        if y != x {
            w[to + k] = y;
            came = true;
        }
    }
    came
}

// The place of the lowest set bit of a word.
pub fn lowest(x: u64) -> usize
    requires { 0 < x }
    ensures { Lowest x result }
{
    u64::trailing_zeros(x) as usize
}

// The word without its lowest set bit.
pub fn without_lowest(x: u64) -> u64
    requires { 0 < x }
    ensures { Without x result }
{
    x & (x - 1)
}

// The first set bit of the row from word `start` on, or `n * 64`.
pub fn first_from(w: &[u64], base: usize, n: usize, start: usize) -> usize
    requires { (base + n ≤ length w.now) × (start ≤ n) × (n * 64 < 2 ^ 64) }
    ensures { FirstSet w.now base n start result }
{
    for k in start..n {
        let x = w[base + k];
        if x != 0 {
            return k * 64 + lowest(x);
        }
    }
    n * 64
}
