// Binary search in numbers that rise.
ghost use Rattle.std.specs.Prelude.{◌≡◌, cond, Bool, true, false, ◌^◌, ◌+◌, ◌*◌, ◌≤◌, ◌<◌, leb, ltb, length, get_or};
ghost use Rattle.std.specs.Fn.{ComputesKey};
ghost use Rattle.std.specs.List.Sorted.{IsPartitionedBy, IsPartitionPoint};
ghost use Rattle.words.specs.Inner.{Rising, Splits};
ghost use Rattle.words.specs.Rows.{field};

// How many of the `n` numbers from `base` on are below `point`.
pub fn below(w: &[u64], base: usize, n: usize, point: u64) -> usize
    requires { (base + n ≤ length w.now) × Rising (λ i. get_or w.now (base + i) 0) n }
    ensures { Splits (λ i. ltb (get_or w.now (base + i) 0) point) n result }
{
    w[base..base + n].partition_point(|x| *x < point)
}

// How many items at the front of a list pass the test, as `partition_point` counts them. The answer is often small: steps double until one fails, and what the last of them passed over is halved.
pub fn gallop<T, P: FnMut(&T) -> bool>(list: &[T], mut passes: P) -> usize
    requires { (length list.now < 2 ^ 63) × P.IsAlwaysCallable passes }
    ensures bound { result ≤ length list.now }
    ensures partitioned { (p : T → Bool) → ComputesKey P.FnMut p passes → IsPartitionedBy p list.now → IsPartitionPoint (λ y. p y ≡ true) (λ y. p y ≡ false) list.now result }
{
    let n = list.len();
    let mut bound = 1;
    while bound < n && passes(&list[bound]) {
        bound *= 2;
    }
    let low = bound / 2;
    let high = bound.min(n);
    low + list[low..high].partition_point(passes)
}

// 1 where x is at most y, else 0, without a branch: which half of a search goes on is as good as random, and a branch on it is mispredicted half the time.
fn no_more(x: u32, y: u32) -> usize
    ensures { result ≡ cond (leb x y) 1 0 }
{
    ((y as u64 + 0x1_0000_0000 - x as u64) / 0x1_0000_0000) as usize
}

// A step reads one number of a row; the library searches neighbouring items, so the halving stands here.
// How many of the `n` rows of `width` numbers have at most `point` in field `f`; a column is rows of one number.
pub fn at_most_in_rows(s: &[u32], width: usize, f: usize, n: usize, point: u32) -> usize
    requires { (f < width) × (width * n ≤ length s.now) × Rising (λ i. field width s.now i f) n }
    ensures { Splits (λ i. leb (field width s.now i f) point) n result }
{
    let mut lo = 0;
    let mut left = n;
    while 1 < left {
        let half = left / 2;
        let x = s[width * (lo + half) + f];
        lo += half * no_more(x, point);
        left -= half;
    }
    if left == 0 {
        return lo;
    }
    lo + no_more(s[width * lo + f], point)
}
