// Regions of a lent list: fill, clear, copy.
ghost use Rattle.std.specs.Prelude.{◌≡◌, ℕ, ◌+◌, ◌≤◌, ◌<◌, ◌^◌, length, get_or};
ghost use Rattle.words.specs.Inner.{Region, Disjoint};
ghost use Rattle.words.specs.Regions.{cleared};

// `v` in the `n` places from `at` on.
pub fn fill(w: &mut [u64], at: usize, n: usize, v: u64)
    requires { at + n ≤ length w.old }
    ensures { Region w.old w.new at n (λ i. v) }
{
    w[at..at + n].fill(v);
}

// The first `n` numbers zero.
pub fn clear(w: &mut [u64], n: usize)
    requires { n ≤ length w.old }
    ensures { w.new ≡ cleared n w.old }
{
    fill(w, 0, n, 0);
}

// The `n` numbers from `from` on to `to`, in the same list.
pub fn copy(w: &mut [u64], from: usize, to: usize, n: usize)
    requires { (from + n ≤ length w.old) × (to + n ≤ length w.old) × Disjoint to from n }
    ensures { Region w.old w.new to n (λ i. get_or w.old (from + i) 0) }
{
    for i in 0..n {
        w[to + i] = w[from + i];
    }
}

// The `n` numbers of `s` from `from` on to `to`.
pub fn copy_from(w: &mut [u64], to: usize, s: &[u64], from: usize, n: usize)
    requires { (to + n ≤ length w.old) × (from + n ≤ length s.now) }
    ensures { Region w.old w.new to n (λ i. get_or s.now (from + i) 0) }
{
    for i in 0..n {
        w[to + i] = s[from + i];
    }
}

// The same into a list of smaller numbers, where each fits.
pub fn narrow(w: &mut [u32], to: usize, s: &[u64], from: usize, n: usize)
    requires { (to + n ≤ length w.old) × (from + n ≤ length s.now) × ((i : ℕ) → i < n → get_or s.now (from + i) 0 < 2 ^ 32) }
    ensures { Region w.old w.new to n (λ i. get_or s.now (from + i) 0) }
{
    for i in 0..n {
        w[to + i] = s[from + i] as u32;
    }
}

// The same, of smaller numbers only.
pub fn copy_u32(w: &mut [u32], to: usize, s: &[u32], from: usize, n: usize)
    requires { (to + n ≤ length w.old) × (from + n ≤ length s.now) }
    ensures { Region w.old w.new to n (λ i. get_or s.now (from + i) 0) }
{
    for i in 0..n {
        w[to + i] = s[from + i];
    }
}
