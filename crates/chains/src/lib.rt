// Rows by a number that each names: the rows of one number as a chain, the last first.
#![tactic(auto)]

ghost use Rattle.std.specs.Prelude.{◌≡◌, ℕ, ◌+◌, ◌/◌, ◌≤◌, ◌<◌, length, get_or};
ghost use Rattle.words.specs.Rows.{field};
ghost use Rattle.chains.specs.Inner.{Linked};

// Chains the `n` rows of `width` numbers by the number in one column, for the numbers below `keys`: from `heads` on each number's last row, and from
// `nexts` on for each row the one before it of its number, each plus 1, or 0 where there is none. Rows of other numbers are in no chain.
pub fn chain(
    rows: &[u32],
    width: usize,
    column: usize,
    n: usize,
    keys: usize,
    work: &mut [u64],
    heads: usize,
    nexts: usize,
)
    requires column_lt_width { (column < width) × (n ≡ length rows.now / width) × (heads + keys ≤ nexts) × (nexts + n ≤ length work.old) }
    requires by_index { (l : ℕ) → l < keys → get_or work.old (heads + l) 0 ≡ 0 }
    ensures { Linked (λ i. field width rows.now i column) n keys heads nexts work.old work.new }
{
    for i in 0..n {
        let l = rows[width * i + column] as usize;
        if l < keys {
            work[nexts + i] = work[heads + l];
            work[heads + l] = i as u64 + 1;
        }
    }
}
