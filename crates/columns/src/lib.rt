// The range functions over columns of numbers, of lists that were checked: `range_entries` checks them.
#![tactic(auto)]

ghost use Rattle.std.specs.Prelude.{◌≡◌, ◌+◌, ◌<◌, ◌≤◌, length, eqb};
ghost use Rattle.ranges.specs.Points.{range, Apart};
ghost use Rattle.ranges.specs.Merged.{union, joined};
ghost use Rattle.ranges.specs.Forms.{columns};
ghost use Rattle.ranges.specs.Inner.{TakenUp, Listing, one_first};

// `take_up`, `one_first` and `unite` stand apart from those over words (`packed`, `packed_pairs`), whose answer is written in place among other words: a trait would have to promise the writes too.

// Takes a range up into the first k of the answer: the last is widened where they share a point or touch, else it is appended. After the largest point there is no next one.
fn take_up(out_start: &mut [u32], out_end: &mut [u32], k: usize, s: u32, e: u32) -> usize
    requires { (length out_start.old ≡ length out_end.old) × (k < length out_start.old) }
    ensures { TakenUp (columns out_start.old out_end.old) (columns out_start.new out_end.new) k result (range s e) }
{
    if 0 < k {
        let last = out_end[k - 1];
        if s as u64 <= last as u64 + 1 {
            if last < e {
                out_end[k - 1] = e;
            }
            return k;
        }
    }
    out_start[k] = s;
    out_end[k] = e;
    k + 1
}

// Whether the first list's front is next of both lists together.
fn one_first(
    start: &[u32],
    end: &[u32],
    other_start: &[u32],
    other_end: &[u32],
    i: usize,
    j: usize,
) -> bool
    requires { (length start.now ≡ length end.now) × (length other_start.now ≡ length other_end.now) }
    ensures { result ≡ one_first (columns start.now end.now) (columns other_start.now other_end.now) i j }
{
    if j >= other_start.len() {
        return true;
    }
    if i >= start.len() {
        return false;
    }
    if start[i] < other_start[j] {
        return true;
    }
    start[i] == other_start[j] && end[i] <= other_end[j]
}

// The ranges of both lists, merged, in one pass over the two.
pub fn unite(
    start: &[u32],
    end: &[u32],
    other_start: &[u32],
    other_end: &[u32],
    out_start: &mut [u32],
    out_end: &mut [u32],
) -> usize
    requires { (length start.now ≡ length end.now) × (length other_start.now ≡ length other_end.now) × (length out_start.old ≡ length out_end.old)
        × (length start.now + length other_start.now ≤ length out_start.old) × Apart (columns start.now end.now) × Apart (columns other_start.now other_end.now) }
    ensures { Listing (columns out_start.old out_end.old) (columns out_start.new out_end.new) result
        (union (columns start.now end.now) (columns other_start.now other_end.now)) }
{
    let total = start.len() + other_start.len();
    let mut i = 0;
    let mut j = 0;
    let mut k = 0;
    while i + j < total {
        if one_first(start, end, other_start, other_end, i, j) {
            k = take_up(out_start, out_end, k, start[i], end[i]);
            i += 1;
        } else {
            k = take_up(out_start, out_end, k, other_start[j], other_end[j]);
            j += 1;
        }
    }
    k
}

// The list with one range more: its last range lengthened where the new one starts on the next point, else the new one appended.
pub fn join_on(
    start: &[u32],
    end: &[u32],
    s: u32,
    e: u32,
    out_start: &mut [u32],
    out_end: &mut [u32],
) -> usize
    requires { (length start.now ≡ length end.now) × (length out_start.old ≡ length out_end.old) × (length start.now + 1 ≤ length out_start.old) }
    ensures { Listing (columns out_start.old out_end.old) (columns out_start.new out_end.new) result
        (joined (columns start.now end.now) (range s e)) }
{
    let n = start.len();
    words::copy_u32(out_start, 0, start, 0, n);
    words::copy_u32(out_end, 0, end, 0, n);
    if 0 < n && follows(end[n - 1], s) {
        out_end[n - 1] = e;
        return n;
    }
    out_start[n] = s;
    out_end[n] = e;
    n + 1
}

// Whether a point is the next after an end; after the largest point there is none.
pub fn follows(end: u32, start: u32) -> bool
    ensures { result ≡ eqb start (end + 1) }
{
    end < start && start - end == 1
}
