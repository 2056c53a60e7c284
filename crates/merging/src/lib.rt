// `merged` over columns, by way of words: a range in each. `range_entries` checks the lists first.
#![tactic(auto)]

ghost use Rattle.std.specs.Prelude.{◌≡◌, ℕ, ◌≤◌, length, get_or};
ghost use Rattle.std.specs.Fn.{AlwaysReturns};
ghost use Rattle.words.specs.Inner.{Region};
ghost use Rattle.ranges.specs.Points.{range};
ghost use Rattle.ranges.specs.Merged.{merged};
ghost use Rattle.ranges.specs.Forms.{columns};
ghost use Rattle.ranges.specs.Inner.{pack, Listing};

use packed::{end_of, pack, start_of};

// The two columns' ranges, a word each.
fn pack_columns(start: &[u32], end: &[u32], w: &mut [u64])
    requires { (length start.now ≡ length end.now) × (length start.now ≤ length w.old) }
    ensures { Region w.old w.new 0 (length start.now) (λ i. pack (range (get_or start.now i 0) (get_or end.now i 0))) }
{
    for i in 0..start.len() {
        w[i] = pack(start[i], end[i]);
    }
}

// A point of each of the first k words, to a column.
fn unpack<P: FnMut(u64) -> u32>(w: &[u64], k: usize, out: &mut [u32], mut point: P)
    requires { (k ≤ length w.now) × (k ≤ length out.old) × P.IsAlwaysCallable point }
    ensures { (p : ℕ → ℕ) → AlwaysReturns P.FnMut (λ a r. r ≡ p a.0) point → Region out.old out.new 0 k (λ i. p (get_or w.now i 0)) }
{
    for i in 0..k {
        out[i] = point(w[i]);
    }
}

// A list of so many ranges is sorted in a small array, since an array is cleared before it is used.
const FEW: usize = 256;

const LIMIT: usize = 65536;

// `merged` of lists whose columns are of one length, within the limit.
pub fn merge(start: &[u32], end: &[u32], out_start: &mut [u32], out_end: &mut [u32]) -> usize
    requires { (length start.now ≡ length end.now) × (length out_start.old ≡ length out_end.old) × (length start.now ≤ length out_start.old) × (length start.now ≤ 65536) }
    ensures { Listing (columns out_start.old out_end.old) (columns out_start.new out_end.new) result
        (merged (columns start.now end.now)) }
{
    if start.len() <= FEW {
        return merge_by::<FEW>(start, end, out_start, out_end);
    }
    merge_many(start, end, out_start, out_end)
}

// The large array, in a frame of its own, so that a short list and a refusal take little stack.
#[inline(never)]
fn merge_many(start: &[u32], end: &[u32], out_start: &mut [u32], out_end: &mut [u32]) -> usize
    requires { (length start.now ≡ length end.now) × (length out_start.old ≡ length out_end.old) × (length start.now ≤ length out_start.old) × (length start.now ≤ 65536) }
    ensures { Listing (columns out_start.old out_end.old) (columns out_start.new out_end.new) result
        (merged (columns start.now end.now)) }
{
    merge_by::<LIMIT>(start, end, out_start, out_end)
}

// Sorting needs room beside the answer, whose entries past the merged ranges are to stay: an array by value of K words.
fn merge_by<const K: usize>(
    start: &[u32],
    end: &[u32],
    out_start: &mut [u32],
    out_end: &mut [u32],
) -> usize
    requires { (length start.now ≡ length end.now) × (length out_start.old ≡ length out_end.old) × (length start.now ≤ length out_start.old)
        × (length start.now ≤ K) × (K ≤ 65536) }
    ensures { Listing (columns out_start.old out_end.old) (columns out_start.new out_end.new) result
        (merged (columns start.now end.now)) }
{
    let mut keys = [0u64; K];
    pack_columns(start, end, &mut keys);
    let k = packed::merge(&mut keys, 0, start.len());
    unpack(&keys, k, out_start, start_of);
    unpack(&keys, k, out_end, end_of);
    k
}
