// Where the cells of a plan lie in the frame, from their words in the work space: refusals 12 and 13, then the offsets and the depth.
#![tactic(auto)]

ghost use Rattle.std.specs.Prelude.{◌≡◌, ◌++◌, ℕ, ◌+◌, ◌<◌, ◌≤◌, length, drop};
ghost use Rattle.fit_tables.specs.Inner.{size_of, align_of};
ghost use Rattle.fitting.specs.Layout.{room_by, round_up, depth_of, offset_of, offsets_of, is_power, align_verdict, depth_verdict, layout_verdict};
ghost use Rattle.fit_layout.specs.Inner.{rooms_at};
ghost use Rattle.refusals.specs.Verdicts.{Fine};

use fit_tables::HALF;
use refusals::{Refusal, Refused, Verdict};

// The deepest that a cell may lie, so that minus its depth is a number of 32 bits with a sign.
const DEEPEST: u64 = 2147483647;

// Whether a number is a power of two: whether its lowest set bit is all of it.
fn power(a: u64) -> bool
    ensures { result ≡ is_power a }
{
    if a < 1 {
        return false;
    }
    1 << bits::lowest(a) == a
}

// Refusal 12: the first cell whose alignment is no power of two.
fn aligns(w: &[u64], from: usize, cells: usize) -> Verdict
    requires { from + cells ≤ length w.now }
    ensures { result ≡ align_verdict (rooms_at w.now from cells) }
{
    for c in 0..cells {
        if !power(w[from + c] % HALF) {
            return Err(Refused(Refusal::Align, c));
        }
    }
    Ok(())
}

// A cell's depth, by the depth before it and its word: its size is added, and the sum rounded up to its alignment.
fn deeper(before: u64, word: u64) -> u64
    requires { (before ≤ 2147483647) × (0 < align_of word) }
    ensures { result ≡ round_up (before + size_of word) (align_of word) }
{
    let align = word % HALF;
    (before + word / HALF + (align - 1)) / align * align
}

// Refusal 13: the first cell that lies too deep.
fn depths(w: &[u64], from: usize, cells: usize) -> Verdict
    requires { (from + cells ≤ length w.now) × ((c : ℕ) → c < cells → 0 < (room_by (rooms_at w.now from cells) c).align) }
    ensures { result ≡ depth_verdict (rooms_at w.now from cells) }
{
    let mut depth = 0;
    for c in 0..cells {
        depth = deeper(depth, w[from + c]);
        if DEEPEST < depth {
            return Err(Refused(Refusal::Depth, c));
        }
    }
    Ok(())
}

// Refusals 12 and 13 of `cells` cells whose words stand from `from` on: all alignments are tested before a depth is divided by one.
pub fn refusal(w: &[u64], from: usize, cells: usize) -> Verdict
    requires { from + cells ≤ length w.now }
    ensures { result ≡ layout_verdict (rooms_at w.now from cells) }
{
    aligns(w, from, cells)?;
    depths(w, from, cells)
}

// Minus a depth.
fn offset(depth: u64) -> i32
    requires { depth ≤ 2147483647 }
    ensures { result ≡ offset_of depth }
{
    -(depth as i32)
}

// The offset of each of `cells` cells that are not refused, and the depth.
pub fn write(offsets: &mut [i32], w: &[u64], from: usize, cells: usize) -> u64
    requires { (from + cells ≤ length w.now) × (cells ≤ length offsets.old) × (layout_verdict (rooms_at w.now from cells) ≡ Fine) }
    ensures { (result ≡ depth_of (rooms_at w.now from cells))
        × (offsets.new ≡ offsets_of (rooms_at w.now from cells) ++ drop cells offsets.old) }
{
    let mut depth = 0;
    for c in 0..cells {
        let next = deeper(depth, w[from + c]);
        let o = offset(next);
        offsets[c] = o;
        depth = next;
    }
    depth
}
