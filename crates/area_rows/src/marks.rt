// The marks of one local in the rows of the places, from its touches and its ends.
ghost use Rattle.std.specs.Prelude.{◌≡◌, true, ◌||◌, List, [], ◌+◌, ◌*◌, ◌≤◌, ◌<◌};
ghost use Rattle.ranges.specs.Points.{range};
ghost use Rattle.graph.specs.Paths.{Edge};
ghost use Rattle.graph.specs.Line.{blocks_of, Sound};
ghost use Rattle.areas.specs.Blocks.{touched, AllInLine};
ghost use Rattle.spots.specs.Spots.{line_of};
ghost use Rattle.spots.specs.Inner.{touches_at};
ghost use Rattle.area_rows.specs.Inner.{Fits, marked, Marked, TouchesReady, Put, spans};
ghost use Rattle.words.specs.Widths.{block_count};

use crate::Column;
use spots::Spots;

// Sets the bit in the row of place k.
pub fn mark(work: &mut [u64], c: Column, k: usize)
    requires { Fits c work.old × (k < c.n) }
    ensures { Put c true (λ j. j ≡ k) work.old work.new }
{
    let row = c.base + k * c.words;
    bits::set(work, row, c.bit);
}

// Sets the bit in the rows of the places from `from` up to `to`.
pub fn mark_places(work: &mut [u64], c: Column, from: usize, to: usize)
    requires { Fits c work.old × (to ≤ c.n) }
    ensures { Put c true (λ j. (from ≤ j) × (j < to)) work.old work.new }
{
    for k in from..to {
        mark(work, c, k);
    }
}

// Sets the bit where a touch lies: in its first block, its last, and those between.
fn mark_touch(blocks: &[u32], work: &mut [u64], c: Column, start: u32, end: u32)
    requires { Sound (blocks_of blocks.now) × (c.n ≡ block_count blocks.now) × Fits c work.old }
    ensures { Put c true (λ j. spans (line_of blocks.now []) (range start end) j ≡ true) work.old work.new }
{
    let first = spots::holding(blocks, start).0;
    let last = spots::holding(blocks, end).0;
    mark_places(work, c, first, last + 1);
}

// Sets the bit in the row of each place that a touch has a point of.
pub fn mark_touched(blocks: &[u32], work: &mut [u64], s: Spots, c: Column)
    requires { TouchesReady blocks.now s c work.old × AllInLine (blocks_of blocks.now) (touches_at s work.old) }
    ensures { (es : List Edge) → Marked c (λ k. touched (line_of blocks.now es) (touches_at s work.old) k || marked c work.old k)
        work.old work.new }
{
    let at = s.at;
    for i in 0..s.count {
        let x = work[at + i];
        mark_touch(blocks, work, c, packed::start_of(x), packed::end_of(x));
    }
}
