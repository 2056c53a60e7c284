// Where a local leaves: its marks in the rows of the places, from its touches and its ends.
#![tactic(auto)]

ghost use Rattle.std.specs.Prelude.{◌≡◌, true, ◌||◌, List, [], ℕ, ◌+◌, ◌*◌, ◌<◌, get_or, leb};
ghost use Rattle.words.specs.Inner.{Rising};
ghost use Rattle.words.specs.Widths.{block_count};
ghost use Rattle.ranges.specs.Points.{range};
ghost use Rattle.graph.specs.Paths.{Edge};
ghost use Rattle.graph.specs.Line.{blocks_of, Sound};
ghost use Rattle.areas.specs.Blocks.{bottom, cover, leaves};
ghost use Rattle.spots.specs.Spots.{line_of};
ghost use Rattle.spots.specs.Inner.{touches_at, ends_at, Stand};
ghost use Rattle.area_rows.specs.Inner.{Fits, marked, Marked, TouchesReady, EndsReady, Put, leaves_by};

use area_rows::{Column, marks};
use spots::Spots;
use words::widths::block;

// Whether a touch's cover reaches the last point of the block at place k, one of the touch's first and last.
fn covers_bottom(blocks: &[u32], work: &[u64], s: Spots, k: usize, end: u32) -> bool
    requires { (k < block_count blocks.now) × Stand s work.now }
    ensures { (es : List Edge) (start : ℕ) → result ≡ leb (bottom (line_of blocks.now es) k)
        (cover (line_of blocks.now es) (ends_at s work.now) k (range start end)).end }
{
    let bottom = blocks[block::WIDTH * k + block::END];
    let last = spots::smaller(end, bottom);
    bottom <= spots::until(work, s.ends, s.stops, last, bottom)
}

fn mark_if(work: &mut [u64], c: Column, k: usize, yes: bool)
    requires { Fits c work.old × (k < c.n) }
    ensures { Put c true (λ j. (j ≡ k) × (yes ≡ true)) work.old work.new }
{
    if yes {
        marks::mark(work, c, k);
        return;
    }
}

// Sets the bit where the local leaves by a touch.
fn mark_leave(blocks: &[u32], work: &mut [u64], s: Spots, c: Column, start: u32, end: u32)
    requires { Sound (blocks_of blocks.now) × (c.n ≡ block_count blocks.now) × Fits c work.old × Stand s work.old }
    ensures { Put c true (λ j. leaves_by (line_of blocks.now []) (ends_at s work.old) j (range start end) ≡ true) work.old work.new }
{
    let first = spots::holding(blocks, start).0;
    let last = spots::holding(blocks, end).0;
    let one = covers_bottom(blocks, work, s, first, end);
    let two = covers_bottom(blocks, work, s, last, end);
    mark_if(work, c, first, one);
    mark_if(work, c, last, two);
    marks::mark_places(work, c, first + 1, last);
}

// Sets the bit in the row of each place that the local leaves.
pub fn mark_leaving(blocks: &[u32], work: &mut [u64], s: Spots, c: Column)
    requires { TouchesReady blocks.now s c work.old × EndsReady blocks.now s c work.old × Rising (λ i. get_or work.old (s.ends + i) 0) s.stops }
    ensures { (es : List Edge) → Marked c (λ k. leaves (line_of blocks.now es) (touches_at s work.old) (ends_at s work.old) k || marked c
        work.old k) work.old work.new }
{
    let at = s.at;
    for i in 0..s.count {
        let x = work[at + i];
        mark_leave(blocks, work, s, c, packed::start_of(x), packed::end_of(x));
    }
}
