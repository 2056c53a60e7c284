// Where a local passes: its marks in the rows of the places, from its ends.
#![tactic(auto)]

ghost use Rattle.std.specs.Prelude.{◌≡◌, false, ◌&&◌, List, ◌+◌, ◌*◌, ◌/◌, ◌<◌};
ghost use Rattle.graph.specs.Paths.{Edge};
ghost use Rattle.graph.specs.Line.{blocks_of, Sound};
ghost use Rattle.areas.specs.Blocks.{passes};
ghost use Rattle.spots.specs.Spots.{line_of};
ghost use Rattle.spots.specs.Inner.{ends_at};
ghost use Rattle.area_rows.specs.Inner.{Fits, marked, Marked, EndsReady, Put, Stopped};

use area_rows::Column;
use spots::Spots;
use words::widths::block;

// Unsets the bit in the row of place k.
fn unmark(work: &mut [u64], c: Column, k: usize)
    requires { Fits c work.old × (k < c.n) }
    ensures { Put c false (λ j. j ≡ k) work.old work.new }
{
    let row = c.base + k * c.words;
    bits::unset(work, row, c.bit);
}

// The place of the block that has a point, or the number of blocks where none has.
fn stopped(blocks: &[u32], point: u64) -> usize
    requires { Sound (blocks_of blocks.now) }
    ensures { Stopped blocks.now point result }
{
    let n = blocks.len() / block::WIDTH;
    if point >= 0x1_0000_0000 {
        return n;
    }
    let p = point as u32;
    let k = spots::holding(blocks, p).0;
    if p < blocks[block::WIDTH * k + block::START] {
        return n;
    }
    if blocks[block::WIDTH * k + block::END] < p {
        return n;
    }
    k
}

// Unsets the bit in the row of each place that has one of the ends.
pub fn mark_passing(blocks: &[u32], work: &mut [u64], s: Spots, c: Column)
    requires { EndsReady blocks.now s c work.old }
    ensures { (es : List Edge) → Marked c (λ k. passes (line_of blocks.now es) (ends_at s work.old) k && marked c work.old k) work.old
        work.new }
{
    let ends = s.ends;
    for i in 0..s.stops {
        let k = stopped(blocks, work[ends + i]);
        if k < c.n {
            unmark(work, c, k);
        }
    }
}
