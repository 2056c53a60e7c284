// What a touch of an ending local covers in one block.
#![tactic(auto)]

ghost use Rattle.std.specs.Prelude.{◌≡◌, [], ◌<◌};
ghost use Rattle.ranges.specs.Inner.{unpack};
ghost use Rattle.areas.specs.Blocks.{cover};
ghost use Rattle.spots.specs.Spots.{line_of};
ghost use Rattle.spots.specs.Inner.{ends_at, Stand};
ghost use Rattle.words.specs.Widths.{block_count};

use spots::Spots;
use words::widths::block;

// The cover of a touch in block k: to the first end at or after its last point there, else to the bottom.
pub fn cover(blocks: &[u32], work: &[u64], t: Spots, k: usize, x: u64) -> u64
    requires { (k < block_count blocks.now) × Stand t work.now }
    ensures { unpack result ≡ cover (line_of blocks.now []) (ends_at t work.now) k (unpack x) }
{
    let bottom = blocks[block::WIDTH * k + block::END];
    let start = spots::larger(packed::start_of(x), blocks[block::WIDTH * k + block::START]);
    let point = spots::smaller(packed::end_of(x), bottom);
    let end = spots::until(work, t.ends, t.stops, point, bottom);
    packed::pack(start, end)
}
