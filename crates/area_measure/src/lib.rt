// The areas of locals whose rows stand in the work space, one behind another in item order, and the table of their items.
#![tactic(auto)]

ghost use Rattle.std.specs.Prelude.{◌+◌, ◌*◌};
ghost use Rattle.graph.specs.Line.{blocks_of, Sound};
ghost use Rattle.area_measure.specs.Inner.Measure.{Measurable, AreaIn, Listable, Measured};

use area_pieces::Local;
use spots::Spots;
use words::HALF;

pub mod locals; // locals.rt: all locals of touches lent by themselves

// Where the areas stand in the work space, with room for `room` ranges, and from `items` on a word a local: the first of its ranges and one more than
// how many they are, or 0 without an area.
#[derive(Clone, Copy)]
pub struct Listing {
    pub areas: usize,
    pub room: usize,
    pub items: usize,
}

// The area of a plain or ending local by the number of its kind, from `to` on; how many ranges it has.
fn area(blocks: &[u32], work: &mut [u64], kind: u32, t: Spots, s: Local) -> usize
    requires { Sound (blocks_of blocks.now) × Measurable blocks.now kind t s work.old }
    ensures { AreaIn blocks.now kind t s work.old work.new result }
{
    if kind == 1 {
        return area_pieces::plain(blocks, work, t, s);
    }
    area_ends::ending(blocks, work, t, s)
}

// Puts a local's area behind the `total` ranges so far, where it fits, and its word into the table of items; how many ranges there are then. The
// total goes on counting past the room.
pub fn measure_one(
    blocks: &[u32],
    work: &mut [u64],
    kind: u32,
    t: Spots,
    s: Local,
    o: Listing,
    total: usize,
) -> usize
    requires { Sound (blocks_of blocks.now) × Measurable blocks.now kind t s work.old × Listable blocks.now t s o total }
    ensures { Measured blocks.now kind t s o total work.old work.new result }
{
    let count = area(blocks, work, kind, t, s);
    work[o.items + s.local] = total as u64 * HALF + count as u64 + 1;
    area_pieces::append(work, o.areas, o.room, total, s.to, count)
}
