// The areas of all locals whose touches and ends are lent by themselves.
ghost use Rattle.std.specs.Prelude.{◌+◌, ◌*◌, ◌/◌, ◌≤◌, ◌<◌, length};
ghost use Rattle.graph.specs.Line.{blocks_of, Sound};
ghost use Rattle.area_measure.specs.Inner.Locals.{most_in, Ready, Next, MeasuredAll};

use crate::Listing;
use area_flow::Grid;
use area_pieces::Local;
use local_spots::Places;
use words::widths::block;

// Fetches local l's touches and ends and puts its area behind the `total` ranges so far; an unfollowed local has none.
fn measure_next(
    blocks: &[u32],
    kinds: &[u32],
    touches: &[u32],
    ends: &[u32],
    work: &mut [u64],
    p: Places,
    g: Grid,
    mark: usize,
    o: Listing,
    l: usize,
    total: usize,
) -> usize
    requires sound { Sound (blocks_of blocks.now) × Ready blocks.now kinds.now touches.now ends.now p g mark o work.old }
    requires l_in_bounds { (l < length kinds.now) × (total ≤ l * most_in blocks.now touches.now) }
    ensures { Next blocks.now kinds.now touches.now ends.now p g mark o l total work.old work.new result }
{
    let kind = kinds[l];
    if kind == 0 {
        work[o.items + l] = 0;
        return total;
    }
    let row = g.to + l * g.width;
    let span = mark + g.width;
    let to = span + blocks.len() / block::WIDTH;
    let t = local_spots::fetch(touches, ends, work, p, l);
    crate::measure_one(
        blocks,
        work,
        kind,
        t,
        Local {
            row: row,
            wide: g.width,
            written: g.written,
            read: g.read,
            words: g.words,
            local: l,
            mark: mark,
            span: span,
            to: to,
        },
        o,
        total,
    )
}

// The areas of all locals in item order, where they fit, and the table of items; how many ranges they have together.
pub fn measure_all(
    blocks: &[u32],
    kinds: &[u32],
    touches: &[u32],
    ends: &[u32],
    work: &mut [u64],
    p: Places,
    g: Grid,
    mark: usize,
    o: Listing,
) -> usize
    requires { Sound (blocks_of blocks.now) × Ready blocks.now kinds.now touches.now ends.now p g mark o work.old }
    ensures { MeasuredAll blocks.now kinds.now touches.now ends.now p g mark o work.old work.new result }
{
    let mut total = 0;
    for l in 0..kinds.len() {
        total = measure_next(blocks, kinds, touches, ends, work, p, g, mark, o, l, total);
    }
    total
}
