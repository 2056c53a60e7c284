// The first pass over the locals: the marks of every local in the rows of the places.
#![tactic(auto)]

ghost use Rattle.std.specs.Prelude.{not, List, ◌+◌, ◌*◌, ◌/◌, ◌≤◌, ◌<◌, length};
ghost use Rattle.graph.specs.Paths.{Edge};
ghost use Rattle.graph.specs.Inner.Work.{Within};
ghost use Rattle.areas.specs.Blocks.{touched, leaves, passes};
ghost use Rattle.spots.specs.Spots.{line_of};
ghost use Rattle.spots.specs.Inner.{touches_at, ends_at};
ghost use Rattle.local_marks.specs.Inner.{Ready, MarkedAll, Marking, Standing, MarkedOne};
ghost use Rattle.words.specs.Widths.{block_count};

use area_flow::Grid;
use area_rows::Column;
use local_spots::Places;
use spots::Spots;
use words::widths::block;

// The marks of one local, plain or ending, whose touches and ends stand in the work space.
pub fn mark_spots(blocks: &[u32], work: &mut [u64], s: Spots, g: Grid, l: usize, plain: bool)
    requires { Standing blocks.now s g l work.old }
    ensures within { Within g.touched (g.passes + block_count blocks.now * g.words) work.old work.new }
    ensures marking { (es : List Edge) → Marking g (block_count blocks.now) l plain (not plain) (touched (line_of blocks.now es) (touches_at s work.old))
        (leaves (line_of blocks.now es) (touches_at s work.old) (ends_at s work.old))
        (passes (line_of blocks.now es) (ends_at s work.old)) work.old work.new }
{
    let n = blocks.len() / block::WIDTH;
    if plain {
        area_rows::marks::mark_touched(
            blocks,
            work,
            s,
            Column {
                n: n,
                base: g.touched,
                words: g.words,
                bit: l,
            },
        );
        return;
    }
    leaving_marks::mark_leaving(
        blocks,
        work,
        s,
        Column {
            n: n,
            base: g.leaves,
            words: g.words,
            bit: l,
        },
    );
    passing_marks::mark_passing(
        blocks,
        work,
        s,
        Column {
            n: n,
            base: g.passes,
            words: g.words,
            bit: l,
        },
    );
}

// One local by the number of its kind: fetched and marked. An unfollowed one has no marks.
fn mark_one(
    blocks: &[u32],
    touches: &[u32],
    ends: &[u32],
    work: &mut [u64],
    p: Places,
    g: Grid,
    l: usize,
    kind: u32,
)
    requires { Ready p g blocks.now touches.now ends.now work.old × (l < p.locals) }
    ensures within { Within p.at (g.passes + block_count blocks.now * g.words) work.old work.new }
    ensures marked_one { (es : List Edge) → MarkedOne (line_of blocks.now es) kind touches.now ends.now g (block_count blocks.now) l
        work.old work.new }
{
    if kind == 0 {
        return;
    }
    let s = local_spots::fetch(touches, ends, work, p, l);
    mark_spots(blocks, work, s, g, l, kind == 1);
}

// The marks of all locals.
pub fn mark_all(
    blocks: &[u32],
    kinds: &[u32],
    touches: &[u32],
    ends: &[u32],
    work: &mut [u64],
    p: Places,
    g: Grid,
)
    requires { Ready p g blocks.now touches.now ends.now work.old × (p.locals ≤ length kinds.now) }
    ensures { (es : List Edge) → MarkedAll (line_of blocks.now es) kinds.now touches.now ends.now p g (block_count blocks.now)
        work.old work.new }
{
    area_flow::clear_marks(work, g, blocks.len() / block::WIDTH);
    for l in 0..p.locals {
        let kind = kinds[l];
        mark_one(blocks, touches, ends, work, p, g, l, kind);
    }
}
