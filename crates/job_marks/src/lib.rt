// The first pass over the locals of a job: the marks of every followed one in the rows of the places.
#![tactic(auto)]

ghost use Rattle.std.specs.Prelude.{◌<◌};
ghost use Rattle.job_marks.specs.Inner.{Ready, MarkedAll, MarkedOne};

use area_flow::Grid;
use carrying::Kind;
use follow::Sizes;
use job_spots::Places;
use reach::Lay;
use words::widths::block;

// One local: fetched, and marked by its kind. An unfollowed one has no marks.
fn mark_one(
    blocks: &[u32],
    insts: &[u32],
    addresses: &[u32],
    ends: &[u32],
    pieces: &[u32],
    work: &mut [u64],
    lay: Lay,
    p: Places,
    z: Sizes,
    g: Grid,
    l: usize,
)
    requires { Ready blocks.now insts.now addresses.now ends.now pieces.now lay p z g work.old × (l < z.locals) }
    ensures { MarkedOne blocks.now insts.now addresses.now ends.now pieces.now lay p z g l work.old work.new }
{
    let f = job_spots::fetch::fetch(insts, addresses, ends, pieces, work, lay, p, z, l);
    let kind = f.kind;
    let s = f.spots;
    match kind {
        Kind::Unfollowed => {}
        Kind::Plain => local_marks::mark_spots(blocks, work, s, g, l, true),
        Kind::Ending => local_marks::mark_spots(blocks, work, s, g, l, false),
    }
}

// The marks of all locals.
pub fn mark_all(
    blocks: &[u32],
    insts: &[u32],
    addresses: &[u32],
    ends: &[u32],
    pieces: &[u32],
    work: &mut [u64],
    lay: Lay,
    p: Places,
    z: Sizes,
    g: Grid,
)
    requires { Ready blocks.now insts.now addresses.now ends.now pieces.now lay p z g work.old }
    ensures { MarkedAll blocks.now insts.now addresses.now ends.now pieces.now lay p z g work.old work.new }
{
    area_flow::clear_marks(work, g, blocks.len() / block::WIDTH);
    for l in 0..z.locals {
        mark_one(
            blocks, insts, addresses, ends, pieces, work, lay, p, z, g, l,
        );
    }
}
