// The areas of all locals of a job, one behind another in item order, and the table of their items.
#![tactic(auto)]

ghost use Rattle.std.specs.Prelude.{◌+◌, ◌*◌, ◌≤◌, ◌<◌};
ghost use Rattle.job_measure.specs.Inner.{most_in, Ready, Next, MeasuredLocals};

use area_flow::Grid;
use area_measure::Listing;
use area_pieces::Local;
use follow::Sizes;
use job_spots::Places;
use reach::Lay;
use words::widths::block;

// Follows local l, fetches its touches and ends and puts its area behind the `total` ranges so far; an unfollowed local has none.
fn measure_next(
    blocks: &[u32],
    insts: &[u32],
    addresses: &[u32],
    ends: &[u32],
    pieces: &[u32],
    work: &mut [u64],
    lay: Lay,
    p: Places,
    z: Sizes,
    g: Grid,
    mark: usize,
    o: Listing,
    l: usize,
    total: usize,
) -> usize
    requires ready { Ready blocks.now insts.now addresses.now ends.now pieces.now lay p z g mark o work.old }
    requires l_lt_locals { (l < z.locals) × (total ≤ l * most_in blocks.now addresses.now pieces.now) }
    ensures { Next blocks.now insts.now addresses.now ends.now pieces.now lay p z g mark o l total work.old
        work.new result }
{
    let f = job_spots::fetch::fetch(insts, addresses, ends, pieces, work, lay, p, z, l);
    let k = f.kind;
    if job_spots::fetch::unfollowed(k) {
        work[o.items + l] = 0;
        return total;
    }
    let row = g.to + l * g.width;
    let span = mark + g.width;
    let to = span + blocks.len() / block::WIDTH;
    area_measure::measure_one(
        blocks,
        work,
        kind_numbers::number(k),
        f.spots,
        Local {
            row: row,
            wide: g.width,
            written: g.written,
            read: g.read,
            words: g.words,
            local: l,
            mark: mark,
            span: span,
            to: to,
        },
        o,
        total,
    )
}

// The areas of all locals in item order, where they fit, and the table of items; how many ranges they have together.
pub fn measure_locals(
    blocks: &[u32],
    insts: &[u32],
    addresses: &[u32],
    ends: &[u32],
    pieces: &[u32],
    work: &mut [u64],
    lay: Lay,
    p: Places,
    z: Sizes,
    g: Grid,
    mark: usize,
    o: Listing,
) -> usize
    requires { Ready blocks.now insts.now addresses.now ends.now pieces.now lay p z g mark o work.old }
    ensures { MeasuredLocals blocks.now insts.now addresses.now ends.now pieces.now lay p z g mark o work.old
        work.new result }
{
    let mut total = 0;
    for l in 0..z.locals {
        total = measure_next(
            blocks, insts, addresses, ends, pieces, work, lay, p, z, g, mark, o, l, total,
        );
    }
    total
}
