// The locals of a job, from its records to their areas in the work space.
#![tactic(auto)]

ghost use Rattle.std.specs.Prelude.{◌/◌};
ghost use Rattle.job_locals.specs.Inner.{TablesAsked, TablesIn, RowsAsked, RowsIn, Asked, LocalsIn};

use area_flow::Grid;
use area_measure::Listing;
use follow::Sizes;
use job_spots::Places;
use reach::Lay;
use words::widths::{inst, mention};

// What all walks over registers read, and each local's ends as a chain; how many edges between registers there are.
fn tables(
    insts: &[u32],
    operands: &[u32],
    crossings: &[u32],
    addresses: &[u32],
    ends: &[u32],
    work: &mut [u64],
    v: u32,
    locals: usize,
    lay: Lay,
    p: Places,
) -> usize
    requires { TablesAsked insts.now operands.now addresses.now ends.now v locals lay p work.old }
    ensures { TablesIn insts.now operands.now crossings.now addresses.now ends.now v locals lay p work.old
        work.new result }
{
    let n = preparing::prepare(
        insts, operands, crossings, locals, addresses, ends, v, work, lay,
    );
    words::fill(work, p.heads, locals, 0);
    chains::chain(
        ends,
        mention::WIDTH,
        mention::LOCAL,
        ends.len() / mention::WIDTH,
        locals,
        work,
        p.heads,
        p.nexts,
    );
    n
}

// The rows of every local, from its marks, and no block marked from `mark` on.
fn rows(
    blocks: &[u32],
    edges: &[u32],
    insts: &[u32],
    addresses: &[u32],
    ends: &[u32],
    pieces: &[u32],
    work: &mut [u64],
    lay: Lay,
    p: Places,
    z: Sizes,
    g: Grid,
    mark: usize,
)
    requires { RowsAsked blocks.now edges.now insts.now addresses.now ends.now pieces.now lay p z g mark work.old }
    ensures { RowsIn blocks.now edges.now insts.now addresses.now ends.now pieces.now lay p z g mark
        work.old work.new }
{
    job_marks::mark_all(blocks, insts, addresses, ends, pieces, work, lay, p, z, g);
    area_flow::area_rows(blocks, edges, work, g);
    words::fill(work, mark, g.width, 0);
}

// The areas of all locals in item order, where they fit, and the words of their items; how many ranges they have together. The live pieces stand in order
// from `p.keys` on.
pub fn locals(
    blocks: &[u32],
    edges: &[u32],
    insts: &[u32],
    operands: &[u32],
    crossings: &[u32],
    addresses: &[u32],
    ends: &[u32],
    pieces: &[u32],
    work: &mut [u64],
    v: u32,
    locals: usize,
    lay: Lay,
    p: Places,
    g: Grid,
    mark: usize,
    o: Listing,
) -> usize
    requires { Asked blocks.now edges.now insts.now operands.now crossings.now addresses.now ends.now pieces.now v locals lay p g mark o work.old }
    ensures { LocalsIn blocks.now edges.now insts.now operands.now crossings.now addresses.now ends.now
        pieces.now v locals lay p g mark o work.old work.new result }
{
    let n = tables(
        insts, operands, crossings, addresses, ends, work, v, locals, lay, p,
    );
    let z = Sizes {
        v: v,
        insts: insts.len() / inst::WIDTH,
        locals: locals,
        edges: n,
    };
    rows(
        blocks, edges, insts, addresses, ends, pieces, work, lay, p, z, g, mark,
    );
    job_measure::measure_locals(
        blocks, insts, addresses, ends, pieces, work, lay, p, z, g, mark, o,
    )
}
