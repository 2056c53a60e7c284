// The areas in the work space: chains and marks of the locals, the rows of the graph, and the areas one behind another.
#![tactic(auto)]

ghost use Rattle.std.specs.Prelude.{◌≡◌, ◌+◌, ◌/◌, ◌≤◌, length};
ghost use Rattle.graph.specs.Line.{blocks_of, jumps_of, edge_verdict, Sound};
ghost use Rattle.components.specs.Entry.{edges_in};
ghost use Rattle.area_flow.specs.Inner.{Laid, Quiet};
ghost use Rattle.area_checks.specs.Inner.{Lent};
ghost use Rattle.lent_areas.specs.Inner.{Markable, Marking, Rowed, Solved};
ghost use Rattle.words.specs.Widths.{block_count, edge_count};
ghost use Rattle.refusals.specs.Verdicts.{Fine};

use area_flow::Grid;
use area_layout::Sizes;
use area_measure::Listing;
use local_spots::Places;
use words::widths::{block, edge, range, stop, touch};

// The locals are chained and marked.
fn mark(
    blocks: &[u32],
    kinds: &[u32],
    touches: &[u32],
    ends: &[u32],
    work: &mut [u64],
    p: Places,
    g: Grid,
)
    requires { Markable p g blocks.now kinds.now touches.now ends.now work.old }
    ensures { Marking p g blocks.now kinds.now touches.now ends.now work.old work.new }
{
    local_spots::chains(touches, ends, work, p);
    local_marks::mark_all(blocks, kinds, touches, ends, work, p, g);
}

// What flows and arrives, by the marks, and an empty row over the blocks from `from` on.
fn rows(blocks: &[u32], edges: &[u32], work: &mut [u64], g: Grid, from: usize)
    requires sound { Sound (blocks_of blocks.now) × (edge_verdict (blocks_of blocks.now) (jumps_of edges.now) ≡ Fine) × Laid g (block_count blocks.now) (edge_count edges.now) work.old }
    requires quiet { Quiet g (block_count blocks.now) work.old × (from + g.width ≤ length work.old) }
    ensures { Rowed (edges_in blocks.now edges.now) g (block_count blocks.now) from work.old work.new }
{
    area_flow::area_rows(blocks, edges, work, g);
    words::fill(work, from, g.width, 0);
}

// The areas of lists that were checked, with an area list of `areas` numbers; how many ranges they have. Without locals there is nothing to lay out.
pub fn solve(
    blocks: &[u32],
    edges: &[u32],
    kinds: &[u32],
    touches: &[u32],
    ends: &[u32],
    work: &mut [u64],
    areas: usize,
) -> usize
    requires { Lent blocks.now edges.now kinds.now touches.now ends.now areas work.old }
    ensures { Solved blocks.now edges.now kinds.now touches.now ends.now areas work.old work.new result }
{
    if kinds.len() == 0 {
        return 0;
    }
    let z = Sizes {
        blocks: blocks.len() / block::WIDTH,
        edges: edges.len() / edge::WIDTH,
        locals: kinds.len(),
        touches: touches.len() / touch::WIDTH,
        ends: ends.len() / stop::WIDTH,
        room: areas / range::WIDTH,
    };
    let p = area_layout::places(z);
    let g = area_layout::grid(z, p.ends + z.ends);
    let from = g.to + g.locals * g.width;
    mark(blocks, kinds, touches, ends, work, p, g);
    rows(blocks, edges, work, g, from);
    area_measure::locals::measure_all(
        blocks,
        kinds,
        touches,
        ends,
        work,
        p,
        g,
        from,
        Listing {
            areas: 0,
            room: areas / range::WIDTH,
            items: areas / range::WIDTH,
        },
    )
}
