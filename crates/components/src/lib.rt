// The components of the graph.
#![tactic(auto)]

ghost use Rattle.std.specs.Prelude.{◌≡◌, ◌+◌, ◌*◌, ◌/◌, ◌≤◌, length};
ghost use Rattle.graph.specs.Line.{blocks_of, jumps_of, edge_verdict, Sound};
ghost use Rattle.components.specs.Entry.{verdict_of, Answered};
ghost use Rattle.components.specs.Inner.{Solved};
ghost use Rattle.words.specs.Widths.{block_count, edge_count};
ghost use Rattle.refusals.specs.Verdicts.{Fine};

use refusals::{Answer, Verdict};
use words::widths::{block, edge};

// The refusals of the entry, lowest number first.
pub fn refusal(blocks: &[u32], edges: &[u32], points: u32, answer: usize, work: usize) -> Verdict
    ensures { result ≡ verdict_of blocks.now edges.now points answer work }
{
    line_checks::check(blocks, edges, points)?;
    let n = blocks.len() / block::WIDTH;
    let e = edges.len() / edge::WIDTH;
    line_checks::space(answer, n, work, n, e, 0)
}

// The components of a graph that was checked: their numbers stand behind the successors' rows.
fn solve(blocks: &[u32], edges: &[u32], work: &mut [u64]) -> usize
    requires sound { Sound (blocks_of blocks.now) × (edge_verdict (blocks_of blocks.now) (jumps_of edges.now) ≡ Fine) }
    requires edges_in_bounds { 8 * (block_count blocks.now + edge_count edges.now + 0) ≤ length work.old }
    ensures { Solved blocks.now edges.now
        (edge_count edges.now + edge_count edges.now + (block_count blocks.now + 1 + edge_count edges.now)) work.old work.new result }
{
    let n = blocks.len() / block::WIDTH;
    let e = edges.len() / edge::WIDTH;
    edge_rows::successors(blocks, edges, work, 0);
    tarjan::components(work, n, e + e, e + e + (n + 1 + e))
}

// The components of the graph: places are in one component exactly when each reaches the other, and an edge that leaves one enters a
// lower-numbered one. The answer list has the number of each place's component. Refusals: 1, 2, 3, and 7 where the answer list has fewer
// numbers than there are blocks or the work space fewer words than 8 times the blocks and edges. Linear in blocks and edges.
pub fn components(
    blocks: &[u32],
    edges: &[u32],
    points: u32,
    which: &mut [u32],
    work: &mut [u64],
) -> Answer
    ensures { Answered blocks.now edges.now points which.old work.old result which.new work.new }
{
    refusal(blocks, edges, points, which.len(), work.len())?;
    let n = blocks.len() / block::WIDTH;
    let e = edges.len() / edge::WIDTH;
    let count = solve(blocks, edges, work);
    words::narrow(which, 0, work, e + e + (n + 1 + e), n);
    words::clear(work, 8 * (n + e));
    Ok(count)
}
