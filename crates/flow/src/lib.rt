// What flows along the edges: rows of bits over the places.
#![tactic(auto)]

ghost use Rattle.std.specs.Prelude.{◌≡◌, ◌+◌, ◌*◌, ◌/◌, ◌≤◌, length};
ghost use Rattle.graph.specs.Line.{blocks_of, jumps_of, edge_verdict, Sound};
ghost use Rattle.graph.specs.Inner.Work.{Neighbours};
ghost use Rattle.components.specs.Entry.{edges_in};
ghost use Rattle.flow.specs.Inner.{way_of, Solved};
ghost use Rattle.flow.specs.Entry.{verdict_of, Answered};
ghost use Rattle.words.specs.Widths.{block_count, edge_count};
ghost use Rattle.refusals.specs.Verdicts.{Fine};

use flow_rows::Flow;
use refusals::Verdict;
use words::widths::{block, edge};

// Which edges are followed.
#[derive(Clone, Copy)]
pub enum Over {
    Predecessors,
    Successors,
}

// The refusals of the entry, lowest number first.
pub fn refusal(
    blocks: &[u32],
    edges: &[u32],
    points: u32,
    lent: usize,
    words: usize,
    answer: usize,
    work: usize,
) -> Verdict
    ensures { result ≡ verdict_of blocks.now edges.now points lent words answer work }
{
    let n = blocks.len() / block::WIDTH;
    line_checks::rows(lent, n, words)?;
    line_checks::check(blocks, edges, points)?;
    line_checks::space(answer, lent, work, n, edges.len() / edge::WIDTH, lent)
}

// The rows of the edges that are followed.
fn neighbours(over: Over, blocks: &[u32], edges: &[u32], work: &mut [u64])
    requires sound { Sound (blocks_of blocks.now) × (edge_verdict (blocks_of blocks.now) (jumps_of edges.now) ≡ Fine) }
    requires edges_in_bounds { 0 + edge_count edges.now + edge_count edges.now + (block_count blocks.now + 1 + edge_count edges.now) ≤ length work.old }
    ensures { Neighbours (way_of over (edges_in blocks.now edges.now)) (block_count blocks.now) (edge_count edges.now) 0
        work.old work.new }
{
    match over {
        Over::Predecessors => edge_rows::predecessors(blocks, edges, work, 0),
        Over::Successors => edge_rows::successors(blocks, edges, work, 0),
    }
}

// The rows of a graph that was checked: they stand behind the rows lent, which stand behind the components. Where they begin.
fn solve(
    over: Over,
    blocks: &[u32],
    edges: &[u32],
    touched: &[u64],
    words: usize,
    work: &mut [u64],
) -> usize
    requires sound { Sound (blocks_of blocks.now) × (edge_verdict (blocks_of blocks.now) (jumps_of edges.now) ≡ Fine) × (length touched.now ≡ block_count blocks.now * words) }
    requires touched_in_bounds { 8 * (block_count blocks.now + edge_count edges.now + length touched.now) ≤ length work.old }
    ensures { Solved over blocks.now edges.now touched.now words result work.old work.new }
{
    let n = blocks.len() / block::WIDTH;
    let e = edges.len() / edge::WIDTH;
    let base = e + e + (n + 1 + e);
    let lent = base + 6 * n;
    let out = lent + touched.len();
    neighbours(over, blocks, edges, work);
    tarjan::components(work, n, e + e, base);
    words::copy_from(work, lent, touched, 0, touched.len());
    flow_rows::flowed(
        work,
        Flow {
            n: n,
            at: e + e,
            base: base,
            words: words,
            touched: lent,
            out: out,
        },
    );
    out
}

// Which touched places are reached over one or more edges, or reach a place, by rows of `words` words of bits over the places. Refusals: 1 (also
// rows that are not one to a block), 2, 3, and 7 where the answer list has fewer words than the rows or the work space fewer than
// 8 times the blocks, edges and words of the rows. Linear in edges and words.
pub fn flowed(
    over: Over,
    blocks: &[u32],
    edges: &[u32],
    points: u32,
    touched: &[u64],
    words: usize,
    out: &mut [u64],
    work: &mut [u64],
) -> Verdict
    ensures { Answered over blocks.now edges.now points touched.now words out.old work.old result out.new work.new }
{
    refusal(
        blocks,
        edges,
        points,
        touched.len(),
        words,
        out.len(),
        work.len(),
    )?;
    let at = solve(over, blocks, edges, touched, words, work);
    words::copy_from(out, 0, work, at, touched.len());
    words::clear(
        work,
        8 * (blocks.len() / block::WIDTH + edges.len() / edge::WIDTH + touched.len()),
    );
    Ok(())
}
