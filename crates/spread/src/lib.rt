// What arrives at each place where bits are stopped on the way: rows of bits over the places.
#![tactic(auto)]

ghost use Rattle.std.specs.Prelude.{◌≡◌, ◌+◌, ◌*◌, ◌/◌, ◌≤◌, length};
ghost use Rattle.graph.specs.Line.{blocks_of, jumps_of, edge_verdict, Sound};
ghost use Rattle.spread.specs.Entry.{verdict_of, Settled, Answered};
ghost use Rattle.spread.specs.Inner.{Prepared, Solved};
ghost use Rattle.words.specs.Widths.{block_count, edge_count};
ghost use Rattle.refusals.specs.Verdicts.{Fine};

use refusals::Verdict;
use spread_rows::Layout;
use words::widths::{block, edge};

// The successors' rows of a graph that was checked, and behind them the order of the places and their ranks. Where the order begins.
fn prepare(blocks: &[u32], edges: &[u32], work: &mut [u64]) -> usize
    requires sound { Sound (blocks_of blocks.now) × (edge_verdict (blocks_of blocks.now) (jumps_of edges.now) ≡ Fine) }
    requires edges_in_bounds { 8 * (block_count blocks.now + edge_count edges.now) ≤ length work.old }
    ensures { Prepared blocks.now edges.now result work.old work.new }
{
    let n = blocks.len() / block::WIDTH;
    let e = edges.len() / edge::WIDTH;
    let at = e + e;
    let base = at + (n + 1 + e);
    edge_rows::successors(blocks, edges, work, 0);
    postorder::order(work, n, at, base);
    base
}

// The places in an order where, loops aside, each comes after the places that have an edge to it. Refusals: 1, 2, 3, and 7 where the answer list
// has fewer numbers than there are blocks or the work space fewer words than 8 times the blocks and edges. Linear in blocks and edges.
pub fn settling(
    blocks: &[u32],
    edges: &[u32],
    points: u32,
    order: &mut [u32],
    work: &mut [u64],
) -> Verdict
    ensures { Settled blocks.now edges.now points order.old work.old result order.new work.new }
{
    components::refusal(blocks, edges, points, order.len(), work.len())?;
    let at = prepare(blocks, edges, work);
    words::narrow(order, 0, work, at, blocks.len() / block::WIDTH);
    words::clear(
        work,
        8 * (blocks.len() / block::WIDTH + edges.len() / edge::WIDTH),
    );
    Ok(())
}

fn refusal(
    blocks: &[u32],
    edges: &[u32],
    points: u32,
    leaving: usize,
    passing: usize,
    words: usize,
    answer: usize,
    work: usize,
) -> Verdict
    ensures { result ≡ verdict_of blocks.now edges.now points leaving passing words answer work }
{
    line_checks::rows(passing, blocks.len() / block::WIDTH, words)?;
    flow::refusal(blocks, edges, points, leaving, words, answer, work)
}

// What arrives in a graph that was checked: the rows stand behind the rows lent and the row of what waits. Where they begin.
fn solve(
    blocks: &[u32],
    edges: &[u32],
    leaves: &[u64],
    passes: &[u64],
    words: usize,
    work: &mut [u64],
) -> usize
    requires sound { Sound (blocks_of blocks.now) × (edge_verdict (blocks_of blocks.now) (jumps_of edges.now) ≡ Fine) × (block_count blocks.now ≤ 4096) }
    requires leaves_len { (length leaves.now ≡ block_count blocks.now * words) × (length passes.now ≡ block_count blocks.now * words) }
    requires leaves_in_bounds { 8 * (block_count blocks.now + edge_count edges.now + length leaves.now) ≤ length work.old }
    ensures { Solved blocks.now edges.now leaves.now passes.now words result work.old work.new }
{
    let n = blocks.len() / block::WIDTH;
    let e = edges.len() / edge::WIDTH;
    let order = prepare(blocks, edges, work);
    let rank = order + n;
    let lent = rank + n;
    let pass = lent + leaves.len();
    let wait = pass + leaves.len();
    words::copy_from(work, lent, leaves, 0, leaves.len());
    words::copy_from(work, pass, passes, 0, leaves.len());
    spread_rows::spread(
        work,
        Layout {
            n: n,
            at: e + e,
            order: order,
            rank: rank,
            words: words,
            leaves: lent,
            passes: pass,
            wait: wait,
        },
    );
    wait + (n / 64 + 1)
}

// What arrives at each place: any predecessor's arriving bits that pass, or its leaving bits, by rows of `words` words of bits over the places.
// Refusals: 1 (also rows that are not one to a block), 2, 3, and 7 where the answer list has fewer words than the rows or the work space fewer
// than 8 times the blocks, edges and words of the rows. A place is looked at again only when its row grew.
pub fn spread(
    blocks: &[u32],
    edges: &[u32],
    points: u32,
    leaves: &[u64],
    passes: &[u64],
    words: usize,
    out: &mut [u64],
    work: &mut [u64],
) -> Verdict
    ensures { Answered blocks.now edges.now points leaves.now passes.now words out.old work.old result
        out.new work.new }
{
    refusal(
        blocks,
        edges,
        points,
        leaves.len(),
        passes.len(),
        words,
        out.len(),
        work.len(),
    )?;
    let at = solve(blocks, edges, leaves, passes, words, work);
    words::copy_from(out, 0, work, at, leaves.len());
    words::clear(
        work,
        8 * (blocks.len() / block::WIDTH + edges.len() / edge::WIDTH + leaves.len()),
    );
    Ok(())
}
