// From the marks of the locals to the rows of their areas: what flows over predecessors and successors, what arrives, and the blocks of each local.
#![tactic(auto)]

ghost use Rattle.std.specs.Prelude.{◌≡◌, ◌+◌, ◌*◌, ◌/◌, ◌≤◌, length};
ghost use Rattle.graph.specs.Line.{blocks_of, jumps_of, edge_verdict, Sound};
ghost use Rattle.graph.specs.Inner.Work.{Neighbours};
ghost use Rattle.components.specs.Entry.{edges_in};
ghost use Rattle.flow.specs.Inner.{way_of};
ghost use Rattle.area_flow.specs.Inner.{Laid, Unmarked, Quiet, AreaRows, Linked, FlowedOver, ArrivedAt, Flowing, Still, Blocked};
ghost use Rattle.words.specs.Widths.{block_count, edge_count};
ghost use Rattle.refusals.specs.Verdicts.{Fine};

use flow::Over;
use flow_rows::Flow;
use row_turns::Turn;
use spread_rows::Layout;
use words::widths::{block, edge};

// Where the rows of n places stand in the work space: edge columns and edge rows from `base` on, Tarjan's arrays from `tarjan` on; rows of `words` words, a bit a local,
// that are touched, left and passed, what is written and read, what waits and arrives; rows of `width` words, a bit a place, of `locals` locals from `to` on.
#[derive(Clone, Copy)]
pub struct Grid {
    pub words: usize,
    pub locals: usize,
    pub width: usize,
    pub base: usize,
    pub tarjan: usize,
    pub touched: usize,
    pub leaves: usize,
    pub passes: usize,
    pub written: usize,
    pub read: usize,
    pub wait: usize,
    pub to: usize,
}

// The marks before any local: no place is touched or left, each is passed.
pub fn clear_marks(work: &mut [u64], g: Grid, n: usize)
    requires { (g.touched + n * g.words ≤ g.leaves) × (g.leaves + n * g.words ≤ g.passes) × (g.passes + n * g.words ≤ length work.old) }
    ensures { Unmarked g n work.old work.new }
{
    let size = n * g.words;
    words::fill(work, g.touched, size, 0);
    words::fill(work, g.leaves, size, 0);
    words::fill(work, g.passes, size, 0xffff_ffff_ffff_ffff);
}

// The rows of the edges that are followed.
fn lay(over: Over, blocks: &[u32], edges: &[u32], work: &mut [u64], base: usize)
    requires sound { Sound (blocks_of blocks.now) × (edge_verdict (blocks_of blocks.now) (jumps_of edges.now) ≡ Fine) }
    requires edges_in_bounds { base + edge_count edges.now + edge_count edges.now + (block_count blocks.now + 1 + edge_count edges.now) ≤ length work.old }
    ensures { Neighbours (way_of over (edges_in blocks.now edges.now)) (block_count blocks.now) (edge_count edges.now) base
        work.old work.new }
{
    match over {
        Over::Predecessors => edge_rows::predecessors(blocks, edges, work, base),
        Over::Successors => edge_rows::successors(blocks, edges, work, base),
    }
}

// `flowed` of the touched rows, into the rows from `out` on.
fn flow_over(over: Over, blocks: &[u32], edges: &[u32], work: &mut [u64], g: Grid, out: usize)
    requires sound { Sound (blocks_of blocks.now) × (edge_verdict (blocks_of blocks.now) (jumps_of edges.now) ≡ Fine) × Laid g (block_count blocks.now) (edge_count edges.now) work.old }
    requires words_bound { (g.touched + block_count blocks.now * g.words ≤ out) × (out + block_count blocks.now * g.words ≤ length work.old) }
    ensures { FlowedOver over (edges_in blocks.now edges.now) g (block_count blocks.now) (edge_count edges.now) out work.old
        work.new }
{
    let n = blocks.len() / block::WIDTH;
    let e = edges.len() / edge::WIDTH;
    let at = g.base + e + e;
    lay(over, blocks, edges, work, g.base);
    tarjan::components(work, n, at, g.tarjan);
    flow_rows::flowed(
        work,
        Flow {
            n: n,
            at: at,
            base: g.tarjan,
            words: g.words,
            touched: g.touched,
            out: out,
        },
    );
}

// `spread` of the leaving and passing rows, in the settling order.
fn arrive(work: &mut [u64], g: Grid, n: usize, e: usize)
    requires { Laid g n e work.old × Linked g n e work.old }
    ensures { ArrivedAt g n e work.old work.new }
{
    let order = g.tarjan;
    let at = g.base + e + e;
    postorder::order(work, n, at, order);
    spread_rows::spread(
        work,
        Layout {
            n: n,
            at: at,
            order: order,
            rank: order + n,
            words: g.words,
            leaves: g.leaves,
            passes: g.passes,
            wait: g.wait,
        },
    );
}

// What is written above each place, what is read below it, and what arrives.
fn flow_rows(blocks: &[u32], edges: &[u32], work: &mut [u64], g: Grid)
    requires { Sound (blocks_of blocks.now) × (edge_verdict (blocks_of blocks.now) (jumps_of edges.now) ≡ Fine) × Laid g (block_count blocks.now) (edge_count edges.now) work.old }
    ensures { Flowing (edges_in blocks.now edges.now) g (block_count blocks.now) work.old work.new }
{
    let n = blocks.len() / block::WIDTH;
    let e = edges.len() / edge::WIDTH;
    flow_over(Over::Predecessors, blocks, edges, work, g, g.written);
    flow_over(Over::Successors, blocks, edges, work, g, g.read);
    arrive(work, g, n, e);
}

// The blocks of each local: those where it is both written and read, and those where it arrives.
fn turn_rows(work: &mut [u64], g: Grid, n: usize)
    requires { Still g n work.old }
    ensures { Blocked g n work.old work.new }
{
    let arriving = g.wait + (n / 64 + 1);
    words::fill(work, g.to, g.locals * g.width, 0);
    row_turns::by_local(
        work,
        Turn {
            n: n,
            words: g.words,
            one: g.written,
            two: g.read,
            locals: g.locals,
            width: g.width,
            to: g.to,
        },
    );
    row_turns::by_local(
        work,
        Turn {
            n: n,
            words: g.words,
            one: arriving,
            two: arriving,
            locals: g.locals,
            width: g.width,
            to: g.to,
        },
    );
}

// From the touched, leaving and passing rows to what is written, read and arrives at each place, and to the blocks of each local.
pub fn area_rows(blocks: &[u32], edges: &[u32], work: &mut [u64], g: Grid)
    requires sound { Sound (blocks_of blocks.now) × (edge_verdict (blocks_of blocks.now) (jumps_of edges.now) ≡ Fine) × Laid g (block_count blocks.now) (edge_count edges.now) work.old }
    requires quiet { Quiet g (block_count blocks.now) work.old }
    ensures { AreaRows (edges_in blocks.now edges.now) g (block_count blocks.now) work.old work.new }
{
    flow_rows(blocks, edges, work, g);
    turn_rows(work, g, blocks.len() / block::WIDTH);
}
