// The checks of the blocks and the edges that an entry is lent: refusals 1, 2 and 3, in linear time and without work space.
#![tactic(auto)]

ghost use Rattle.std.specs.Prelude.{◌≡◌, ◌+◌, ◌*◌, ◌/◌, ◌≤◌, ◌<◌, length, eqb};
ghost use Rattle.refusals.specs.declared.Refusal.TheVariants.{Edge as EdgeWord};
ghost use Rattle.refusals.specs.Verdicts.{scan, room_verdict};
ghost use Rattle.graph.specs.Line.{blocks_of, jumps_of, line_verdict, bad_edge};
ghost use Rattle.graph.specs.Inner.Checks.{bad_span};
ghost use Rattle.graph.specs.Checks.{count_verdict, graph_verdict, rows_verdict, space_of};
ghost use Rattle.words.specs.Widths.{block_count};

use refusals::{Refusal, Refused, Verdict};
use words::wide;
use words::widths::{block, edge};

// Refusal 1: whole records, 1 to 4,096 blocks and at most 16,384 edges.
pub fn count(blocks: &[u32], edges: &[u32]) -> Verdict
    ensures { result ≡ count_verdict blocks.now edges.now }
{
    if blocks.len() % block::WIDTH != 0 {
        return Err(Refused(Refusal::Count, 0));
    }
    if blocks.len() / block::WIDTH < 1 {
        return Err(Refused(Refusal::Count, 0));
    }
    if 4096 < blocks.len() / block::WIDTH {
        return Err(Refused(Refusal::Count, 0));
    }
    if edges.len() % edge::WIDTH != 0 {
        return Err(Refused(Refusal::Count, 0));
    }
    if 16384 < edges.len() / edge::WIDTH {
        return Err(Refused(Refusal::Count, 0));
    }
    Ok(())
}

// Whether `start` is one past `last`.
fn follows(start: u32, last: u32) -> bool
    ensures { result ≡ eqb start (last + 1) }
{
    if start <= last {
        return false;
    }
    start - last == 1
}

// Whether block i is reversed, leaves a gap, or is the last and ends past the points.
fn bad_span(blocks: &[u32], points: u32, i: usize) -> bool
    requires { i < block_count blocks.now }
    ensures { result ≡ bad_span (blocks_of blocks.now) points i }
{
    let start = blocks[block::WIDTH * i + block::START];
    let end = blocks[block::WIDTH * i + block::END];
    if end < start {
        return true;
    }
    if 0 < i {
        if !follows(start, blocks[block::WIDTH * i - 1]) {
            return true;
        }
    }
    if i + 1 == blocks.len() / block::WIDTH {
        return points < end;
    }
    false
}

// Refusal 2: the first block that is out of line. The block numbers that were seen are kept as bits.
pub fn line(blocks: &[u32], points: u32) -> Verdict
    requires { block_count blocks.now ≤ 4096 }
    ensures { result ≡ line_verdict (blocks_of blocks.now) points }
{
    let n = blocks.len() / block::WIDTH;
    let mut used: [u64; 64] = [0; 64];
    for i in 0..n {
        let number = wide(blocks[block::WIDTH * i]);
        if n <= number {
            return Err(Refused(Refusal::Line, i));
        }
        if bits::test(&used, 0, number) {
            return Err(Refused(Refusal::Line, i));
        }
        if bad_span(blocks, points, i) {
            return Err(Refused(Refusal::Line, i));
        }
        bits::set(&mut used, 0, number);
    }
    Ok(())
}

// Refusal 3: the first edge that names none of the n blocks.
pub fn edge(edges: &[u32], n: usize) -> Verdict
    ensures { result ≡ scan EdgeWord (bad_edge n (jumps_of edges.now)) (length (jumps_of edges.now)) }
{
    let m = edges.len() / edge::WIDTH;
    for i in 0..m {
        if n <= wide(edges[edge::WIDTH * i]) {
            return Err(Refused(Refusal::Edge, i));
        }
        if n <= wide(edges[edge::WIDTH * i + edge::INTO]) {
            return Err(Refused(Refusal::Edge, i));
        }
    }
    Ok(())
}

// Refusals 1, 2 and 3 for the blocks and the edges.
pub fn check(blocks: &[u32], edges: &[u32], points: u32) -> Verdict
    ensures { result ≡ graph_verdict blocks.now edges.now points }
{
    count(blocks, edges)?;
    line(blocks, points)?;
    edge(edges, blocks.len() / block::WIDTH)
}

// Refusal 1 for rows of bits: n rows of `words` words.
pub fn rows(lent: usize, n: usize, words: usize) -> Verdict
    ensures { result ≡ rows_verdict lent n words }
{
    if words == 0 {
        if lent == 0 {
            return Ok(());
        }
        return Err(Refused(Refusal::Count, 0));
    }
    if lent / words != n {
        return Err(Refused(Refusal::Count, 0));
    }
    if lent % words != 0 {
        return Err(Refused(Refusal::Count, 0));
    }
    Ok(())
}

// Refusal 7: an answer list of `answer` where `most` are needed, or `work` words of work space under W. W is not computed where it might not fit.
pub fn space(answer: usize, most: usize, work: usize, n: usize, e: usize, rows: usize) -> Verdict
    requires { n + e ≤ 20480 }
    ensures { result ≡ room_verdict answer most work (space_of n e rows) }
{
    if answer < most {
        return Err(Refused(Refusal::Space, 0));
    }
    if work / 8 < rows {
        return Err(Refused(Refusal::Space, 0));
    }
    if work / 8 < n + e + rows {
        return Err(Refused(Refusal::Space, 0));
    }
    Ok(())
}
