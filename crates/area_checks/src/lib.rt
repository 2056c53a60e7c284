// The refusals that come before the areas are measured: numbers 1, 2, 3, 4, 6 and 7, in linear time and without work space.
#![tactic(auto)]

ghost use Rattle.std.specs.Prelude.{◌≡◌, ◌+◌, ◌*◌, ◌/◌, ◌≤◌, ◌<◌};
ghost use Rattle.words.specs.Rows.{row_count, field};
ghost use Rattle.words.specs.Widths.{block_count, touch_width};
ghost use Rattle.graph.specs.Line.{blocks_of};
ghost use Rattle.areas.specs.Slots.{off_line};
ghost use Rattle.area_layout.specs.Layout.{space_for};
ghost use Rattle.area_layout.specs.Inner.{Numbers, Small};
ghost use Rattle.area_checks.specs.Checks.{row_counts, kinds_verdict, touch_verdict, space_verdict, lent_verdict};

use area_layout::Sizes;
use refusals::{Refusal, Refused, Verdict};
use words::widths::{block, edge, part, range, stop, touch};

// Refusal 1 of the locals, the touches, the ends, the area list and the list of items, by their lengths.
fn counts(kinds: usize, touches: usize, ends: usize, areas: usize, items: usize) -> Verdict
    ensures { result ≡ row_counts kinds touches ends areas items }
{
    let a = insts::counts::most(kinds, 2048);
    let b = insts::counts::rows(touches, touch::WIDTH, 65536);
    let c = insts::counts::rows(ends, stop::WIDTH, 65536);
    let d = insts::counts::rows(areas, range::WIDTH, 65536);
    let e = insts::counts::rows(items, part::WIDTH, items);
    refusals::earlier(
        a,
        refusals::earlier(b, refusals::earlier(c, refusals::earlier(d, e))),
    )
}

// Refusal 4: the first kind over 2.
fn known(kinds: &[u32]) -> Verdict
    ensures { result ≡ kinds_verdict kinds.now }
{
    insts::checks::below(kinds, 1, 0, 3, Refusal::Inst)
}

// Whether the range of row `i`, of a live piece or of a touch, is reversed or not wholly in the blocks.
pub fn off_line(blocks: &[u32], rows: &[u32], i: usize) -> bool
    requires { (1 ≤ block_count blocks.now) × (i < row_count touch_width rows.now) }
    ensures { result ≡ off_line (blocks_of blocks.now) (field touch_width rows.now i 1) (field touch_width rows.now i 2) }
{
    let start = rows[touch::WIDTH * i + touch::START];
    let end = rows[touch::WIDTH * i + touch::END];
    if end < start {
        return true;
    }
    if start < blocks[block::START] {
        return true;
    }
    let last = blocks.len() / block::WIDTH - 1;
    blocks[block::WIDTH * last + block::END] < end
}

// Refusal 6: the first touch that is reversed or not wholly in the blocks, whoever's it is.
fn first_off_line(blocks: &[u32], touches: &[u32]) -> Verdict
    requires { 1 ≤ block_count blocks.now }
    ensures { result ≡ touch_verdict blocks.now touches.now }
{
    let n = touches.len() / touch::WIDTH;
    for i in 0..n {
        if off_line(blocks, touches, i) {
            return Err(Refused(Refusal::Piece, i));
        }
    }
    Ok(())
}

// W, the words of work space that are needed. No sum is too large for numbers of 32 bits.
pub fn needed(z: Sizes) -> usize
    requires { Numbers z }
    ensures { result ≡ space_for z }
{
    let rows = z.blocks * ((z.locals + 63) / 64);
    8 * (z.blocks + z.edges + z.locals + z.touches + z.ends + rows + z.room)
}

// W by numbers of records, for any numbers.
pub fn words(blocks: u32, edges: u32, locals: u32, touches: u32, ends: u32, ranges: u32) -> u64
    ensures { result ≡ space_for (record { blocks = blocks; edges = edges; locals = locals; touches = touches; ends = ends; room = ranges }) }
{
    needed(Sizes {
        blocks: blocks as usize,
        edges: edges as usize,
        locals: locals as usize,
        touches: touches as usize,
        ends: ends as usize,
        room: ranges as usize,
    }) as u64
}

// Refusal 7: work space under W, or an item list under the locals.
fn short(z: Sizes, items: usize, work: usize) -> Verdict
    requires { Small z }
    ensures { result ≡ space_verdict z items work }
{
    if work < needed(z) {
        return Err(Refused(Refusal::Space, 0));
    }
    if items / part::WIDTH < z.locals {
        return Err(Refused(Refusal::Space, 0));
    }
    Ok(())
}

// Of the entry, by the lent blocks, edges, kinds and touches and the lengths of the other lists.
pub fn refusal(
    blocks: &[u32],
    edges: &[u32],
    points: u32,
    kinds: &[u32],
    touches: &[u32],
    ends: usize,
    areas: usize,
    items: usize,
    work: usize,
) -> Verdict
    ensures { result ≡ lent_verdict blocks.now edges.now points kinds.now touches.now ends areas items work }
{
    counts(kinds.len(), touches.len(), ends, areas, items)?;
    line_checks::check(blocks, edges, points)?;
    let z = Sizes {
        blocks: blocks.len() / block::WIDTH,
        edges: edges.len() / edge::WIDTH,
        locals: kinds.len(),
        touches: touches.len() / touch::WIDTH,
        ends: ends / stop::WIDTH,
        room: areas / range::WIDTH,
    };
    let kind = known(kinds);
    let piece = first_off_line(blocks, touches);
    let space = short(z, items, work);
    refusals::earlier(kind, refusals::earlier(piece, space))
}
