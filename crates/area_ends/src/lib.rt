// The area of an ending local: its touches run to their first ends, and so do the blocks that it arrives at.
#![tactic(auto)]

ghost use Rattle.std.specs.Prelude.{◌≡◌, List, [], ◌+◌, ◌*◌, ◌/◌, ◌≤◌, ◌<◌, length};
ghost use Rattle.ranges.specs.Inner.{unpack};
ghost use Rattle.graph.specs.Paths.{Edge};
ghost use Rattle.graph.specs.Line.{blocks_of, Sound};
ghost use Rattle.areas.specs.Blocks.{InLine, AllInLine};
ghost use Rattle.spots.specs.Spots.{line_of};
ghost use Rattle.spots.specs.Inner.{touches_at, ends_at, Stand};
ghost use Rattle.area_pieces.specs.Inner.{own_bit, mark_bit, Laid, Bounded};
ghost use Rattle.area_ends.specs.Inner.{EndingIn, arrival, Covered, Covers, Arrived, Arriving, Arrivable};
ghost use Rattle.words.specs.Widths.{block_count};

use area_pieces::Local;
use spots::Spots;
use words::widths::block;

// Puts the pieces of a touch behind the m pieces: its covers in its first and its last block, and its between-piece.
fn cover_touch(blocks: &[u32], work: &mut [u64], t: Spots, s: Local, x: u64, m: usize) -> usize
    requires sound { Sound (blocks_of blocks.now) × Stand t work.old × InLine (blocks_of blocks.now) (unpack x) }
    requires count_bound { (t.at + t.count ≤ s.to) × (t.ends + t.stops ≤ s.to) × (s.to + (m + 3) ≤ length work.old) }
    ensures { (es : List Edge) → Covered (line_of blocks.now es) (ends_at t work.old) s x m result work.old work.new }
{
    let first = spots::holding(blocks, packed::start_of(x)).0;
    let last = spots::holding(blocks, packed::end_of(x)).0;
    let one = touch_covers::cover(blocks, work, t, first, x);
    work[s.to + m] = one;
    let next = m + 1;
    if last <= first {
        return next;
    }
    let two = touch_covers::cover(blocks, work, t, last, x);
    work[s.to + next] = two;
    let third = next + 1;
    if last <= first + 1 {
        return third;
    }
    work[s.to + third] = area_pieces::between(blocks, first, last);
    third + 1
}

// The pieces of the touches, from `to` on; how many there are.
fn covers(blocks: &[u32], work: &mut [u64], t: Spots, s: Local) -> usize
    requires { Sound (blocks_of blocks.now) × Laid t s (block_count blocks.now) (3 * t.count) work.old × Stand t work.old × AllInLine (blocks_of blocks.now) (touches_at t work.old) }
    ensures { (es : List Edge) → Covers (line_of blocks.now es) (ends_at t work.old) s (touches_at t work.old) result work.old work.new }
{
    let mut m = 0;
    for i in 0..t.count {
        let x = work[t.at + i];
        m = cover_touch(blocks, work, t, s, x, m);
    }
    m
}

// A block arrived at, from its top to its first end.
fn arrival(blocks: &[u32], work: &[u64], t: Spots, k: usize) -> u64
    requires { (k < block_count blocks.now) × Stand t work.now }
    ensures { unpack result ≡ arrival (line_of blocks.now []) (ends_at t work.now) k }
{
    let top = blocks[block::WIDTH * k + block::START];
    let end = spots::until(
        work,
        t.ends,
        t.stops,
        top,
        blocks[block::WIDTH * k + block::END],
    );
    packed::pack(top, end)
}

// The pieces of the marked blocks, from `from` on; how many there are. The marks are taken away.
fn arrive(blocks: &[u32], work: &mut [u64], t: Spots, s: Local, from: usize) -> usize
    requires { Arriving t s (block_count blocks.now) from work.old }
    ensures { (es : List Edge) → Arrived (line_of blocks.now es) (ends_at t work.old) (mark_bit s work.old) s
        (block_count blocks.now) from result work.old work.new }
{
    let end = s.wide * 64;
    let mut n = 0;
    let mut k = bits::first_from(work, s.mark, s.wide, 0);
    while k < end {
        let x = arrival(blocks, work, t, k);
        work[from + n] = x;
        n += 1;
        bits::unset(work, s.mark, k);
        k = bits::first_from(work, s.mark, s.wide, k / 64);
    }
    n
}

// The blocks that the local arrives at by its own row, from `from` on; how many there are.
fn arrived(blocks: &[u32], work: &mut [u64], t: Spots, s: Local, from: usize) -> usize
    requires { Arrivable t s (block_count blocks.now) from work.old }
    ensures { (es : List Edge) → Arrived (line_of blocks.now es) (ends_at t work.old) (own_bit s work.old) s
        (block_count blocks.now) from result work.old work.new }
{
    words::copy(work, s.row, s.mark, s.wide);
    arrive(blocks, work, t, s, from)
}

// The area of an ending local, from `to` on; how many ranges it has. From `to` on it needs three words a touch and a word a block.
pub fn ending(blocks: &[u32], work: &mut [u64], t: Spots, s: Local) -> usize
    requires sound { Sound (blocks_of blocks.now) × Laid t s (block_count blocks.now) (3 * t.count + block_count blocks.now) work.old × Stand t work.old }
    requires bounded { Bounded s (block_count blocks.now) work.old × AllInLine (blocks_of blocks.now) (touches_at t work.old) }
    ensures { EndingIn blocks.now t s work.old work.new result }
{
    let m = covers(blocks, work, t, s);
    let n = arrived(blocks, work, t, s, s.to + m);
    packed::merge(work, s.to, m + n)
}
