// From the touches, the ends and the row bits of one local to its area, in the words of one work space.
#![tactic(auto)]

ghost use Rattle.std.specs.Prelude.{◌≡◌, true, List, [], ◌+◌, ◌-◌, ◌*◌, ◌/◌, ◌≤◌, ◌<◌, ◌^◌, length};
ghost use Rattle.packed.specs.Inner.{Clear};
ghost use Rattle.ranges.specs.Points.{range};
ghost use Rattle.ranges.specs.Inner.{unpack};
ghost use Rattle.graph.specs.Paths.{Edge};
ghost use Rattle.graph.specs.Line.{blocks_of, Sound};
ghost use Rattle.areas.specs.Blocks.{top, bottom, clip, InLine, AllInLine};
ghost use Rattle.spots.specs.Spots.{line_of};
ghost use Rattle.spots.specs.Inner.{touches_at};
ghost use Rattle.area_pieces.specs.Inner.{own_bit, Appended, Free, Laid, Unmarked, Flowing, Both, PlainIn, Spannable, Widened};
ghost use Rattle.area_pieces.specs.Inner.{Put, Spanned, piece_at, Run, RunPiece, Taken, Covered, Visitable, Visited, Lined};
ghost use Rattle.words.specs.Widths.{block_count};

use spots::Spots;
use words::widths::block;

// A word with every bit set.
const FULL: u64 = 0xffff_ffff_ffff_ffff;

// Where the rows of one local stand: its own row over the blocks from `row` on, of `wide` words; rows of `words` words, one a block, from
// `written` and from `read` on, in which its bit is `local`. And the words that its pieces are made in: from `mark` on a row over the
// blocks, zero before and after; from `span` on a word a block; from `to` on the pieces, and then the area.
#[derive(Clone, Copy)]
pub struct Local {
    pub row: usize,
    pub wide: usize,
    pub written: usize,
    pub read: usize,
    pub words: usize,
    pub local: usize,
    pub mark: usize,
    pub span: usize,
    pub to: usize,
}

// Puts an area behind the areas so far, where it fits within the room; how many ranges there are then. Past the room nothing more is
// stored, but the total goes on counting: number 9 is told by the ranges of all areas.
pub fn append(
    work: &mut [u64],
    base: usize,
    room: usize,
    total: usize,
    from: usize,
    count: usize,
) -> usize
    requires { (total + count < 2 ^ 64) × (base + room ≤ length work.old) × (from + count ≤ length work.old) × Clear base room from count }
    ensures { Appended work.old work.new base room total from count result }
{
    let sum = total + count;
    if sum <= room {
        words::copy(work, from, base + total, count);
    }
    sum
}

// Puts a range to the span of block k: the first and the last point so far, in one word.
fn widen(work: &mut [u64], s: Local, k: usize, start: u32, end: u32)
    requires { Spannable s k work.old }
    ensures { Widened s k (range start end) work.old work.new }
{
    let at = s.span + k;
    if bits::test(work, s.mark, k) {
        let x = work[at];
        let first = spots::smaller(packed::start_of(x), start);
        let last = spots::larger(packed::end_of(x), end);
        work[at] = packed::pack(first, last);
        return;
    }
    bits::set(work, s.mark, k);
    work[at] = packed::pack(start, end);
}

// The same with a touch, clipped to the block.
fn clip(blocks: &[u32], work: &mut [u64], s: Local, k: usize, x: u64)
    requires { (k < block_count blocks.now) × Spannable s k work.old }
    ensures { Widened s k (clip (line_of blocks.now []) k (unpack x)) work.old work.new }
{
    let start = spots::larger(packed::start_of(x), blocks[block::WIDTH * k + block::START]);
    let end = spots::smaller(packed::end_of(x), blocks[block::WIDTH * k + block::END]);
    widen(work, s, k, start, end);
}

// The blocks between a touch's first and last, as one piece.
pub fn between(blocks: &[u32], first: usize, last: usize) -> u64
    requires { (first + 1 < last) × (last < block_count blocks.now) }
    ensures { unpack result ≡ range (top (line_of blocks.now []) (first + 1)) (bottom (line_of blocks.now []) (last - 1)) }
{
    packed::pack(
        blocks[block::WIDTH * (first + 1) + block::START],
        blocks[block::WIDTH * (last - 1) + block::END],
    )
}

// Puts a touch to the spans of its first and its last block, and its between-piece behind the m pieces.
fn touch(blocks: &[u32], work: &mut [u64], s: Local, x: u64, m: usize) -> usize
    requires { Sound (blocks_of blocks.now) × Free s (block_count blocks.now) (m + 1) work.old × InLine (blocks_of blocks.now) (unpack x) }
    ensures { (es : List Edge) → Put (line_of blocks.now es) s (block_count blocks.now) x m result work.old work.new }
{
    let first = spots::holding(blocks, packed::start_of(x)).0;
    let last = spots::holding(blocks, packed::end_of(x)).0;
    clip(blocks, work, s, first, x);
    if last <= first {
        return m;
    }
    clip(blocks, work, s, last, x);
    if last <= first + 1 {
        return m;
    }
    work[s.to + m] = between(blocks, first, last);
    m + 1
}

// The spans of the touches by block, and their between-pieces from `to` on; how many of these there are.
fn spans(blocks: &[u32], work: &mut [u64], t: Spots, s: Local) -> usize
    requires { Sound (blocks_of blocks.now) × Laid t s (block_count blocks.now) t.count work.old × Unmarked s work.old × AllInLine (blocks_of blocks.now) (touches_at t work.old) }
    ensures { (es : List Edge) → Spanned (line_of blocks.now es) s (block_count blocks.now) (touches_at t work.old) result work.old work.new }
{
    let mut m = 0;
    for i in 0..t.count {
        let x = work[t.at + i];
        m = touch(blocks, work, s, x, m);
    }
    m
}

// The piece of block k: all of it where the local's own row has the bit, else its span, from the top by the written bit and to the bottom
// by the read one.
fn piece(blocks: &[u32], work: &[u64], s: Local, k: usize) -> u64
    requires k_bound { (k < block_count blocks.now) × (k < s.wide * 64) × (s.row + s.wide ≤ length work.now) × (s.span + k < length work.now) }
    requires flowing { Flowing s (block_count blocks.now) × (s.mark ≤ length work.now) }
    ensures { unpack result ≡ piece_at (line_of blocks.now []) s work.now k }
{
    let top = blocks[block::WIDTH * k + block::START];
    let bottom = blocks[block::WIDTH * k + block::END];
    if bits::test(work, s.row, k) {
        return packed::pack(top, bottom);
    }
    let x = work[s.span + k];
    let from = bits::test(work, s.written + k * s.words, s.local);
    let to = bits::test(work, s.read + k * s.words, s.local);
    joining::lengthened(x, top, bottom, from, to)
}

// Where the blocks from k on end that have the local's own bit, within the word of k.
fn reach(work: &[u64], s: Local, k: usize) -> usize
    requires { (k < s.wide * 64) × (s.row + s.wide ≤ length work.now) × (s.wide * 64 < 2 ^ 64) × (own_bit s work.now k ≡ true) }
    ensures { Run s k result work.now }
{
    let end = k / 64 * 64 + 64;
    for e in k + 1..end {
        if !bits::test(work, s.row, e) {
            return e;
        }
    }
    end
}

// Where the blocks end that are visited at once with block k: those of its word of the local's own row that have the bit, else block k alone.
fn run(work: &[u64], s: Local, k: usize) -> usize
    requires { (k < s.wide * 64) × (s.row + s.wide ≤ length work.now) × (s.wide * 64 < 2 ^ 64) }
    ensures { Run s k result work.now }
{
    if work[s.row + k / 64] == FULL {
        return k / 64 * 64 + 64;
    }
    if bits::test(work, s.row, k) {
        return reach(work, s, k);
    }
    k + 1
}

// The piece of the blocks from k up to e.
fn stretch(blocks: &[u32], work: &[u64], s: Local, k: usize, e: usize) -> u64
    requires k_lt_e { (k < e) × (e ≤ block_count blocks.now) × (k < s.wide * 64) × (s.row + s.wide ≤ length work.now) × (s.span + k < length work.now) }
    requires flowing { Flowing s (block_count blocks.now) × (s.mark ≤ length work.now) }
    ensures { RunPiece (line_of blocks.now []) s work.now k e (unpack result) }
{
    if e == k + 1 {
        return piece(blocks, work, s, k);
    }
    packed::pack(
        blocks[block::WIDTH * k + block::START],
        blocks[block::WIDTH * (e - 1) + block::END],
    )
}

// Takes away the marks of the blocks from k up to e, of one word: where e is its end, none is left in it.
fn unmark(work: &mut [u64], s: Local, k: usize, e: usize)
    requires { (k < s.wide * 64) × (s.wide * 64 < 2 ^ 64) × (s.mark + s.wide ≤ length work.old) × (k < e) × (e ≤ k / 64 * 64 + 64) }
    ensures { Taken s k e work.old work.new }
{
    if e % 64 == 0 {
        work[s.mark + k / 64] = 0;
        return;
    }
    for c in k..e {
        bits::unset(work, s.mark, c);
    }
}

// The pieces of the marked blocks in line order, from `from` on, joined; how many there are. The marks are taken away.
fn visit(blocks: &[u32], work: &mut [u64], s: Local, from: usize) -> usize
    requires { Visitable s (block_count blocks.now) from work.old × Covered s work.old × Sound (blocks_of blocks.now) }
    ensures { Visited blocks.now s (block_count blocks.now) from result work.old work.new }
{
    let end = s.wide * 64;
    let mut n = 0;
    let mut k = bits::first_from(work, s.mark, s.wide, 0);
    while k < end {
        let e = run(work, s, k);
        let x = stretch(blocks, work, s, k, e);
        n = joining::join(work, from, n, x);
        unmark(work, s, k, e);
        k = bits::first_from(work, s.mark, s.wide, k / 64);
    }
    n
}

// The pieces of the blocks in line order, from `from` on: of the blocks with both bits or a span, no other is visited.
fn line(blocks: &[u32], work: &mut [u64], s: Local, from: usize) -> usize
    requires { Visitable s (block_count blocks.now) from work.old × Both s (block_count blocks.now) work.old × Sound (blocks_of blocks.now) }
    ensures { Lined blocks.now s (block_count blocks.now) from result work.old work.new }
{
    bits::row_or(work, s.mark, s.row, s.wide);
    visit(blocks, work, s, from)
}

// The area of a plain local, from `to` on; how many ranges it has. From `to` on it needs a word a touch and a word a block.
pub fn plain(blocks: &[u32], work: &mut [u64], t: Spots, s: Local) -> usize
    requires sound { Sound (blocks_of blocks.now) × Laid t s (block_count blocks.now) (t.count + block_count blocks.now) work.old × Flowing s (block_count blocks.now) }
    requires unmarked { Unmarked s work.old × Both s (block_count blocks.now) work.old × AllInLine (blocks_of blocks.now) (touches_at t work.old) }
    ensures { PlainIn blocks.now t s work.old work.new result }
{
    let m = spans(blocks, work, t, s);
    let n = line(blocks, work, s, s.to + m);
    packed::merge(work, s.to, m + n)
}
