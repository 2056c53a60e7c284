// What the moves of a slot cover: the point of each, and the points either side of it.
#![tactic(auto)]

ghost use Rattle.std.specs.Prelude.{◌≡◌, not, [], ◌+◌, ◌-◌, ◌*◌, ◌/◌, ◌%◌, ◌≤◌, length, eqb};
ghost use Rattle.refusals.specs.declared.Refusal.TheVariants.{Count};
ghost use Rattle.refusals.specs.Verdicts.{check, Fine};
ghost use Rattle.graph.specs.Line.{blocks_of, Sound};
ghost use Rattle.graph.specs.Inner.Work.{Table};
ghost use Rattle.carrying.specs.Insts.{insts_of};
ghost use Rattle.areas.specs.Slots.{moves_of, move_verdict, moved};
ghost use Rattle.moved_ranges.specs.Moved.{Wrote, moved_counts, moved_words, moved_space, moved_verdict, MovedTo};
ghost use Rattle.words.specs.Widths.{block_count, inst_count, operand_count, move_count};

use refusals::{Answer, Refusal, Refused, Verdict};
use words::widths::{block, inst, moving, operand};

// What all moves cover of the slot.
fn all(
    points: u32,
    blocks: &[u32],
    insts: &[u32],
    moves: &[u32],
    slot: u32,
    work: &[u64],
    out: &mut [u32],
) -> usize
    requires sound { Sound (blocks_of blocks.now) × Table (blocks_of blocks.now) 0 work.now × (block_count blocks.now ≤ length work.now) }
    requires moves_value { (move_verdict (blocks_of blocks.now) (insts_of insts.now []) (moves_of moves.now) ≡ Fine) × (4 * (move_count moves.now) ≤ length out.old) }
    ensures { Wrote out.old out.new 0 result (moved points (blocks_of blocks.now) (insts_of insts.now []) (moves_of moves.now) slot) }
{
    let m = moves.len() / moving::WIDTH;
    let mut k = 0;
    for i in 0..m {
        k = move_covers::covers(points, blocks, insts, moves, slot, work, out, k, i);
    }
    k
}

// Refusal 1 of an answer list of `lent` numbers: rows of two.
fn whole(lent: usize) -> Verdict
    ensures { result ≡ check Count (not (eqb (lent % 2) 0)) }
{
    if lent % 2 != 0 {
        return Err(Refused(Refusal::Count, 0));
    }
    Ok(())
}

// Refusal 1 of `moved`.
fn counts(
    v: u32,
    blocks: &[u32],
    insts: &[u32],
    operands: &[u32],
    moves: &[u32],
    lent: usize,
) -> Verdict
    ensures { result ≡ moved_counts v blocks.now insts.now operands.now moves.now lent }
{
    let a = insts::counts::most(v as usize, 65535);
    let b = insts::counts::blocks(blocks);
    let c = insts::counts::insts(insts, operands);
    let d = insts::counts::rows(moves.len(), moving::WIDTH, 65536);
    let e = whole(lent);
    let e = refusals::earlier(d, e);
    let e = refusals::earlier(c, e);
    let e = refusals::earlier(b, e);
    refusals::earlier(a, e)
}

// W of `moved` by numbers of records, for any numbers: 8 words for each record lent, and for each 64 registers.
pub fn words(v: u32, blocks: u32, insts: u32, operands: u32, moves: u32) -> u64
    ensures { result ≡ moved_words v blocks insts operands moves }
{
    let n = blocks as u64 + insts as u64;
    let m = operands as u64 + moves as u64;
    8 * (n + m + (v as u64 + 63) / 64)
}

// The work space that `moved` needs.
fn needed(v: u32, blocks: &[u32], insts: &[u32], operands: &[u32], moves: &[u32]) -> usize
    requires { (block_count blocks.now ≤ 4096) × (inst_count insts.now ≤ 65536) × (operand_count operands.now ≤ 262144) × (move_count moves.now ≤ 65536) }
    ensures { result ≡ moved_space v blocks.now insts.now operands.now moves.now }
{
    let b = (blocks.len() / block::WIDTH) as u32;
    let i = (insts.len() / inst::WIDTH) as u32;
    let o = (operands.len() / operand::WIDTH) as u32;
    let m = (moves.len() / moving::WIDTH) as u32;
    words(v, b, i, o, m) as usize
}

// Refusals 1, 2, 4, 5 and 7 of `moved`.
fn refusal(
    points: u32,
    v: u32,
    blocks: &[u32],
    insts: &[u32],
    operands: &[u32],
    moves: &[u32],
    lent: usize,
    work: usize,
) -> Verdict
    ensures { result ≡ moved_verdict points v blocks.now insts.now operands.now moves.now lent work }
{
    counts(v, blocks, insts, operands, moves, lent)?;
    insts::checks::located(points, v, blocks, insts, operands)?;
    let stray = spill_checks::moves(blocks, insts, moves);
    let w = needed(v, blocks, insts, operands, moves);
    let short = refusals::room(lent, 4 * (moves.len() / moving::WIDTH), work, w);
    refusals::earlier(stray, short)
}

// What the moves of a slot cover, in the moves' order, as rows of start and end: the point of a move and the points either side of it.
// Refuses counts outside their limits and an answer list that is no whole rows (1), blocks out of line (2), a bad instruction (4), a stray move (5), an answer
// under two ranges for each move or work space under 8 words for each record lent and for each 64 registers (7).
pub fn moved(
    points: u32,
    v: u32,
    blocks: &[u32],
    insts: &[u32],
    operands: &[u32],
    moves: &[u32],
    slot: u32,
    out: &mut [u32],
    work: &mut [u64],
) -> Answer
    ensures { MovedTo points v blocks.now insts.now operands.now moves.now slot out.old work.old result
        out.new work.new }
{
    refusal(
        points,
        v,
        blocks,
        insts,
        operands,
        moves,
        out.len(),
        work.len(),
    )?;
    edge_rows::table(blocks, work, 0);
    let n = all(points, blocks, insts, moves, slot, work, out);
    let w = needed(v, blocks, insts, operands, moves);
    words::clear(work, w);
    Ok(n)
}
