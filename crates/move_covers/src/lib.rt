// What one move covers of a slot, put behind the ranges of an answer list.
#![tactic(auto)]

ghost use Rattle.std.specs.Prelude.{[], ◌∷◌, ◌≡◌, ◌+◌, ◌*◌, ◌≤◌, ◌<◌, length};
ghost use Rattle.graph.specs.Line.{blocks_of, Sound};
ghost use Rattle.graph.specs.Inner.Work.{Table};
ghost use Rattle.carrying.specs.Insts.{insts_of};
ghost use Rattle.areas.specs.Slots.{moves_of, move_verdict, around, covering};
ghost use Rattle.move_points.specs.Inner.{move_row};
ghost use Rattle.move_covers.specs.Inner.{Wrote};
ghost use Rattle.words.specs.Widths.{block_count, move_count, range_width};
ghost use Rattle.refusals.specs.Verdicts.{Fine};

use words::widths::{moving, range};

// Appends what a move at `p` covers to the first `k` ranges of the answer.
fn cover(out: &mut [u32], k: usize, points: u32, p: u32) -> usize
    requires { range_width * k + 2 ≤ length out.old }
    ensures { Wrote out.old out.new k result (around points p ∷ []) }
{
    let start = move_points::preceding(p);
    let end = move_points::beyond(p, points);
    out[range::WIDTH * k] = start;
    out[range::WIDTH * k + range::END] = end;
    k + 1
}

// Appends what move `i` covers of the slot: it may go to it, come from it, or both.
pub fn covers(
    points: u32,
    blocks: &[u32],
    insts: &[u32],
    moves: &[u32],
    slot: u32,
    work: &[u64],
    out: &mut [u32],
    k: usize,
    i: usize,
) -> usize
    requires sound { Sound (blocks_of blocks.now) × Table (blocks_of blocks.now) 0 work.now × (block_count blocks.now ≤ length work.now) }
    requires i_bound { (i < move_count moves.now) × (move_verdict (blocks_of blocks.now) (insts_of insts.now []) (moves_of moves.now) ≡ Fine) × (range_width * k + 4 ≤ length out.old) }
    ensures { Wrote out.old out.new k result (covering points (blocks_of blocks.now) (insts_of insts.now []) slot (move_row moves.now i)) }
{
    let at = move_points::position(
        blocks,
        insts,
        work,
        0,
        moves[moving::WIDTH * i],
        moves[moving::WIDTH * i + moving::NUMBER],
    );
    let Some(p) = at else {
        return k;
    };
    let to = moves[moving::WIDTH * i + moving::TO];
    let from = moves[moving::WIDTH * i + moving::FROM];
    if to == slot {
        let k = cover(out, k, points, p);
        if from == slot {
            return cover(out, k, points, p);
        }
        return k;
    }
    if from == slot {
        return cover(out, k, points, p);
    }
    k
}
