// The area of a slot, made in the work space from the live pieces of its register and from its moves.
#![tactic(auto)]

ghost use Rattle.std.specs.Prelude.{◌≡◌, [], ◌+◌, ◌/◌, ◌≤◌, ◌<◌, length};
ghost use Rattle.graph.specs.Line.{blocks_of, Sound};
ghost use Rattle.graph.specs.Inner.Work.{Table};
ghost use Rattle.carrying.specs.Insts.{insts_of};
ghost use Rattle.areas.specs.Slots.{moves_of, move_verdict};
ghost use Rattle.words.specs.Widths.{block_count, piece_count, move_count};
ghost use Rattle.live.specs.Inner.{InOrder};
ghost use Rattle.slot_spots.specs.Inner.{Laid, Chains};
ghost use Rattle.slot_areas.specs.Inner.{MovedIn, HeldIn};
ghost use Rattle.refusals.specs.Verdicts.{Fine};

use slot_spots::Places;
use words::widths::moving;

// Where an area stands, and one more than how many ranges it has, or 0 for none.
#[derive(Clone, Copy)]
pub struct Found {
    pub at: usize,
    pub plus: usize,
}

// The area of a slot that no register is assigned to: what its moves cover, or none without moves.
pub fn of_moves(
    points: u32,
    blocks: &[u32],
    insts: &[u32],
    moves: &[u32],
    work: &mut [u64],
    p: Places,
    slot: usize,
) -> Found
    requires sound { Sound (blocks_of blocks.now) × Table (blocks_of blocks.now) p.table work.old × Laid p (block_count blocks.now) (move_count moves.now) work.old }
    requires moves_value { (move_verdict (blocks_of blocks.now) (insts_of insts.now []) (moves_of moves.now) ≡ Fine) × Chains p moves.now work.old × (slot < p.slots) }
    ensures { MovedIn points blocks.now insts.now moves.now slot p.to work.old work.new result }
{
    let m = moves.len() / moving::WIDTH;
    let top = p.to + m + m;
    let c = slot_spots::fetch(points, blocks, insts, moves, work, p, slot);
    if c == 0 {
        return Found { at: top, plus: 0 };
    }
    let r = packed::merge(work, top - c, c);
    Found {
        at: top - c,
        plus: r + 1,
    }
}

// The area of a slot that a register is assigned to: the register's live pieces and what the slot's moves cover; none without a live piece, moves or not.
pub fn of_register(
    points: u32,
    blocks: &[u32],
    insts: &[u32],
    moves: &[u32],
    pieces: &[u32],
    work: &mut [u64],
    p: Places,
    keys: usize,
    register: u32,
    slot: usize,
) -> Found
    requires sound { Sound (blocks_of blocks.now) × Table (blocks_of blocks.now) p.table work.old × Laid p (block_count blocks.now) (move_count moves.now) work.old }
    requires moves_value { (move_verdict (blocks_of blocks.now) (insts_of insts.now []) (moves_of moves.now) ≡ Fine) × Chains p moves.now work.old × (slot < p.slots) }
    requires in_order { InOrder pieces.now keys work.old × (keys + piece_count pieces.now ≤ p.to)
        × (p.to + move_count moves.now + move_count moves.now + piece_count pieces.now ≤ length work.old) × (piece_count pieces.now ≤ 65536) × (move_count moves.now ≤ 65536) }
    ensures { HeldIn points blocks.now insts.now moves.now pieces.now register slot p.to work.old work.new result }
{
    let m = moves.len() / moving::WIDTH;
    let top = p.to + m + m;
    let n = live::fetch(pieces, work, keys, register, top);
    if n == 0 {
        return Found { at: top, plus: 0 };
    }
    let c = slot_spots::fetch(points, blocks, insts, moves, work, p, slot);
    let r = packed::merge(work, top - c, c + n);
    Found {
        at: top - c,
        plus: r + 1,
    }
}
