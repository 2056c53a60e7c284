// The area of a slot by the register that it holds, and an area put behind those so far with its item's word.
#![tactic(auto)]

ghost use Rattle.std.specs.Prelude.{◌≡◌, [], ◌+◌, ◌*◌, ◌≤◌, ◌<◌, length, get_or};
ghost use Rattle.words.specs.Widths.{block_count, piece_count, move_count};
ghost use Rattle.graph.specs.Line.{blocks_of, Sound};
ghost use Rattle.graph.specs.Inner.Work.{Table};
ghost use Rattle.carrying.specs.Insts.{insts_of};
ghost use Rattle.areas.specs.Slots.{moves_of, move_verdict};
ghost use Rattle.live.specs.Inner.{InOrder};
ghost use Rattle.slot_spots.specs.Inner.{Laid, Chains};
ghost use Rattle.slot_measure.specs.Inner.{SlotIn, Placeable, Placed};
ghost use Rattle.refusals.specs.Verdicts.{Fine};

use area_measure::Listing;
use slot_areas::Found;
use slot_spots::Places;
use words::HALF;

pub mod slots; // slots.rt: all slots of a job

// The area of a slot: from `held` on stands a word a slot, its register plus 1, or 0.
pub fn slot_area(
    points: u32,
    blocks: &[u32],
    insts: &[u32],
    moves: &[u32],
    pieces: &[u32],
    work: &mut [u64],
    p: Places,
    keys: usize,
    held: usize,
    slot: usize,
) -> Found
    requires sound { Sound (blocks_of blocks.now) × Table (blocks_of blocks.now) p.table work.old × Laid p (block_count blocks.now) (move_count moves.now) work.old }
    requires moves_value { (move_verdict (blocks_of blocks.now) (insts_of insts.now []) (moves_of moves.now) ≡ Fine) × Chains p moves.now work.old × (slot < p.slots) }
    requires in_order { InOrder pieces.now keys work.old × (keys + piece_count pieces.now ≤ p.to)
        × (p.to + move_count moves.now + move_count moves.now + piece_count pieces.now ≤ length work.old) × (piece_count pieces.now ≤ 65536) × (move_count moves.now ≤ 65536) }
    requires slot_in_bounds { (held + slot < length work.old) × (get_or work.old (held + slot) 0 ≤ 4294967296) }
    ensures { SlotIn points blocks.now insts.now moves.now pieces.now held slot p.to work.old work.new result }
{
    let x = work[held + slot];
    if x == 0 {
        return slot_areas::of_moves(points, blocks, insts, moves, work, p, slot);
    }
    let register = (x - 1) as u32;
    slot_areas::of_register(
        points, blocks, insts, moves, pieces, work, p, keys, register, slot,
    )
}

// Puts an area that was found behind the `total` ranges so far, where it fits, and the item's word into the table of items; how many ranges there are then.
// The total goes on counting past the room.
pub fn place(work: &mut [u64], o: Listing, item: usize, f: Found, total: usize) -> usize
    requires { Placeable o item f total work.old }
    ensures { Placed o item f total work.old work.new result }
{
    if f.plus == 0 {
        work[o.items + item] = 0;
        return total;
    }
    work[o.items + item] = total as u64 * HALF + f.plus as u64;
    area_pieces::append(work, o.areas, o.room, total, f.at, f.plus - 1)
}
