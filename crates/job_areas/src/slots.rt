// The slots' phase of a job.
ghost use Rattle.job_areas.specs.Inner.{SlotsAsked, SlotsIn};

use area_measure::Listing;
use slot_spots::Places;

// The areas of all slots behind the `total` ranges of the items before them, where they fit, and the slots' words in the table of items, from `first` on;
// how many ranges there are then. From `held` on stands the register of each slot.
pub fn slots(
    points: u32,
    blocks: &[u32],
    insts: &[u32],
    moves: &[u32],
    pieces: &[u32],
    assigned: &[u32],
    work: &mut [u64],
    p: Places,
    keys: usize,
    held: usize,
    o: Listing,
    first: usize,
    total: usize,
) -> usize
    requires { SlotsAsked blocks.now insts.now moves.now pieces.now assigned.now p keys held o first total work.old }
    ensures { SlotsIn points blocks.now insts.now moves.now pieces.now assigned.now p keys held o first total
        work.old work.new result }
{
    slot_spots::held(assigned, work, held, p.slots);
    edge_rows::table(blocks, work, p.table);
    slot_spots::chains(moves, work, p);
    slot_measure::slots::measure_slots(
        points, blocks, insts, moves, pieces, work, p, keys, held, o, first, total,
    )
}
