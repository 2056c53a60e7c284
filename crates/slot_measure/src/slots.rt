// The areas of all slots of a job, one behind another in item order.
ghost use Rattle.std.specs.Prelude.{◌+◌, ◌*◌, ◌^◌, ◌<◌};
ghost use Rattle.slot_measure.specs.Inner.{most_for, Ready, Next, MeasuredSlots};

use area_measure::Listing;
use slot_spots::Places;

// Puts slot s's area behind the `total` ranges so far; how many ranges there are then.
fn measure_next(
    points: u32,
    blocks: &[u32],
    insts: &[u32],
    moves: &[u32],
    pieces: &[u32],
    work: &mut [u64],
    p: Places,
    keys: usize,
    held: usize,
    o: Listing,
    first: usize,
    s: usize,
    total: usize,
) -> usize
    requires ready { Ready blocks.now insts.now moves.now pieces.now p keys held o first work.old }
    requires s_lt_slots { (s < p.slots) × (total + most_for moves.now pieces.now < 2 ^ 32) }
    ensures { Next points blocks.now insts.now moves.now pieces.now p keys held o first s total work.old work.new result }
{
    let f = crate::slot_area(points, blocks, insts, moves, pieces, work, p, keys, held, s);
    crate::place(work, o, first + s, f, total)
}

// The areas of all slots behind the `total` ranges of the items before them, where they fit, and the slots' words in the table of items, from `first` on; how
// many ranges there are then.
pub fn measure_slots(
    points: u32,
    blocks: &[u32],
    insts: &[u32],
    moves: &[u32],
    pieces: &[u32],
    work: &mut [u64],
    p: Places,
    keys: usize,
    held: usize,
    o: Listing,
    first: usize,
    total: usize,
) -> usize
    requires ready { Ready blocks.now insts.now moves.now pieces.now p keys held o first work.old }
    requires pieces_bound { total + p.slots * most_for moves.now pieces.now < 2 ^ 32 }
    ensures { MeasuredSlots points blocks.now insts.now moves.now pieces.now p keys held o first total work.old work.new result }
{
    let mut n = total;
    for s in 0..p.slots {
        n = measure_next(
            points, blocks, insts, moves, pieces, work, p, keys, held, o, first, s, n,
        );
    }
    n
}
