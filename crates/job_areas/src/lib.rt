// The areas of all items of a job in the work space, from records that no check refuses: the locals', then the slots'.
#![tactic(auto)]

ghost use Rattle.job_space.specs.Inner.{rows_at};
ghost use Rattle.job_space.specs.Rows.{lent_rows};
ghost use Rattle.job_areas.specs.Inner.{Lent, LocalsDue, LocalsDone, SlotsDue, SlotsDone, Solved};

use area_measure::Listing;
use job_layout::Regions;
use job_space::Sizes;
use job_spots::Places;

pub mod slots; // slots.rt: the slots' phase

// The locals' phase: their areas from 0 on, where they fit, and their items' words; how many ranges they have. The live pieces stand in order.
fn measure_locals(
    points: u32,
    v: u32,
    blocks: &[u32],
    edges: &[u32],
    insts: &[u32],
    operands: &[u32],
    crossings: &[u32],
    locals: &[u32],
    slots: &[u32],
    addresses: &[u32],
    ends: &[u32],
    pieces: &[u32],
    assigned: &[u32],
    moves: &[u32],
    areas: usize,
    work: &mut [u64],
    z: Sizes,
    r: Regions,
) -> usize
    requires { LocalsDue (rows_at points v blocks edges insts operands crossings locals slots addresses ends pieces assigned moves) areas z r work.old }
    ensures { LocalsDone (lent_rows points v blocks edges insts operands crossings locals slots addresses ends pieces assigned moves) areas r work.old work.new result }
{
    if z.locals == 0 {
        return 0;
    }
    let lay = job_layout::carrying(z, r.free);
    let g = job_layout::grid(z, r.base);
    let mark = job_layout::mark(g);
    job_locals::locals(
        blocks,
        edges,
        insts,
        operands,
        crossings,
        addresses,
        ends,
        pieces,
        work,
        v,
        z.locals,
        lay,
        Places {
            keys: r.keys,
            heads: r.heads,
            nexts: r.nexts,
            at: r.at,
            ends: r.ends,
        },
        g,
        mark,
        Listing {
            areas: 0,
            room: z.room,
            items: r.items,
        },
    )
}

// The slots' phase, behind the `total` ranges of the locals.
fn measure_slots(
    points: u32,
    blocks: &[u32],
    insts: &[u32],
    pieces: &[u32],
    assigned: &[u32],
    moves: &[u32],
    work: &mut [u64],
    z: Sizes,
    r: Regions,
    total: usize,
) -> usize
    requires { SlotsDue points blocks.now insts.now pieces.now assigned.now moves.now z r total work.old }
    ensures { SlotsDone points blocks.now insts.now pieces.now assigned.now moves.now z r total work.old
        work.new result }
{
    let p = job_layout::slots(z, r.free);
    slots::slots(
        points,
        blocks,
        insts,
        moves,
        pieces,
        assigned,
        work,
        p,
        r.keys,
        r.free,
        Listing {
            areas: 0,
            room: z.room,
            items: r.items,
        },
        z.locals,
        total,
    )
}

// The areas of all items in item order from 0 on, where they fit the room of the area list, and behind that room a word an item; how many ranges they have.
pub fn solve(
    points: u32,
    v: u32,
    blocks: &[u32],
    edges: &[u32],
    insts: &[u32],
    operands: &[u32],
    crossings: &[u32],
    locals: &[u32],
    slots: &[u32],
    addresses: &[u32],
    ends: &[u32],
    pieces: &[u32],
    assigned: &[u32],
    moves: &[u32],
    areas: usize,
    work: &mut [u64],
) -> usize
    requires { Lent (rows_at points v blocks edges insts operands crossings locals slots addresses ends pieces assigned moves) areas work.old }
    ensures { Solved (lent_rows points v blocks edges insts operands crossings locals slots addresses ends pieces assigned moves) areas work.old work.new result }
{
    let z = job_space::records::sizes(
        v, blocks, edges, insts, operands, crossings, locals, slots, addresses, ends, pieces,
        assigned, moves, areas,
    );
    let r = job_layout::layout(z);
    live::put_in_order(pieces, work, r.keys);
    let total = measure_locals(
        points, v, blocks, edges, insts, operands, crossings, locals, slots, addresses, ends,
        pieces, assigned, moves, areas, work, z, r,
    );
    measure_slots(
        points, blocks, insts, pieces, assigned, moves, work, z, r, total,
    )
}
