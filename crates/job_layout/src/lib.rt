// Where the regions of a job stand in its work space. The areas stand from 0 on, then the items' words and the live pieces in order. Behind them the locals' regions stand while
// the locals are measured, and then, over the same words again, the slots'.
#![tactic(auto)]

ghost use Rattle.std.specs.Prelude.{◌≡◌, ◌*◌, ◌≤◌};
ghost use Rattle.job_space.specs.Space.{Small};
ghost use Rattle.area_layout.specs.Inner.{Gridded, mark_of};
ghost use Rattle.job_layout.specs.Inner.{grid_sizes, Placed, LaidFrom, SlotsFrom};

use area_flow::Grid;
use job_space::Sizes;
use reach::Lay;
use slot_spots::Places;

// Each region behind the one before: from `items` on a word an item; from `keys` on the live pieces in order; from `free` on what carrying keeps, or what slots have; from `heads` on each
// local's last end and from `nexts` on for each end the one before it of the same local; from `at` on the touches and from `ends` on the ends of one local; from `base` on the graph's rows.
#[derive(Clone, Copy)]
pub struct Regions {
    pub items: usize,
    pub keys: usize,
    pub free: usize,
    pub heads: usize,
    pub nexts: usize,
    pub at: usize,
    pub ends: usize,
    pub base: usize,
}

// The regions of a job with so many records.
pub fn layout(z: Sizes) -> Regions
    requires { Small z }
    ensures { Placed z result }
{
    let words = (z.v + 63) / 64;
    let used = 3 * words + 3 * z.insts + z.operands + 2 * z.locals + z.addresses;
    let keys = z.room + z.locals + z.slots;
    let free = keys + z.pieces;
    let heads = free + used;
    let nexts = heads + z.locals;
    let at = nexts + z.ends;
    let ends = at + z.pieces + z.pieces + z.addresses;
    Regions {
        items: z.room,
        keys: keys,
        free: free,
        heads: heads,
        nexts: nexts,
        at: at,
        ends: ends,
        base: ends + z.ends,
    }
}

// What carrying keeps, from `from` on.
pub fn carrying(z: Sizes, from: usize) -> Lay
    requires { Small z × (from ≤ 135168) }
    ensures { LaidFrom z from result }
{
    let words = (z.v + 63) / 64;
    let dead = from + words;
    let seen = dead + words;
    let defs = seen + words;
    let firsts = defs + z.insts;
    let edges = firsts + z.insts;
    let heads = edges + z.operands;
    let nexts = heads + z.locals;
    let ended = nexts + z.addresses;
    Lay {
        escapes: from,
        dead: dead,
        seen: seen,
        defs: defs,
        firsts: firsts,
        edges: edges,
        heads: heads,
        nexts: nexts,
        ended: ended,
        queue: ended + z.locals,
    }
}

// The rows of the graph and of the locals, from `base` on.
pub fn grid(z: Sizes, base: usize) -> Grid
    requires { Small z × (base ≤ 1048576) }
    ensures { Gridded (grid_sizes z) base result }
{
    area_layout::grid(
        area_layout::Sizes {
            blocks: z.blocks,
            edges: z.edges,
            locals: z.locals,
            touches: 0,
            ends: 0,
            room: 0,
        },
        base,
    )
}

// Where the grid ends, and the row over the blocks stands that one local's area is made with.
pub fn mark(g: Grid) -> usize
    requires { (g.to ≤ 2097152) × (g.locals * g.width ≤ 131072) }
    ensures { result ≡ mark_of g }
{
    g.to + g.locals * g.width
}

// What slots have, from `from` on: the register that each holds, then the blocks' places, the moves of each slot as chains, and what the moves of one slot cover.
pub fn slots(z: Sizes, from: usize) -> Places
    requires { Small z × (from ≤ 135168) }
    ensures { SlotsFrom z from result }
{
    let table = from + z.slots;
    let heads = table + z.blocks;
    let nexts = heads + z.slots + z.slots;
    Places {
        slots: z.slots,
        table: table,
        heads: heads,
        nexts: nexts,
        to: nexts + z.moves + z.moves,
    }
}
