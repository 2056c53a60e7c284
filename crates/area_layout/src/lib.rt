// Where the regions stand in the work space, one behind another.
#![tactic(auto)]

ghost use Rattle.std.specs.Prelude.{◌≤◌};
ghost use Rattle.area_layout.specs.Inner.{Small, Placed, Gridded};

use area_flow::Grid;
use local_spots::Places;

// How many records of each group are lent, and how many ranges the area list holds.
#[derive(Clone, Copy)]
pub struct Sizes {
    pub blocks: usize,
    pub edges: usize,
    pub locals: usize,
    pub touches: usize,
    pub ends: usize,
    pub room: usize,
}

// The locals' chains and the touches and ends of one local: behind the areas and the items.
pub fn places(z: Sizes) -> Places
    requires { Small z }
    ensures { Placed z result }
{
    let heads = z.room + z.locals;
    let nexts = heads + z.locals + z.locals;
    let at = nexts + z.touches + z.ends;
    Places {
        locals: z.locals,
        heads: heads,
        nexts: nexts,
        at: at,
        ends: at + z.touches,
    }
}

// The edge rows, Tarjan's arrays and the rows of the places and of the locals, from `base` on.
pub fn grid(z: Sizes, base: usize) -> Grid
    requires { Small z × (base ≤ 1048576) }
    ensures { Gridded z base result }
{
    let words = (z.locals + 63) / 64;
    let size = z.blocks * words;
    let tarjan = base + z.edges + z.edges + (z.blocks + 1 + z.edges);
    let touched = tarjan + 6 * z.blocks;
    let leaves = touched + size;
    let passes = leaves + size;
    let written = passes + size;
    let read = written + size;
    let wait = read + size;
    Grid {
        words: words,
        locals: z.locals,
        width: (z.blocks + 63) / 64,
        base: base,
        tarjan: tarjan,
        touched: touched,
        leaves: leaves,
        passes: passes,
        written: written,
        read: read,
        wait: wait,
        to: wait + (z.blocks / 64 + 1) + size,
    }
}
