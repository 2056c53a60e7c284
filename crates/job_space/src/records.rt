// How many records of each group are lent.
ghost use Rattle.std.specs.Prelude.{◌≡◌, ℕ};
ghost use Rattle.job_space.specs.Rows.{lent_rows};
ghost use Rattle.job_space.specs.Space.{sizes_of};

use crate::Sizes;
use words::widths::{assigned, block, edge, inst, local, mention, moving, operand, piece, range};

// The counts of the records, for an area list of `areas` numbers.
pub fn sizes(
    v: u32,
    blocks: &[u32],
    edges: &[u32],
    insts: &[u32],
    operands: &[u32],
    crossings: &[u32],
    locals: &[u32],
    slots: &[u32],
    addresses: &[u32],
    ends: &[u32],
    pieces: &[u32],
    assigned: &[u32],
    moves: &[u32],
    areas: usize,
) -> Sizes
    ensures { (points : ℕ) → result ≡ sizes_of (lent_rows points v blocks edges insts operands crossings locals slots addresses ends pieces assigned moves) areas }
{
    Sizes {
        v: v as usize,
        blocks: blocks.len() / block::WIDTH,
        edges: edges.len() / edge::WIDTH,
        insts: insts.len() / inst::WIDTH,
        operands: operands.len() / operand::WIDTH,
        crossings: crossings.len(),
        locals: locals.len() / local::WIDTH,
        slots: slots.len(),
        addresses: addresses.len() / mention::WIDTH,
        ends: ends.len() / mention::WIDTH,
        pieces: pieces.len() / piece::WIDTH,
        assigned: assigned.len() / assigned::WIDTH,
        moves: moves.len() / moving::WIDTH,
        room: areas / range::WIDTH,
    }
}
