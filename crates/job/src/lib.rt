// The whole job: from its records to the cells of its items.
#![tactic(auto)]

ghost use Rattle.job_space.specs.Rows.{lent_rows};
ghost use Rattle.job.specs.Entry.{SharedAs};

use refusals::Refused;

pub mod checks; // checks.rt: refusals 1 to 7

pub use job_space::Head;
pub use wants::Tally;

// Which items of a job may share a cell: the area of each local and slot by the job's records, and for each item the lowest cell that has an area and doesn't clash
// with it, while budget is left. Cells come back as rows of size and alignment, items as rows of cell, present, first and count, areas as rows of start and end,
// offsets as one number a cell: minus the depth at which it lies below the frame base.
// Refuses what document 01's table says of the records (1 to 6), a budget over its limit (1), a cell, an item or an offset list under the items or a work space
// under W = 8 × (all records + blocks × ⌈locals/64⌉ + ranges of the area list + ⌈v/64⌉) (7), more ranges than the area list holds (9), a cell whose alignment is
// no power of two (12), and one that lies deeper than 2,147,483,647 (13).
pub fn share(
    head: Head,
    blocks: &[u32],
    edges: &[u32],
    insts: &[u32],
    operands: &[u32],
    crossings: &[u32],
    locals: &[u32],
    slots: &[u32],
    addresses: &[u32],
    ends: &[u32],
    pieces: &[u32],
    assigned: &[u32],
    moves: &[u32],
    cells: &mut [u32],
    items: &mut [u32],
    areas: &mut [u32],
    offsets: &mut [i32],
    work: &mut [u64],
) -> Result<Tally, Refused>
    ensures { SharedAs (lent_rows head.points head.v blocks edges insts operands crossings locals slots addresses ends pieces assigned moves) head.terms
        cells.old items.old areas.old offsets.old work.old result
        cells.new items.new areas.new offsets.new work.new }
{
    checks::refusal(
        head,
        blocks,
        edges,
        insts,
        operands,
        crossings,
        locals,
        slots,
        addresses,
        ends,
        pieces,
        assigned,
        moves,
        cells.len(),
        items.len(),
        areas.len(),
        offsets.len(),
        work.len(),
    )?;
    let z = job_space::records::sizes(
        head.v,
        blocks,
        edges,
        insts,
        operands,
        crossings,
        locals,
        slots,
        addresses,
        ends,
        pieces,
        assigned,
        moves,
        areas.len(),
    );
    let w = job_space::needed(z);
    let n = job_areas::solve(
        head.points,
        head.v,
        blocks,
        edges,
        insts,
        operands,
        crossings,
        locals,
        slots,
        addresses,
        ends,
        pieces,
        assigned,
        moves,
        areas.len(),
        work,
    );
    let r = job_answers::answer(
        locals, slots, head.terms, n, w, cells, items, areas, offsets, work,
    );
    words::clear(work, w);
    r
}
