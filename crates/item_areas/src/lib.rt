// The areas of all items of a job's records.
#![tactic(auto)]

ghost use Rattle.job_space.specs.Rows.{lent_rows};
ghost use Rattle.item_areas.specs.Entry.{ItemAreas};

mod checks; // checks.rt: refusals 1 to 7

use refusals::Answer;

// The area of every item, locals first, then slots, by the job's records. Areas come back as rows of start and end, items as rows of present, first and count;
// the answer is the number of ranges. Refuses what document 01's table says of the records (1 to 6), an item list under the items or a work space under
// W = 8 × (all records + blocks × ⌈locals/64⌉ + ranges of the area list + ⌈v/64⌉) (7), and more ranges than the area list holds (9).
pub fn item_areas(
    points: u32,
    v: u32,
    blocks: &[u32],
    edges: &[u32],
    insts: &[u32],
    operands: &[u32],
    crossings: &[u32],
    locals: &[u32],
    slots: &[u32],
    addresses: &[u32],
    ends: &[u32],
    pieces: &[u32],
    assigned: &[u32],
    moves: &[u32],
    areas: &mut [u32],
    items: &mut [u32],
    work: &mut [u64],
) -> Answer
    ensures { ItemAreas (lent_rows points v blocks edges insts operands crossings locals slots addresses ends pieces assigned moves)
        areas.old items.old work.old result areas.new items.new work.new }
{
    checks::refusal(
        points,
        v,
        blocks,
        edges,
        insts,
        operands,
        crossings,
        locals,
        slots,
        addresses,
        ends,
        pieces,
        assigned,
        moves,
        areas.len(),
        items.len(),
        work.len(),
    )?;
    let z = job_space::records::sizes(
        v,
        blocks,
        edges,
        insts,
        operands,
        crossings,
        locals,
        slots,
        addresses,
        ends,
        pieces,
        assigned,
        moves,
        areas.len(),
    );
    let w = job_space::needed(z);
    let n = job_areas::solve(
        points,
        v,
        blocks,
        edges,
        insts,
        operands,
        crossings,
        locals,
        slots,
        addresses,
        ends,
        pieces,
        assigned,
        moves,
        areas.len(),
        work,
    );
    let r = item_lists::list(n, areas, items, work, z.locals + z.slots);
    words::clear(work, w);
    r
}
