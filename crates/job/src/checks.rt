// The refusals that come before the areas are measured: numbers 1 to 7, in linear time and without work space.
ghost use Rattle.std.specs.Prelude.{◌≡◌};
ghost use Rattle.job_space.specs.Rows.{lent_rows};
ghost use Rattle.job_space.specs.Space.{Small};
ghost use Rattle.job.specs.Inner.{space_verdict};
ghost use Rattle.job.specs.Entry.{lent_verdict};

use job_space::{Head, Sizes};
use refusals::{Refusal, Refused, Verdict};
use words::widths::{cell, item};

// Refusal 7: work space under W, or a cell, an item or an offset list under the items.
fn short(z: Sizes, cells: usize, items: usize, offsets: usize, work: usize) -> Verdict
    requires { Small z }
    ensures { result ≡ space_verdict z cells items offsets work }
{
    if work < job_space::needed(z) {
        return Err(Refused(Refusal::Space, 0));
    }
    if cells / cell::WIDTH < z.locals + z.slots {
        return Err(Refused(Refusal::Space, 0));
    }
    if items / item::WIDTH < z.locals + z.slots {
        return Err(Refused(Refusal::Space, 0));
    }
    if offsets < z.locals + z.slots {
        return Err(Refused(Refusal::Space, 0));
    }
    Ok(())
}

// Of the entry, by the lent records and the lengths of the answer lists and the work space.
pub fn refusal(
    head: Head,
    blocks: &[u32],
    edges: &[u32],
    insts: &[u32],
    operands: &[u32],
    crossings: &[u32],
    locals: &[u32],
    slots: &[u32],
    addresses: &[u32],
    ends: &[u32],
    pieces: &[u32],
    assigned: &[u32],
    moves: &[u32],
    cells: usize,
    items: usize,
    areas: usize,
    offsets: usize,
    work: usize,
) -> Verdict
    ensures { result ≡ lent_verdict (lent_rows head.points head.v blocks edges insts operands crossings locals slots addresses ends pieces assigned moves)
        head.terms cells items areas offsets work }
{
    if job_space::bad_shape(head.terms, cells, items) {
        return Err(Refused(Refusal::Count, 0));
    }
    job_checks::checks::counts(
        head.v, blocks, edges, insts, operands, crossings, locals, slots, addresses, ends, pieces,
        assigned, moves, areas,
    )?;
    job_checks::checks::placed(
        head.points,
        head.v,
        blocks,
        edges,
        insts,
        operands,
        crossings,
        addresses,
        ends,
        pieces,
        assigned,
        moves,
    )?;
    let z = job_space::records::sizes(
        head.v, blocks, edges, insts, operands, crossings, locals, slots, addresses, ends, pieces,
        assigned, moves, areas,
    );
    short(z, cells, items, offsets, work)
}
