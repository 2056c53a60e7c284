// The refusals that come before the areas are measured: numbers 1 to 7, in linear time and without work space.
ghost use Rattle.std.specs.Prelude.{◌≡◌};
ghost use Rattle.job_space.specs.Rows.{lent_rows};
ghost use Rattle.job_space.specs.Space.{Small};
ghost use Rattle.item_areas.specs.Entry.{space_verdict, lent_verdict};

use job_space::Sizes;
use refusals::{Refusal, Refused, Verdict};
use words::widths::part;

// Refusal 7: work space under W, or an item list under the items.
fn short(z: Sizes, items: usize, work: usize) -> Verdict
    requires { Small z }
    ensures { result ≡ space_verdict z items work }
{
    if work < job_space::needed(z) {
        return Err(Refused(Refusal::Space, 0));
    }
    if items / part::WIDTH < z.locals + z.slots {
        return Err(Refused(Refusal::Space, 0));
    }
    Ok(())
}

// Of the entry, by the lent records and the lengths of the answer lists and the work space.
pub fn refusal(
    points: u32,
    v: u32,
    blocks: &[u32],
    edges: &[u32],
    insts: &[u32],
    operands: &[u32],
    crossings: &[u32],
    locals: &[u32],
    slots: &[u32],
    addresses: &[u32],
    ends: &[u32],
    pieces: &[u32],
    assigned: &[u32],
    moves: &[u32],
    areas: usize,
    items: usize,
    work: usize,
) -> Verdict
    ensures { result ≡ lent_verdict (lent_rows points v blocks edges insts operands crossings locals slots addresses ends pieces assigned moves) areas items work }
{
    insts::counts::rows(items, part::WIDTH, items)?;
    job_checks::checks::counts(
        v, blocks, edges, insts, operands, crossings, locals, slots, addresses, ends, pieces,
        assigned, moves, areas,
    )?;
    job_checks::checks::placed(
        points, v, blocks, edges, insts, operands, crossings, addresses, ends, pieces, assigned,
        moves,
    )?;
    let z = job_space::records::sizes(
        v, blocks, edges, insts, operands, crossings, locals, slots, addresses, ends, pieces,
        assigned, moves, areas,
    );
    short(z, items, work)
}
