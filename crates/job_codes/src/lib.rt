// The answer of the whole job in one number, and its counts.
#![tactic(auto)]

ghost use Rattle.std.specs.Prelude.{◌≡◌};
ghost use Rattle.refusals.specs.declared.Refusal.TheVariants.{Space};
ghost use Rattle.refusals.specs.Verdicts.{first, Bad};
ghost use Rattle.codes.specs.Codes.{verdict_code};
ghost use Rattle.job_space.specs.Rows.{lent_rows};
ghost use Rattle.job.specs.Entry.{lent_verdict};
ghost use Rattle.job_codes.specs.Job.{JobCoded};

use job_space::Head;
use refusals::{Refusal, Refused};

// What is refused where there is too little room for the counts: numbers 1 to 6, else 7.
#[tactic(auto, unfolding(refusals::specs::Verdicts::first))]
fn short(
    head: Head,
    blocks: &[u32],
    edges: &[u32],
    insts: &[u32],
    operands: &[u32],
    crossings: &[u32],
    locals: &[u32],
    slots: &[u32],
    addresses: &[u32],
    ends: &[u32],
    pieces: &[u32],
    assigned: &[u32],
    moves: &[u32],
    cells: usize,
    items: usize,
    areas: usize,
    offsets: usize,
    work: usize,
) -> u64
    ensures { result ≡ verdict_code (first (lent_verdict (lent_rows head.points head.v blocks edges insts operands crossings locals slots addresses ends pieces assigned moves)
        head.terms cells items areas offsets work) (Bad Space 0)) }
{
    let lent = job::checks::refusal(
        head, blocks, edges, insts, operands, crossings, locals, slots, addresses, ends, pieces,
        assigned, moves, cells, items, areas, offsets, work,
    );
    codes::verdict(lent.and(Err(Refused(Refusal::Space, 0))))
}

// `job::share`, the whole job: the plan's counts are cells, probes and depth; fewer than three numbers for them are refused with 7.
pub fn share(
    head: Head,
    blocks: &[u32],
    edges: &[u32],
    insts: &[u32],
    operands: &[u32],
    crossings: &[u32],
    locals: &[u32],
    slots: &[u32],
    addresses: &[u32],
    ends: &[u32],
    pieces: &[u32],
    assigned: &[u32],
    moves: &[u32],
    cells: &mut [u32],
    items: &mut [u32],
    areas: &mut [u32],
    offsets: &mut [i32],
    counts: &mut [u64],
    work: &mut [u64],
) -> u64
    ensures { JobCoded (lent_rows head.points head.v blocks edges insts operands crossings locals slots addresses ends pieces assigned moves) head.terms
        cells.old items.old areas.old offsets.old counts.old work.old result
        cells.new items.new areas.new offsets.new counts.new work.new }
{
    if counts.len() < 3 {
        return short(
            head,
            blocks,
            edges,
            insts,
            operands,
            crossings,
            locals,
            slots,
            addresses,
            ends,
            pieces,
            assigned,
            moves,
            cells.len(),
            items.len(),
            areas.len(),
            offsets.len(),
            work.len(),
        );
    }
    want_codes::plan(
        counts,
        job::share(
            head, blocks, edges, insts, operands, crossings, locals, slots, addresses, ends,
            pieces, assigned, moves, cells, items, areas, offsets, work,
        ),
    )
}
