// The entry `reach`: what becomes of each local.
#![tactic(auto)]

ghost use Rattle.std.specs.Prelude.{◌/◌, ◌≤◌, length};
ghost use Rattle.reach.specs.Prepared.{code_of};
ghost use Rattle.follow.specs.Inner.{Ready};
ghost use Rattle.local_kinds.specs.Inner.{Kinds, Measured};
ghost use Rattle.local_kinds.specs.Entry.{ReachTo};
ghost use Rattle.carry_checks.specs.Inner.{used_of, Checked};
ghost use Rattle.words.specs.Widths.{inst_count, operand_count, local_count, address_count};
ghost use Rattle.words.specs.Regions.{row_words};

use carry_checks::{checks, layout};
use follow::Sizes;
use reach::Lay;
use refusals::Answer;
use words::widths::{inst, local, mention, operand};

// The kind of each local.
fn kinds(insts: &[u32], addresses: &[u32], answer: &mut [u32], work: &mut [u64], lay: Lay, z: Sizes)
    requires { Ready lay z insts.now addresses.now work.old × (z.locals ≤ length answer.old) }
    ensures { Kinds insts.now addresses.now lay z answer.old answer.new work.old work.new }
{
    for l in 0..z.locals {
        let f = follow::walks::follow(insts, addresses, work, lay, z, l, false);
        let k = f.kind;
        answer[l] = kind_numbers::number(k);
    }
}

// The kinds of rows that no check refuses.
fn measure(
    v: u32,
    insts: &[u32],
    operands: &[u32],
    crossings: &[u32],
    locals: &[u32],
    addresses: &[u32],
    ends: &[u32],
    answer: &mut [u32],
    work: &mut [u64],
)
    requires { Checked v insts.now operands.now locals.now addresses.now ends.now (length work.old) × (local_count locals.now ≤ length answer.old) }
    ensures { Measured (code_of v insts.now operands.now crossings.now addresses.now ends.now)
        (local_count locals.now) (used_of (row_words v) (inst_count insts.now) (operand_count operands.now) (local_count locals.now)
        (address_count addresses.now)) answer.old answer.new work.old work.new }
{
    let i = insts.len() / inst::WIDTH;
    let l = locals.len() / local::WIDTH;
    let lay = layout::layout(
        v,
        i,
        operands.len() / operand::WIDTH,
        l,
        addresses.len() / mention::WIDTH,
    );
    let n = preparing::prepare(insts, operands, crossings, l, addresses, ends, v, work, lay);
    kinds(
        insts,
        addresses,
        answer,
        work,
        lay,
        Sizes {
            v: v,
            insts: i,
            locals: l,
            edges: n,
        },
    );
}

// The kind of each local, 0 for unfollowed, 1 for plain and 2 for ending, at the front of the answer list.
// Refuses counts outside their limits (1), blocks out of line (2), a bad instruction or crossing (4), a stray address or end (5), an answer list shorter than the
// locals or work space under 8 words for each record lent, for each 64 locals of each block, and for each 64 registers (7).
// One pass over the code with a sort of its edges, then for each local time in its entries and in the registers and edges that it meets.
pub fn reach(
    points: u32,
    v: u32,
    blocks: &[u32],
    insts: &[u32],
    operands: &[u32],
    crossings: &[u32],
    locals: &[u32],
    addresses: &[u32],
    ends: &[u32],
    answer: &mut [u32],
    work: &mut [u64],
) -> Answer
    ensures { ReachTo points v blocks.now insts.now operands.now crossings.now locals.now addresses.now
        ends.now answer.old work.old result answer.new work.new }
{
    checks::refusal(
        points,
        v,
        blocks,
        insts,
        operands,
        crossings,
        locals,
        addresses,
        ends,
        answer.len(),
        locals.len() / local::WIDTH,
        work.len(),
    )?;
    measure(
        v, insts, operands, crossings, locals, addresses, ends, answer, work,
    );
    let w = checks::needed(
        v, blocks, insts, operands, crossings, locals, addresses, ends,
    );
    words::clear(work, w);
    Ok(locals.len() / local::WIDTH)
}
