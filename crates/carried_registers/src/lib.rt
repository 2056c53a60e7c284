// The entry `carried`: the registers that carry one local's address.
#![tactic(auto)]

ghost use Rattle.std.specs.Prelude.{◌≡◌, ◌/◌, ◌≤◌, ◌<◌, min, length};
ghost use Rattle.reach.specs.Prepared.{code_of};
ghost use Rattle.carry_checks.specs.Inner.{used_of, Checked};
ghost use Rattle.carried_registers.specs.Carried.{most_of, CarriedTo};
ghost use Rattle.carried_registers.specs.Inner.{Registers};
ghost use Rattle.words.specs.Widths.{inst_count, operand_count, local_count, address_count};
ghost use Rattle.words.specs.Regions.{row_words};

use carry_checks::{checks, layout};
use follow::Sizes;
use refusals::Refused;
use words::widths::{inst, local, mention, operand};

// The smaller of the two.
fn least(v: u32, n: usize) -> usize
    ensures { result ≡ min v n }
{
    let m = v as usize;
    if m < n {
        return m;
    }
    n
}

// The carried registers of a local, rising, of rows that no check refuses; how many.
fn list(
    v: u32,
    insts: &[u32],
    operands: &[u32],
    crossings: &[u32],
    locals: &[u32],
    addresses: &[u32],
    ends: &[u32],
    local: usize,
    answer: &mut [u32],
    work: &mut [u64],
) -> usize
    requires { Checked v insts.now operands.now locals.now addresses.now ends.now (length work.old) × (most_of v insts.now ≤ length answer.old) × (local < local_count locals.now) }
    ensures { Registers (code_of v insts.now operands.now crossings.now addresses.now ends.now) local
        (used_of (row_words v) (inst_count insts.now) (operand_count operands.now) (local_count locals.now) (address_count addresses.now)) result
        answer.old answer.new work.old work.new }
{
    let i = insts.len() / inst::WIDTH;
    let l = locals.len() / local::WIDTH;
    let lay = layout::layout(
        v,
        i,
        operands.len() / operand::WIDTH,
        l,
        addresses.len() / mention::WIDTH,
    );
    let e = preparing::prepare(insts, operands, crossings, l, addresses, ends, v, work, lay);
    let z = Sizes {
        v: v,
        insts: i,
        locals: l,
        edges: e,
    };
    let f = follow::walks::follow(insts, addresses, work, lay, z, local, true);
    sorting::sort_part(work, lay.queue, f.count);
    words::narrow(answer, 0, work, lay.queue, f.count);
    f.count
}

// The registers that carry the local's address, rising, at the front of the answer list, also of a local that is unfollowed; a local number past the end is absent.
// Refuses what `reach` refuses; the answer list has to have room for as many registers as there are, or for as many as instructions where these are fewer (7).
// One pass over the code with a sort of its edges, then time in the registers and edges that the local meets, with a sort of its registers.
pub fn carried(
    points: u32,
    v: u32,
    blocks: &[u32],
    insts: &[u32],
    operands: &[u32],
    crossings: &[u32],
    locals: &[u32],
    addresses: &[u32],
    ends: &[u32],
    local: usize,
    answer: &mut [u32],
    work: &mut [u64],
) -> Result<Option<usize>, Refused>
    ensures { CarriedTo points v blocks.now insts.now operands.now crossings.now locals.now addresses.now
        ends.now local answer.old work.old result answer.new work.new }
{
    let most = least(v, insts.len() / inst::WIDTH);
    checks::refusal(
        points,
        v,
        blocks,
        insts,
        operands,
        crossings,
        locals,
        addresses,
        ends,
        answer.len(),
        most,
        work.len(),
    )?;
    let w = checks::needed(
        v, blocks, insts, operands, crossings, locals, addresses, ends,
    );
    if local >= locals.len() / local::WIDTH {
        words::clear(work, w);
        return Ok(None);
    }
    let n = list(
        v, insts, operands, crossings, locals, addresses, ends, local, answer, work,
    );
    words::clear(work, w);
    Ok(Some(n))
}
