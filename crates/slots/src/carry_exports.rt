// Exported: carried addresses, the moves of a slot and the registers of slots.
ghost use Rattle.std.specs.Prelude.{◌≡◌};
ghost use Rattle.carry_checks.specs.Checks.{carry_words};
ghost use Rattle.moved_ranges.specs.Moved.{moved_words};
ghost use Rattle.spilled_registers.specs.Spilled.{spilled_words};
ghost use Rattle.slots.specs.Exports.{ReachCoded, CarriedCoded, MovedCoded, SpilledCoded};

// `local_kinds::reach`.
pub fn slots_reach(
    points: u32,
    v: u32,
    blocks: &[u32],
    insts: &[u32],
    operands: &[u32],
    crossings: &[u32],
    locals: &[u32],
    addresses: &[u32],
    ends: &[u32],
    kinds: &mut [u32],
    work: &mut [u64],
) -> u64
    ensures { ReachCoded points v blocks.now insts.now operands.now crossings.now locals.now addresses.now ends.now
        kinds.old work.old result kinds.new work.new }
{
    codes::answer(local_kinds::reach(
        points, v, blocks, insts, operands, crossings, locals, addresses, ends, kinds, work,
    ))
}

// `carried_registers::carried`.
pub fn slots_carried(
    points: u32,
    v: u32,
    blocks: &[u32],
    insts: &[u32],
    operands: &[u32],
    crossings: &[u32],
    locals: &[u32],
    addresses: &[u32],
    ends: &[u32],
    local: u32,
    registers: &mut [u32],
    work: &mut [u64],
) -> u64
    ensures { CarriedCoded points v blocks.now insts.now operands.now crossings.now locals.now addresses.now
        ends.now local
        registers.old work.old result registers.new work.new }
{
    codes::found(carried_registers::carried(
        points,
        v,
        blocks,
        insts,
        operands,
        crossings,
        locals,
        addresses,
        ends,
        local as usize,
        registers,
        work,
    ))
}

// `moved_ranges::moved`.
pub fn slots_moved(
    points: u32,
    v: u32,
    blocks: &[u32],
    insts: &[u32],
    operands: &[u32],
    moves: &[u32],
    slot: u32,
    out: &mut [u32],
    work: &mut [u64],
) -> u64
    ensures { MovedCoded points v blocks.now insts.now operands.now moves.now slot
        out.old work.old result out.new work.new }
{
    codes::answer(moved_ranges::moved(points, v, blocks, insts, operands, moves, slot, out, work))
}

// `spilled_registers::spilled`.
pub fn slots_spilled(
    v: u32,
    slots: u32,
    assigned: &[u32],
    registers: &mut [u32],
    work: &mut [u64],
) -> u64
    ensures { SpilledCoded v slots assigned.now registers.old work.old result registers.new work.new }
{
    codes::answer(spilled_registers::spilled(v, slots as usize, assigned, registers, work))
}

// ---- W by the numbers of records

// Of `reach` and `carried`.
pub fn slots_reach_words(
    v: u32,
    blocks: u32,
    insts: u32,
    operands: u32,
    crossings: u32,
    locals: u32,
    addresses: u32,
    ends: u32,
) -> u64
    ensures { result ≡ carry_words v blocks insts operands crossings locals addresses ends }
{
    carry_checks::checks::words(
        v, blocks, insts, operands, crossings, locals, addresses, ends,
    )
}

// Of `moved`.
pub fn slots_moved_words(v: u32, blocks: u32, insts: u32, operands: u32, moves: u32) -> u64
    ensures { result ≡ moved_words v blocks insts operands moves }
{
    moved_ranges::words(v, blocks, insts, operands, moves)
}

// Of `spilled`.
pub fn slots_spilled_words(v: u32, assigned: u32) -> u64
    ensures { result ≡ spilled_words v assigned }
{
    spilled_registers::words(v, assigned)
}
