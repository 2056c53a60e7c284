// One pass over the instructions: which registers escape, which are dead, the one def of each instruction, and an edge for each register that an addressed `lea` hands on.
ghost use Rattle.std.specs.Prelude.{◌≡◌, not, ◌&&◌, ◌+◌, ◌*◌, ◌/◌, ◌≤◌, ◌<◌, length, ltb};
ghost use Rattle.words.specs.Widths.{inst_count, inst_operands, operand_count};
ghost use Rattle.words.specs.Regions.{row_words};
ghost use Rattle.carrying.specs.Insts.{insts_of, is_set, address_position, each_address, def_of};
ghost use Rattle.insts.specs.Inner.{operand_at, operands_from};
ghost use Rattle.insts.specs.Rows.{AddsUp};
ghost use Rattle.operands.specs.Inner.{def_number, addressing};
ghost use Rattle.reach.specs.Inner.{Marked, Linked, escapes_in, hands_in, row_of, stray_reader, Handing, Added, Blank, Scanning};

use crate::Lay;
use words::widths::{inst, operand};
use words::{HALF, wide};

// Whether operand `i`, at position `p`, uses a numbered register other than as the base or the index.
fn strays(operands: &[u32], i: usize, p: usize, v: u32, mem: u32, base: u32, index: u32) -> bool
    requires { i < operand_count operands.now }
    ensures { result ≡ (not (is_set (operand_at operands.now i).def) &&
        (ltb (operand_at operands.now i).register v && not (is_set mem && address_position (addressing base index) p))) }
{
    if operands[operand::WIDTH * i] == 1 {
        return false;
    }
    if v <= operands[operand::WIDTH * i + operand::REGISTER] {
        return false;
    }
    if mem != 1 {
        return true;
    }
    !operands::part(p, base, index)
}

// Sets the bit of each numbered register that one of `n` operands from `from` on uses other than as the base or the index.
fn escape(
    operands: &[u32],
    from: usize,
    n: usize,
    v: u32,
    mem: u32,
    base: u32,
    index: u32,
    work: &mut [u64],
    row: usize,
)
    requires { (from + n ≤ operand_count operands.now) × (row + row_words v ≤ length work.old) }
    ensures { Marked work.old work.new row v (escapes_in mem base index (operands_from operands.now from n)) }
{
    for p in 0..n {
        if strays(operands, from + p, p, v, mem, base, index) {
            let r = wide(operands[operand::WIDTH * (from + p) + operand::REGISTER]);
            bits::set(work, row, r);
        }
    }
}

// Whether operand `p` of the `n` from `from` on is the base or the index, of a numbered register of which each use is one of the two.
fn handed(operands: &[u32], from: usize, n: usize, p: usize, v: u32, base: u32, index: u32) -> bool
    requires { (from + n ≤ operand_count operands.now) × (p < n) }
    ensures { result ≡ (not (is_set (operand_at operands.now (from + p)).def) &&
        (ltb (operand_at operands.now (from + p)).register v &&
        (address_position (addressing base index) p && each_address (addressing base index) (operand_at operands.now (from + p)).register 0
        (operands_from operands.now from n)))) }
{
    let i = from + p;
    if operands[operand::WIDTH * i] == 1 {
        return false;
    }
    let r = operands[operand::WIDTH * i + operand::REGISTER];
    if v <= r {
        return false;
    }
    if operands::part(p, base, index) {
        return operands::addressed(operands, from, n, r, base, index);
    }
    false
}

// Sets the bit of each register that is handed.
fn stick(
    operands: &[u32],
    from: usize,
    n: usize,
    v: u32,
    base: u32,
    index: u32,
    work: &mut [u64],
    row: usize,
)
    requires { (from + n ≤ operand_count operands.now) × (row + row_words v ≤ length work.old) }
    ensures { Marked work.old work.new row v (hands_in base index (operands_from operands.now from n)) }
{
    for p in 0..n {
        if handed(operands, from, n, p, v, base, index) {
            let r = wide(operands[operand::WIDTH * (from + p) + operand::REGISTER]);
            bits::set(work, row, r);
        }
    }
}

// Appends the key of each register that is handed by instruction `inst` to the `count` keys from `at` on.
fn link(
    operands: &[u32],
    from: usize,
    n: usize,
    v: u32,
    base: u32,
    index: u32,
    inst: usize,
    work: &mut [u64],
    at: usize,
    count: usize,
) -> usize
    requires { (from + n ≤ operand_count operands.now) × (at + count + n ≤ length work.old) × (inst < 65536) × (v ≤ 65535) }
    ensures { Linked work.old work.new at v inst n count result (hands_in base index (operands_from operands.now from n)) }
{
    let mut k = count;
    for p in 0..n {
        if handed(operands, from, n, p, v, base, index) {
            let r = operands[operand::WIDTH * (from + p) + operand::REGISTER] as u64;
            work[at + k] = r * HALF + inst as u64;
            k += 1;
        }
    }
    k
}

// Sets the bit of each register that escapes through instruction `i`, whose `n` operands begin at `from`.
fn escapes(
    insts: &[u32],
    operands: &[u32],
    i: usize,
    from: usize,
    n: usize,
    v: u32,
    work: &mut [u64],
    row: usize,
)
    requires { (i < inst_count insts.now) × (n ≡ inst_operands insts.now i) × (from + n ≤ operand_count operands.now) × (row + row_words v ≤ length work.old) }
    ensures { Marked work.old work.new row v (stray_reader (row_of insts.now operands.now i from)) }
{
    if inst_flags::unplaced(insts, i) {
        return;
    }
    let at = inst::WIDTH * i;
    escape(
        operands,
        from,
        n,
        v,
        insts[at + inst::MEM],
        insts[at + inst::BASE],
        insts[at + inst::INDEX],
        work,
        row,
    );
}

// Puts down what instruction `i`, with its one def `def` or none, hands on: an edge for each register, or without a def that the register is dead.
fn hand(
    insts: &[u32],
    operands: &[u32],
    i: usize,
    from: usize,
    n: usize,
    v: u32,
    def: u32,
    work: &mut [u64],
    lay: Lay,
    count: usize,
) -> usize
    requires i_bound { (i < inst_count insts.now) × (n ≡ inst_operands insts.now i) × (from + n ≤ operand_count operands.now) × (i < 65536) × (v ≤ 65535) }
    requires v_bound { (lay.dead + row_words v ≤ lay.edges) × (lay.edges + count + n ≤ length work.old) }
    requires def_value { def ≡ def_number (def_of v (row_of insts.now operands.now i from)) }
    ensures { Handing work.old work.new lay v (row_of insts.now operands.now i from) i (inst_operands insts.now i) count result }
{
    if inst_flags::handing(insts, i) {
        let at = inst::WIDTH * i;
        let base = insts[at + inst::BASE];
        let index = insts[at + inst::INDEX];
        if def == 0 {
            stick(operands, from, n, v, base, index, work, lay.dead);
            return count;
        }
        return link(operands, from, n, v, base, index, i, work, lay.edges, count);
    }
    count
}

// Instruction `i`: its one def, the registers that escape through it, and what it hands on.
fn one(
    insts: &[u32],
    operands: &[u32],
    i: usize,
    from: usize,
    v: u32,
    work: &mut [u64],
    lay: Lay,
    count: usize,
) -> usize
    requires i_bound { (i < inst_count insts.now) × (from + inst_operands insts.now i ≤ operand_count operands.now) × (i < 65536) × (v ≤ 65535) }
    requires v_bound { (lay.escapes + row_words v ≤ lay.dead) × (lay.dead + row_words v ≤ lay.defs) × (lay.defs + i < lay.edges)
        × (lay.edges + count + inst_operands insts.now i ≤ length work.old) }
    ensures { Added work.old work.new lay v (row_of insts.now operands.now i from) i (inst_operands insts.now i) count result }
{
    let n = wide(insts[inst::WIDTH * i + inst::OPERANDS]);
    let def = operands::def(operands, from, n, v);
    let defs = lay.defs;
    work[defs + i] = def as u64;
    escapes(insts, operands, i, from, n, v, work, lay.escapes);
    hand(insts, operands, i, from, n, v, def, work, lay, count)
}

// The pass over all instructions; how many edges there are.
pub fn scan(insts: &[u32], operands: &[u32], v: u32, work: &mut [u64], lay: Lay) -> usize
    requires adds_up { AddsUp insts.now operands.now × (inst_count insts.now ≤ 65536) × (v ≤ 65535) × Blank v lay work.old }
    requires v_bound { (lay.escapes + row_words v ≤ lay.dead) × (lay.dead + row_words v ≤ lay.defs) × (lay.defs + inst_count insts.now ≤ lay.edges)
        × (lay.edges + operand_count operands.now ≤ lay.heads) × (lay.heads ≤ length work.old) }
    ensures { Scanning v (insts_of insts.now operands.now) insts.now lay work.old work.new (inst_count insts.now) result }
{
    let m = insts.len() / inst::WIDTH;
    let mut count = 0;
    let mut from = 0;
    for i in 0..m {
        count = one(insts, operands, i, from, v, work, lay, count);
        from += wide(insts[inst::WIDTH * i + inst::OPERANDS]);
    }
    count
}
