// Refusals 4 and 5 about instructions, crossings, addresses and ends, in linear time and without work space.
ghost use Rattle.std.specs.Prelude.{◌≡◌, not, ◌||◌, ◌&&◌, ◌+◌, ◌*◌, ◌/◌, ◌≤◌, ◌<◌, [], leb, ltb};
ghost use Rattle.refusals.specs.Verdicts.{first, scan};
ghost use Rattle.words.specs.Rows.{row_count, field};
ghost use Rattle.words.specs.Inner.{Splits, inst_placed, inst_early, inst_late};
ghost use Rattle.words.specs.Widths.{block_count, block_start, inst_count, operand_count};
ghost use Rattle.graph.specs.Line.{blocks_of, line_verdict, Sound};
ghost use Rattle.carrying.specs.Lists.{any};
ghost use Rattle.carrying.specs.Insts.{insts_of, inst_at, is_set};
ghost use Rattle.carrying.specs.Carried.{mentions_of};
ghost use Rattle.carrying.specs.Checks.{misplaced, bad_operand, bad_flags, bad_positions, bad_inst, inst_verdict, crossing_verdict, address_verdict, end_verdict};
ghost use Rattle.insts.specs.Counts.{offset};
ghost use Rattle.insts.specs.Inner.{operands_from, placing, row_inst};
ghost use Rattle.insts.specs.Rows.{AddsUp};

use refusals::{Refusal, Refused, Verdict};
use words::wide;
use words::widths::{block, inst, mention};

// The first row whose field `f` is at least `limit`.
pub fn below(s: &[u32], width: usize, f: usize, limit: usize, word: Refusal) -> Verdict
    requires { f < width }
    ensures { result ≡ scan word (λ n. leb limit (field width s.now n f)) (row_count width s.now) }
{
    let n = s.len() / width;
    for i in 0..n {
        if limit <= wide(s[width * i + f]) {
            return Err(Refused(word, i));
        }
    }
    Ok(())
}

// Whether a placed instruction is in no block or outside its block's points, where the first `k` blocks start no later than it: the number of the last of them must be the instruction's.
fn outside(blocks: &[u32], number: u32, early: u32, late: u32, k: usize) -> bool
    requires { Sound (blocks_of blocks.now) × (early ≤ late) × Splits (λ j. leb (block_start blocks.now j) early) (block_count blocks.now) k }
    ensures { result ≡ misplaced (blocks_of blocks.now) (placing number early late) }
{
    if k == 0 {
        return true;
    }
    let at = k - 1;
    if blocks[block::WIDTH * at] != number {
        return true;
    }
    blocks[block::WIDTH * at + block::END] < late
}

// Whether one of `n` operands from `from` on has a flag or a register out of range.
fn bad_operands(operands: &[u32], from: usize, n: usize, v: u32) -> bool
    requires { (from + n ≤ operand_count operands.now) × (v ≤ 65535) }
    ensures { result ≡ any (bad_operand v) (operands_from operands.now from n) }
{
    for p in 0..n {
        if inst_parts::bad_operand(operands, from + p, v) {
            return true;
        }
    }
    false
}

// Whether a flag or a position is out of range.
fn bad_fields(insts: &[u32], i: usize) -> bool
    requires { i < inst_count insts.now }
    ensures { result ≡ (bad_flags (row_inst insts.now i) || bad_positions (row_inst insts.now i)) }
{
    let at = inst::WIDTH * i;
    if 1 < insts[at] {
        return true;
    }
    if 1 < insts[at + inst::LEA] {
        return true;
    }
    if 1 < insts[at + inst::MEM] {
        return true;
    }
    if 256 < insts[at + inst::BASE] {
        return true;
    }
    256 < insts[at + inst::INDEX]
}

// Whether an instruction is reversed, or placed in no block or outside its points.
fn bad_points(blocks: &[u32], insts: &[u32], i: usize, k: usize) -> bool
    requires { Sound (blocks_of blocks.now) × (i < inst_count insts.now) × Splits (λ j. leb (block_start blocks.now j) (inst_early insts.now i)) (block_count blocks.now) k }
    ensures { result ≡ (ltb (inst_late insts.now i) (inst_early insts.now i) || is_set (inst_placed insts.now i) && misplaced
        (blocks_of blocks.now) (row_inst insts.now i)) }
{
    let at = inst::WIDTH * i;
    let early = insts[at + inst::EARLY];
    let late = insts[at + inst::LATE];
    if late < early {
        return true;
    }
    if insts[at] != 1 {
        return false;
    }
    outside(blocks, insts[at + inst::BLOCK], early, late, k)
}

// Whether instruction `i`, whose operands begin at `from`, is refused. `k` blocks start no later than its early point.
fn bad_inst(
    blocks: &[u32],
    v: u32,
    insts: &[u32],
    operands: &[u32],
    i: usize,
    from: usize,
    k: usize,
) -> bool
    requires sound { Sound (blocks_of blocks.now) × (i < inst_count insts.now) × AddsUp insts.now operands.now }
    requires from_value { (from ≡ offset insts.now i) × (v ≤ 65535) × Splits (λ j. leb (block_start blocks.now j) (inst_early insts.now i)) (block_count blocks.now) k }
    ensures { result ≡ bad_inst (blocks_of blocks.now) v (inst_at (insts_of insts.now operands.now) i) }
{
    if bad_points(blocks, insts, i, k) {
        return true;
    }
    if bad_fields(insts, i) {
        return true;
    }
    bad_operands(
        operands,
        from,
        wide(insts[inst::WIDTH * i + inst::OPERANDS]),
        v,
    )
}

// Refusal 4: the first instruction that is refused; an operand counts as its instruction.
pub fn inst(blocks: &[u32], v: u32, insts: &[u32], operands: &[u32]) -> Verdict
    requires { Sound (blocks_of blocks.now) × AddsUp insts.now operands.now × (v ≤ 65535) }
    ensures { result ≡ inst_verdict (blocks_of blocks.now) v (insts_of insts.now operands.now) }
{
    let n = insts.len() / inst::WIDTH;
    let mut from = 0;
    let mut k = 0;
    for i in 0..n {
        k = inst_parts::near(blocks, insts[inst::WIDTH * i + inst::EARLY], k);
        if bad_inst(blocks, v, insts, operands, i, from, k) {
            return Err(Refused(Refusal::Inst, i));
        }
        from += wide(insts[inst::WIDTH * i + inst::OPERANDS]);
    }
    Ok(())
}

// Refusal 4: the first crossing of no register.
pub fn crossing(v: u32, crossings: &[u32]) -> Verdict
    requires { v ≤ 65535 }
    ensures { result ≡ crossing_verdict v crossings.now }
{
    below(crossings, 1, 0, wide(v) + 256, Refusal::Inst)
}

// Whether there is no placed instruction with this number.
pub fn unplaced(insts: &[u32], number: u32) -> bool
    ensures { result ≡ (leb (inst_count insts.now) number || not (is_set (inst_placed insts.now number))) }
{
    let at = wide(number);
    if insts.len() / inst::WIDTH <= at {
        return true;
    }
    insts[inst::WIDTH * at] != 1
}

// Refusal 5: the first address at an absent or unplaced instruction, whatever the operands.
pub fn address(insts: &[u32], addresses: &[u32]) -> Verdict
    ensures { result ≡ address_verdict (insts_of insts.now []) (mentions_of addresses.now) }
{
    let n = addresses.len() / mention::WIDTH;
    for i in 0..n {
        if unplaced(insts, addresses[mention::WIDTH * i]) {
            return Err(Refused(Refusal::Stray, i));
        }
    }
    Ok(())
}

// Refusal 5: the first end at an absent instruction, whatever the operands.
pub fn end(insts: &[u32], ends: &[u32]) -> Verdict
    ensures { result ≡ end_verdict (insts_of insts.now []) (mentions_of ends.now) }
{
    below(
        ends,
        mention::WIDTH,
        0,
        insts.len() / inst::WIDTH,
        Refusal::Stray,
    )
}

// Refusals 2 and 4 of the blocks and the instructions.
pub fn located(points: u32, v: u32, blocks: &[u32], insts: &[u32], operands: &[u32]) -> Verdict
    requires { (1 ≤ block_count blocks.now) × (block_count blocks.now ≤ 4096) × AddsUp insts.now operands.now × (v ≤ 65535) }
    ensures { result ≡ first (line_verdict (blocks_of blocks.now) points) (inst_verdict (blocks_of blocks.now) v (insts_of insts.now operands.now)) }
{
    line_checks::line(blocks, points)?;
    inst(blocks, v, insts, operands)
}
