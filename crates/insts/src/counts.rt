// Refusal 1: a count outside its limits, a row cut short, or operand counts that do not add up.
ghost use Rattle.std.specs.Prelude.{◌≡◌, ◌/◌, ◌≤◌, ◌<◌};
ghost use Rattle.insts.specs.Counts.{rows_verdict, most_verdict, block_counts, offset, add_up, inst_counts, code_counts};
ghost use Rattle.words.specs.Widths.{inst_count};

use refusals::{Refusal, Refused, Verdict};
use words::widths::{block, inst, local, mention, operand};

// At most `limit` rows of `width` numbers each, and whole ones.
pub fn rows(lent: usize, width: usize, limit: usize) -> Verdict
    requires { 0 < width }
    ensures { result ≡ rows_verdict width limit lent }
{
    if lent % width != 0 {
        return Err(Refused(Refusal::Count, 0));
    }
    if limit < lent / width {
        return Err(Refused(Refusal::Count, 0));
    }
    Ok(())
}

// At most `limit`.
pub fn most(n: usize, limit: usize) -> Verdict
    ensures { result ≡ most_verdict limit n }
{
    if limit < n {
        return Err(Refused(Refusal::Count, 0));
    }
    Ok(())
}

// 1 to 4,096 blocks.
pub fn blocks(blocks: &[u32]) -> Verdict
    ensures { result ≡ block_counts blocks.now }
{
    rows(blocks.len(), block::WIDTH, 4096)?;
    if blocks.len() / block::WIDTH < 1 {
        return Err(Refused(Refusal::Count, 0));
    }
    Ok(())
}

// How many operands the instructions have, by their counts.
fn operand_sum(insts: &[u32]) -> u64
    requires { inst_count insts.now ≤ 65536 }
    ensures { result ≡ offset insts.now (inst_count insts.now) }
{
    let n = insts.len() / inst::WIDTH;
    let mut sum: u64 = 0;
    for i in 0..n {
        sum += insts[inst::WIDTH * i + inst::OPERANDS] as u64;
    }
    sum
}

// Whether the operand counts add up to the operand list.
fn add_up(insts: &[u32], operands: &[u32]) -> Verdict
    requires { inst_count insts.now ≤ 65536 }
    ensures { result ≡ add_up insts.now operands.now }
{
    let n = (operands.len() / operand::WIDTH) as u64;
    if operand_sum(insts) != n {
        return Err(Refused(Refusal::Count, 0));
    }
    Ok(())
}

// Instructions with their operands.
pub fn insts(insts: &[u32], operands: &[u32]) -> Verdict
    ensures { result ≡ inst_counts insts.now operands.now }
{
    rows(insts.len(), inst::WIDTH, 65536)?;
    rows(operands.len(), operand::WIDTH, 262144)?;
    add_up(insts, operands)
}

// What `reach` is lent besides the blocks.
pub fn code(
    v: u32,
    insts: &[u32],
    operands: &[u32],
    crossings: &[u32],
    locals: &[u32],
    addresses: &[u32],
    ends: &[u32],
) -> Verdict
    ensures { result ≡ code_counts v insts.now operands.now crossings.now locals.now addresses.now ends.now }
{
    let a = most(v as usize, 65535);
    let b = self::insts(insts, operands);
    let c = most(crossings.len(), 65536);
    let d = rows(locals.len(), local::WIDTH, 2048);
    let e = rows(addresses.len(), mention::WIDTH, 65536);
    let f = rows(ends.len(), mention::WIDTH, 65536);
    let f = refusals::earlier(e, f);
    let f = refusals::earlier(d, f);
    let f = refusals::earlier(c, f);
    let f = refusals::earlier(b, f);
    refusals::earlier(a, f)
}
