// The refusals of the entries of carrying, in linear time and without work space.
ghost use Rattle.std.specs.Prelude.{◌≡◌, [], ◌+◌, ◌*◌, ◌/◌, ◌≤◌, length};
ghost use Rattle.carry_checks.specs.Checks.{carry_counts, carry_words, carry_space, carry_verdict};
ghost use Rattle.carry_checks.specs.Inner.{stray_verdict};
ghost use Rattle.words.specs.Widths.{block_count, inst_count, operand_count, local_count, address_count, end_count};

use refusals::Verdict;
use words::widths::{block, inst, local, mention, operand};

// Refusal 1.
pub fn counts(
    v: u32,
    blocks: &[u32],
    insts: &[u32],
    operands: &[u32],
    crossings: &[u32],
    locals: &[u32],
    addresses: &[u32],
    ends: &[u32],
) -> Verdict
    ensures { result ≡ carry_counts v blocks.now insts.now operands.now crossings.now locals.now addresses.now
        ends.now }
{
    let a = insts::counts::blocks(blocks);
    let b = insts::counts::code(v, insts, operands, crossings, locals, addresses, ends);
    refusals::earlier(a, b)
}

// Refusal 5 of the addresses and the ends, whatever the operands.
pub fn stray(insts: &[u32], addresses: &[u32], ends: &[u32]) -> Verdict
    ensures { result ≡ stray_verdict insts.now [] addresses.now ends.now }
{
    let a = insts::checks::address(insts, addresses);
    let b = insts::checks::end(insts, ends);
    refusals::earlier(a, b)
}

// W of `reach` and `carried` by numbers of records, for any numbers: 8 words for each record lent, for each 64 locals of each block, and for each 64 registers.
pub fn words(
    v: u32,
    blocks: u32,
    insts: u32,
    operands: u32,
    crossings: u32,
    locals: u32,
    addresses: u32,
    ends: u32,
) -> u64
    ensures { result ≡ carry_words v blocks insts operands crossings locals addresses ends }
{
    let code = blocks as u64 + insts as u64 + operands as u64 + crossings as u64;
    let named = locals as u64 + addresses as u64 + ends as u64;
    let rows = blocks as u64 * ((locals as u64 + 63) / 64);
    8 * (code + named + rows + (v as u64 + 63) / 64)
}

// The work space that the entries need.
pub fn needed(
    v: u32,
    blocks: &[u32],
    insts: &[u32],
    operands: &[u32],
    crossings: &[u32],
    locals: &[u32],
    addresses: &[u32],
    ends: &[u32],
) -> usize
    requires { (block_count blocks.now ≤ 4096) × (inst_count insts.now ≤ 65536) × (operand_count operands.now ≤ 262144) × (length crossings.now ≤ 65536)
        × (local_count locals.now ≤ 2048) × (address_count addresses.now ≤ 65536) × (end_count ends.now ≤ 65536) }
    ensures { result ≡ carry_space v blocks.now insts.now operands.now crossings.now locals.now addresses.now ends.now }
{
    let b = (blocks.len() / block::WIDTH) as u32;
    let i = (insts.len() / inst::WIDTH) as u32;
    let o = (operands.len() / operand::WIDTH) as u32;
    let x = crossings.len() as u32;
    let l = (locals.len() / local::WIDTH) as u32;
    let a = (addresses.len() / mention::WIDTH) as u32;
    let e = (ends.len() / mention::WIDTH) as u32;
    words(v, b, i, o, x, l, a, e) as usize
}

// Refusals 1, 2, 4, 5 and 7, for an answer list of `lent` numbers where `most` may be needed, and `work` words of work space.
pub fn refusal(
    points: u32,
    v: u32,
    blocks: &[u32],
    insts: &[u32],
    operands: &[u32],
    crossings: &[u32],
    locals: &[u32],
    addresses: &[u32],
    ends: &[u32],
    lent: usize,
    most: usize,
    work: usize,
) -> Verdict
    ensures { result ≡ carry_verdict points v blocks.now insts.now operands.now crossings.now locals.now addresses.now
        ends.now lent most work }
{
    counts(
        v, blocks, insts, operands, crossings, locals, addresses, ends,
    )?;
    insts::checks::located(points, v, blocks, insts, operands)?;
    let crossed = insts::checks::crossing(v, crossings);
    let astray = stray(insts, addresses, ends);
    let w = needed(
        v, blocks, insts, operands, crossings, locals, addresses, ends,
    );
    let short = refusals::room(lent, most, work, w);
    refusals::earlier(crossed, refusals::earlier(astray, short))
}
