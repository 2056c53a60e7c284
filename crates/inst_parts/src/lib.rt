// Parts of the check of one instruction: the block of its early point, and one operand.
#![tactic(auto)]

ghost use Rattle.std.specs.Prelude.{◌≡◌, ◌||◌, ◌/◌, ◌≤◌, ◌<◌, leb, ltb};
ghost use Rattle.words.specs.Inner.{Splits, operand_def, operand_register};
ghost use Rattle.words.specs.Widths.{block_count, block_start, operand_count};
ghost use Rattle.graph.specs.Line.{blocks_of, Sound};
ghost use Rattle.carrying.specs.Checks.{bad_register};

use words::widths::{block, operand};

// How many blocks start no later than the point. The last of the first `k` is tried first: one instruction mostly stands in the block of the one before.
pub fn near(blocks: &[u32], early: u32, k: usize) -> usize
    requires { Sound (blocks_of blocks.now) × (k ≤ block_count blocks.now) }
    ensures { Splits (λ j. leb (block_start blocks.now j) early) (block_count blocks.now) result }
{
    if 0 < k {
        let at = block::WIDTH * (k - 1);
        if blocks[at + block::START] <= early {
            if early <= blocks[at + block::END] {
                return k;
            }
        }
    }
    words::at_most_in_rows(
        blocks,
        block::WIDTH,
        block::START,
        blocks.len() / block::WIDTH,
        early,
    )
}

// Whether the flag or the register of operand `i` is out of range.
pub fn bad_operand(operands: &[u32], i: usize, v: u32) -> bool
    requires { (i < operand_count operands.now) × (v ≤ 65535) }
    ensures { result ≡ (ltb 1 (operand_def operands.now i) || bad_register v (operand_register operands.now i)) }
{
    let top = v + 256;
    if 1 < operands[operand::WIDTH * i] {
        return true;
    }
    top <= operands[operand::WIDTH * i + operand::REGISTER]
}
