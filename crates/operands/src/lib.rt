// What an instruction does with a register, by the rows of its operands.
#![tactic(auto)]

ghost use Rattle.std.specs.Prelude.{◌≡◌, not, ◌&&◌, ◌+◌, ◌≤◌, ◌<◌};
ghost use Rattle.carrying.specs.Lists.{keep};
ghost use Rattle.carrying.specs.Insts.{is_set, only_one, is_use, address_position, each_address};
ghost use Rattle.insts.specs.Inner.{operand_at, operands_from};
ghost use Rattle.operands.specs.Inner.{def_number, addressing};
ghost use Rattle.words.specs.Widths.{operand_count};

use words::widths::operand;

// The one numbered register that `n` operands from `from` on define, plus 1; 0 where there is none, two or a physical one.
pub fn def(operands: &[u32], from: usize, n: usize, v: u32) -> u32
    requires { (from + n ≤ operand_count operands.now) × (v ≤ 65535) }
    ensures { result ≡ def_number (only_one v (keep (λ o. is_set o.def) (operands_from operands.now from n))) }
{
    let mut count: usize = 0;
    let mut register: u32 = 0;
    for p in 0..n {
        let i = from + p;
        if operands[operand::WIDTH * i] == 1 {
            if count == 1 {
                return 0;
            }
            count = 1;
            register = operands[operand::WIDTH * i + operand::REGISTER];
        }
    }
    if count == 0 {
        return 0;
    }
    if register < v {
        return register + 1;
    }
    0
}

// Whether operand position `p` is the base or the index.
pub fn part(p: usize, base: u32, index: u32) -> bool
    ensures { result ≡ address_position (addressing base index) p }
{
    if p >= 256 {
        return false;
    }
    if base as usize == p {
        return true;
    }
    index as usize == p
}

// Whether operand `i`, at position `p`, uses register `r` other than as the base or the index.
fn stray(operands: &[u32], i: usize, p: usize, r: u32, base: u32, index: u32) -> bool
    requires { i < operand_count operands.now }
    ensures { result ≡ (is_use r (operand_at operands.now i) && not (address_position (addressing base index) p)) }
{
    if operands[operand::WIDTH * i + operand::REGISTER] != r {
        return false;
    }
    if operands[operand::WIDTH * i] == 1 {
        return false;
    }
    !part(p, base, index)
}

// Whether each use of register `r` among `n` operands from `from` on is the base or the index.
pub fn addressed(operands: &[u32], from: usize, n: usize, r: u32, base: u32, index: u32) -> bool
    requires { from + n ≤ operand_count operands.now }
    ensures { result ≡ each_address (addressing base index) r 0 (operands_from operands.now from n) }
{
    for p in 0..n {
        if stray(operands, from + p, p, r, base, index) {
            return false;
        }
    }
    true
}
