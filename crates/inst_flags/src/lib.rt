// What the flags of an instruction say, by its row: whether it reads, and whether it hands an address on.
#![tactic(auto)]

ghost use Rattle.std.specs.Prelude.{◌≡◌, not, ◌&&◌, ◌<◌};
ghost use Rattle.words.specs.Widths.{inst_count};
ghost use Rattle.words.specs.Inner.{inst_placed, inst_lea, inst_mem};
ghost use Rattle.carrying.specs.Insts.{is_set};

use words::widths::inst;

// Only placed instructions read.
pub fn unplaced(insts: &[u32], i: usize) -> bool
    requires { i < inst_count insts.now }
    ensures { result ≡ not (is_set (inst_placed insts.now i)) }
{
    insts[inst::WIDTH * i] != 1
}

// A placed `lea` in memory mode hands an address on.
pub fn handing(insts: &[u32], i: usize) -> bool
    requires { i < inst_count insts.now }
    ensures { result ≡ (is_set (inst_placed insts.now i) && (is_set (inst_lea insts.now i) && is_set (inst_mem insts.now i))) }
{
    let at = inst::WIDTH * i;
    if insts[at] != 1 {
        return false;
    }
    if insts[at + inst::LEA] != 1 {
        return false;
    }
    insts[at + inst::MEM] == 1
}
