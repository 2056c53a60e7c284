// The touches and ends of one local of a job, in the work space: live pieces of the registers that carry its address, the points of its listed instructions, and its ends.
#![tactic(auto)]

ghost use Rattle.std.specs.Prelude.{ℕ, ◌+◌, ◌^◌, ◌≤◌, ◌<◌, length, get_or};
ghost use Rattle.words.specs.Sort.{Distinct};
ghost use Rattle.words.specs.Inner.{part};
ghost use Rattle.words.specs.Widths.{piece_count};
ghost use Rattle.live.specs.Inner.{InOrder};
ghost use Rattle.touches.specs.Inner.{Gathered, entry_at, end_at, Linked, Listed};

use words::widths::{inst, mention};

// The live pieces of the `count` registers from `from` on, each of them once, as words from `to` on; how many there are. The pieces stand in order from `keys` on.
pub fn of_registers(
    pieces: &[u32],
    work: &mut [u64],
    keys: usize,
    from: usize,
    count: usize,
    to: usize,
) -> usize
    requires in_order { InOrder pieces.now keys work.old × (piece_count pieces.now ≤ 65536) × (keys + piece_count pieces.now ≤ to) × (from + count ≤ to)
        × (to + (piece_count pieces.now + piece_count pieces.now) ≤ length work.old) }
    requires distinct { Distinct (part from count work.old) × ((k : ℕ) → k < count → get_or work.old (from + k) 0 < 2 ^ 32) }
    ensures { Gathered pieces.now from count to work.old work.new result }
{
    let mut m = 0;
    for k in 0..count {
        let register = work[from + k] as u32;
        m += live::fetch(pieces, work, keys, register, to + m);
    }
    m
}

// Early to late of each instruction that a local's address entries list, as words from `to` on; how many there are. The entries are chained, the last first.
pub fn of_entries(
    insts: &[u32],
    addresses: &[u32],
    work: &mut [u64],
    heads: usize,
    nexts: usize,
    local: usize,
    to: usize,
) -> usize
    requires { Linked insts.now addresses.now heads nexts local to work.old }
    ensures { Listed addresses.now (entry_at insts.now addresses.now) local to work.old work.new result }
{
    let mut m = 0;
    let mut next = work[heads + local];
    while next != 0 {
        let a = next as usize - 1;
        let i = inst::WIDTH * addresses[mention::WIDTH * a] as usize;
        work[to + m] = packed::pack(insts[i + inst::EARLY], insts[i + inst::LATE]);
        m += 1;
        next = work[nexts + a];
    }
    m
}

// The early point of each placed instruction that a local's ends list, from `to` on; how many there are. The ends are chained as the entries are.
pub fn of_ends(
    insts: &[u32],
    ends: &[u32],
    work: &mut [u64],
    heads: usize,
    nexts: usize,
    local: usize,
    to: usize,
) -> usize
    requires { Linked insts.now ends.now heads nexts local to work.old }
    ensures { Listed ends.now (end_at insts.now ends.now) local to work.old work.new result }
{
    let mut m = 0;
    let mut next = work[heads + local];
    while next != 0 {
        let a = next as usize - 1;
        let i = inst::WIDTH * ends[mention::WIDTH * a] as usize;
        next = work[nexts + a];
        if insts[i] == 1 {
            work[to + m] = insts[i + inst::EARLY] as u64;
            m += 1;
        }
    }
    m
}
