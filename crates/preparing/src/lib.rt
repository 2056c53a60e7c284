// The preparation: the pass over the code, and what each local's walk reads, in the work space.
#![tactic(auto)]

ghost use Rattle.std.specs.Prelude.{◌≡◌, ℕ, ◌+◌, ◌*◌, ◌/◌, ◌≤◌, ◌<◌, [], eqb, length, get_or};
ghost use Rattle.words.specs.Inner.{Rising};
ghost use Rattle.words.specs.Widths.{inst_count, operand_count, mention_width, address_count, end_count};
ghost use Rattle.words.specs.Regions.{row_words};
ghost use Rattle.carrying.specs.Lists.{any};
ghost use Rattle.insts.specs.Rows.{AddsUp};
ghost use Rattle.reach.specs.Prepared.{code_of};
ghost use Rattle.reach.specs.Inner.{Laid, Registered, Readied, Marked};
ghost use Rattle.preparing.specs.Inner.{Firsts, Indexed, Ends, Cleared, Emptied, ByLocal};

use reach::{Lay, scan};
use words::HALF;
use words::widths::{inst, mention};

// Sets the bit of each numbered register that crosses.
fn cross(crossings: &[u32], v: u32, work: &mut [u64], row: usize)
    requires { row + row_words v ≤ length work.old }
    ensures { Marked work.old work.new row v (λ r. any (eqb r) crossings.now) }
{
    for r in crossings {
        if *r < v {
            bits::set(work, row, *r as usize);
        }
    }
}

// At each of `m` instructions with a def the first of the `n` edges of its def.
fn firsts(work: &mut [u64], lay: Lay, m: usize, n: usize)
    requires m_bound { (lay.defs + m ≤ lay.firsts) × (lay.firsts + m ≤ lay.edges) × (lay.edges + n ≤ length work.old) }
    requires rising { Rising (λ k. get_or work.old (lay.edges + k) 0) n × ((i : ℕ) → i < m → get_or work.old (lay.defs + i) 0 ≤ 65536) }
    ensures { Firsts lay m n work.old work.new }
{
    for i in 0..m {
        let d = work[lay.defs + i];
        if d != 0 {
            let f = words::below(work, lay.edges, n, (d - 1) * HALF);
            work[lay.firsts + i] = f as u64;
        }
    }
}

// Puts the `n` edges in order, and finds the first of each def.
fn index(work: &mut [u64], lay: Lay, m: usize, n: usize)
    requires m_bound { (lay.defs + m ≤ lay.firsts) × (lay.firsts + m ≤ lay.edges) × (lay.edges + n ≤ length work.old) }
    requires by_index { (i : ℕ) → i < m → get_or work.old (lay.defs + i) 0 ≤ 65536 }
    ensures { Indexed lay m n work.old work.new }
{
    sorting::sort_part(work, lay.edges, n);
    firsts(work, lay, m, n);
}

// Marks each local that has a placed end.
fn ends(insts: &[u32], ends: &[u32], locals: usize, work: &mut [u64], lay: Lay)
    requires locals_in_bounds { (lay.ended + locals ≤ length work.old) × ((k : ℕ) → k < end_count ends.now → get_or ends.now (mention_width * k) 0 < inst_count insts.now) }
    requires by_index { (m : ℕ) → m < locals → get_or work.old (lay.ended + m) 0 ≡ 0 }
    ensures { Ends lay insts.now ends.now locals (end_count ends.now) work.old work.new }
{
    let n = ends.len() / mention::WIDTH;
    for k in 0..n {
        let i = ends[mention::WIDTH * k] as usize;
        let l = ends[mention::WIDTH * k + mention::LOCAL] as usize;
        if insts[inst::WIDTH * i] == 1 && l < locals {
            work[lay.ended + l] = 1;
        }
    }
}

// The two rows that the pass sets bits in.
fn clear(work: &mut [u64], lay: Lay, words: usize)
    requires { (lay.escapes + words ≤ lay.dead) × (lay.dead + words ≤ length work.old) }
    ensures { Cleared lay words work.old work.new }
{
    words::fill(work, lay.escapes, words, 0);
    words::fill(work, lay.dead, words, 0);
}

// No register is seen, no local has an entry or an end.
fn empty(work: &mut [u64], lay: Lay, words: usize, locals: usize)
    requires { (lay.seen + words ≤ lay.heads) × (lay.heads + locals ≤ lay.ended) × (lay.ended + locals ≤ length work.old) }
    ensures { Emptied lay words locals work.old work.new }
{
    words::fill(work, lay.seen, words, 0);
    words::fill(work, lay.heads, locals, 0);
    words::fill(work, lay.ended, locals, 0);
}

// What the walks read of the registers; how many edges there are.
fn registers(
    insts: &[u32],
    operands: &[u32],
    crossings: &[u32],
    v: u32,
    work: &mut [u64],
    lay: Lay,
    words: usize,
) -> usize
    requires adds_up { AddsUp insts.now operands.now × (inst_count insts.now ≤ 65536) × (v ≤ 65535) × (words ≡ row_words v) }
    requires v_bound { (lay.escapes + row_words v ≤ lay.dead) × (lay.dead + row_words v ≤ lay.defs) × (lay.defs + inst_count insts.now ≤ lay.firsts)
        × (lay.firsts + inst_count insts.now ≤ lay.edges) × (lay.edges + operand_count operands.now ≤ lay.heads) × (lay.heads ≤ length work.old) }
    ensures { Registered (code_of v insts.now operands.now crossings.now [] []) lay (operand_count operands.now) result work.old
        work.new }
{
    clear(work, lay, words);
    let n = scan::scan(insts, operands, v, work, lay);
    cross(crossings, v, work, lay.escapes);
    index(work, lay, insts.len() / inst::WIDTH, n);
    n
}

// What the walks read of the locals.
fn by_local(
    insts: &[u32],
    addresses: &[u32],
    ends: &[u32],
    locals: usize,
    work: &mut [u64],
    lay: Lay,
    words: usize,
)
    requires words_bound { (lay.seen + words ≤ lay.heads) × (lay.heads + locals ≤ lay.nexts) × (lay.nexts + address_count addresses.now ≤ lay.ended) × (lay.ended + locals ≤ length work.old) }
    requires by_index { (k : ℕ) → k < end_count ends.now → get_or ends.now (mention_width * k) 0 < inst_count insts.now }
    ensures { ByLocal lay words insts.now addresses.now ends.now locals work.old work.new }
{
    empty(work, lay, words, locals);
    chains::chain(
        addresses,
        2,
        1,
        addresses.len() / mention::WIDTH,
        locals,
        work,
        lay.heads,
        lay.nexts,
    );
    self::ends(insts, ends, locals, work, lay);
}

// The preparation for all walks, once a code, in O(records log records); how many edges there are.
pub fn prepare(
    insts: &[u32],
    operands: &[u32],
    crossings: &[u32],
    locals: usize,
    addresses: &[u32],
    ends: &[u32],
    v: u32,
    work: &mut [u64],
    lay: Lay,
) -> usize
    requires adds_up { AddsUp insts.now operands.now × (inst_count insts.now ≤ 65536) × (v ≤ 65535) }
    requires laid { Laid lay v (inst_count insts.now) (operand_count operands.now) locals (address_count addresses.now) (length work.old) }
    requires by_index { (k : ℕ) → k < end_count ends.now → get_or ends.now (mention_width * k) 0 < inst_count insts.now }
    ensures { Readied (code_of v insts.now operands.now crossings.now addresses.now ends.now) lay
        (operand_count operands.now) locals result work.old work.new }
{
    let words = (v as usize + 63) / 64;
    let n = registers(insts, operands, crossings, v, work, lay, words);
    by_local(insts, addresses, ends, locals, work, lay, words);
    n
}
