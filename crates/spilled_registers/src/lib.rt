// The register of each slot: the last assigned to it.
#![tactic(auto)]

ghost use Rattle.std.specs.Prelude.{◌≡◌, ◌/◌, ◌≤◌, length, get_or};
ghost use Rattle.words.specs.Inner.{Region};
ghost use Rattle.words.specs.Widths.{assigned_count};
ghost use Rattle.areas.specs.Slots.{assigned_of, spilled};
ghost use Rattle.spilled_registers.specs.Spilled.{register_or, spilled_counts, spilled_words, spilled_space, spilled_verdict, SpilledTo};

use refusals::{Answer, Verdict};
use words::widths::assigned;

// Refusal 1 of `spilled`.
fn counts(v: u32, slots: usize, assigned: &[u32]) -> Verdict
    ensures { result ≡ spilled_counts v slots assigned.now }
{
    let a = insts::counts::most(v as usize, 65535);
    let b = insts::counts::most(slots, 2048);
    let c = insts::counts::rows(assigned.len(), assigned::WIDTH, 65536);
    let c = refusals::earlier(b, c);
    refusals::earlier(a, c)
}

// W of `spilled` by the number of assignments, for any numbers: 8 words for each, and for each 64 registers.
pub fn words(v: u32, assigned: u32) -> u64
    ensures { result ≡ spilled_words v assigned }
{
    8 * (assigned as u64 + (v as u64 + 63) / 64)
}

// The work space that `spilled` needs.
fn needed(v: u32, assigned: &[u32]) -> usize
    requires { assigned_count assigned.now ≤ 65536 }
    ensures { result ≡ spilled_space v assigned.now }
{
    let n = (assigned.len() / assigned::WIDTH) as u32;
    words(v, n) as usize
}

// Refusals 1, 6 and 7 of `spilled`.
fn refusal(v: u32, slots: usize, assigned: &[u32], lent: usize, work: usize) -> Verdict
    ensures { result ≡ spilled_verdict v slots assigned.now lent work }
{
    counts(v, slots, assigned)?;
    let piece = spill_checks::assigned(v, assigned);
    let w = needed(v, assigned);
    let short = refusals::room(lent, slots, work, w);
    refusals::earlier(piece, short)
}

// `v` for each of `n` slots.
fn without(answer: &mut [u32], n: usize, v: u32)
    requires { n ≤ length answer.old }
    ensures { Region answer.old answer.new 0 n (λ s. v) }
{
    answer[..n].fill(v);
}

// The last register assigned to each of `n` slots, where there is one.
fn assign(assigned: &[u32], answer: &mut [u32], n: usize)
    requires { n ≤ length answer.old }
    ensures { Region answer.old answer.new 0 n (λ s. register_or (get_or answer.old s 0) (spilled (assigned_of assigned.now) s)) }
{
    let m = assigned.len() / assigned::WIDTH;
    for i in 0..m {
        let slot = assigned[assigned::WIDTH * i + assigned::SLOT] as usize;
        if slot < n {
            answer[slot] = assigned[assigned::WIDTH * i];
        }
    }
}

// The register of each of `slots` slots: the last that is assigned to it, or `v`, which is no numbered register's number, for none.
// Refuses counts outside their limits (1), an assignment of a register that is not numbered (6), an answer shorter than the slots or work space under 8 words
// for each assignment and for each 64 registers (7).
pub fn spilled(
    v: u32,
    slots: usize,
    assigned: &[u32],
    answer: &mut [u32],
    work: &mut [u64],
) -> Answer
    ensures { SpilledTo v slots assigned.now answer.old work.old result answer.new work.new }
{
    refusal(v, slots, assigned, answer.len(), work.len())?;
    without(answer, slots, v);
    assign(assigned, answer, slots);
    let w = needed(v, assigned);
    words::clear(work, w);
    Ok(slots)
}
