// The register of each slot, a word a slot.
#![tactic(auto)]

ghost use Rattle.std.specs.Prelude.{◌≡◌, ℕ, ◌+◌, ◌≤◌, ◌<◌, length, get_or};
ghost use Rattle.words.specs.Inner.{Region};
ghost use Rattle.areas.specs.Slots.{assigned_of, spilled};
ghost use Rattle.slot_registers.specs.Inner.{held_word};

use words::widths::assigned;

// The last register assigned to each of `slots` slots plus 1, where there is one.
pub fn assign(assigned: &[u32], work: &mut [u64], at: usize, slots: usize)
    requires { (at + slots ≤ length work.old) × ((s : ℕ) → s < slots → get_or work.old (at + s) 0 ≡ 0) }
    ensures { Region work.old work.new at slots (λ s. held_word (spilled (assigned_of assigned.now) s)) }
{
    let n = assigned.len() / assigned::WIDTH;
    for i in 0..n {
        let s = assigned[assigned::WIDTH * i + assigned::SLOT] as usize;
        if s < slots {
            work[at + s] = assigned[assigned::WIDTH * i] as u64 + 1;
        }
    }
}
