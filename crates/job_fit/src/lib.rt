// Fitting of a job's items, from their areas in the work space: the wants' table, and the lowest fitting cell for each.
#![tactic(auto)]

ghost use Rattle.std.specs.Prelude.{◌+◌, ◌≤◌, length};
ghost use Rattle.words.specs.Inner.{Region};
ghost use Rattle.words.specs.Widths.{local_count, slot_count};
ghost use Rattle.job_fit.specs.Inner.{local_word, slot_word, want_word, Ready, FittedFor};

use fit_tables::{Counts, HALF, Tables};
use words::widths::local;

// A word for each local: its size above its alignment.
fn load_locals(w: &mut [u64], at: usize, locals: &[u32])
    requires { at + local_count locals.now ≤ length w.old }
    ensures { Region w.old w.new at (local_count locals.now) (local_word locals.now) }
{
    let n = locals.len() / local::WIDTH;
    for i in 0..n {
        w[at + i] = locals[local::WIDTH * i] as u64 * HALF
            + locals[local::WIDTH * i + local::ALIGN] as u64;
    }
}

// A word for each slot: its width twice.
fn load_slots(w: &mut [u64], at: usize, slots: &[u32])
    requires { at + slot_count slots.now ≤ length w.old }
    ensures { Region w.old w.new at (length slots.now) (slot_word slots.now) }
{
    let n = slots.len();
    for i in 0..n {
        w[at + i] = slots[i] as u64 * HALF + slots[i] as u64;
    }
}

// The wants' table: the size and the alignment of each item.
fn load(w: &mut [u64], at: usize, locals: &[u32], slots: &[u32])
    requires { at + (local_count locals.now + slot_count slots.now) ≤ length w.old }
    ensures { Region w.old w.new at (local_count locals.now + slot_count slots.now) (want_word locals.now slots.now) }
{
    load_locals(w, at, locals);
    load_slots(w, at + locals.len() / local::WIDTH, slots);
}

// Fits the items whose areas stand from 0 on and whose words stand from `room` on; the words up to `end` are needed for it.
pub fn fitted(
    locals: &[u32],
    slots: &[u32],
    budget: u32,
    work: &mut [u64],
    room: usize,
    end: usize,
) -> Counts
    requires { Ready (local_count locals.now + slot_count slots.now) room end work.old }
    ensures { FittedFor locals.now slots.now budget room end work.old work.new result }
{
    let n = locals.len() / local::WIDTH + slots.len();
    load(work, room + n, locals, slots);
    let t = Tables {
        at: 0,
        items: room,
        n: n,
        end: end,
    };
    fit_cells::fit(work, t, budget as u64)
}
