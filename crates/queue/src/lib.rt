// The queue of a walk: instructions whose defs are carried, each def once.
#![tactic(auto)]

ghost use Rattle.std.specs.Prelude.{◌+◌, ◌<◌};
ghost use Rattle.queue.specs.Inner.{def_at, Held, Joined};

use reach::Lay;

// Puts instruction `i` of `m`, which has a def of `v` registers, behind the `n` in the queue, unless its def is seen; how many stand there then.
pub fn join(v: u32, m: usize, work: &mut [u64], lay: Lay, i: usize, n: usize) -> usize
    requires { Held v m lay work.old n × (i < m) × (0 < def_at lay work.old i) }
    ensures { Joined v m lay work.old work.new i n result }
{
    let r = work[lay.defs + i] as usize - 1;
    if bits::test(work, lay.seen, r) {
        return n;
    }
    bits::set(work, lay.seen, r);
    work[lay.queue + n] = i as u64;
    n + 1
}
