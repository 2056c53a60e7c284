// The touches and the ends of one local of a job, each list in one piece of the work space.
#![tactic(auto)]

ghost use Rattle.std.specs.Prelude.{ℕ, ◌+◌, ◌^◌, ◌≤◌, ◌<◌, length, get_or};
ghost use Rattle.words.specs.Sort.{Distinct};
ghost use Rattle.words.specs.Inner.{part};
ghost use Rattle.words.specs.Widths.{address_count, piece_count};
ghost use Rattle.live.specs.Inner.{InOrder};
ghost use Rattle.touches.specs.Inner.{Linked};
ghost use Rattle.job_spots.specs.Inner.{TouchesIn, EndsIn};

use carrying::Kind;
use reach::Lay;
use spots::Spots;

pub mod fetch; // fetch.rt: a local followed, and then both lists

// Where one local's touches and ends go, and what they are found by: the pieces stand in order from `keys` on; each local's ends as a chain,
// from `heads` and `nexts` on; its touches go from `at` on, its ends from `ends` on.
#[derive(Clone, Copy)]
pub struct Places {
    pub keys: usize,
    pub heads: usize,
    pub nexts: usize,
    pub at: usize,
    pub ends: usize,
}

// A local's kind, and where its touches and ends stand.
#[derive(Clone, Copy)]
pub struct JobLocal {
    pub kind: Kind,
    pub spots: Spots,
}

// The touches of a local whose `count` carried registers stand in the queue, from `to` on; how many there are. The pieces stand in order from `keys` on.
pub fn touches(
    insts: &[u32],
    addresses: &[u32],
    pieces: &[u32],
    work: &mut [u64],
    lay: Lay,
    keys: usize,
    count: usize,
    local: usize,
    to: usize,
) -> usize
    requires in_order { InOrder pieces.now keys work.old × (piece_count pieces.now ≤ 65536) × (keys + piece_count pieces.now ≤ to) × (lay.queue + count ≤ to)
        × (to + (piece_count pieces.now + piece_count pieces.now) ≤ length work.old) }
    requires distinct { Distinct (part lay.queue count work.old) × ((k : ℕ) → k < count → get_or work.old (lay.queue + k) 0 < 2 ^ 32) }
    requires linked { Linked insts.now addresses.now lay.heads lay.nexts local to work.old × (to + piece_count pieces.now + address_count addresses.now ≤ length work.old) }
    ensures { TouchesIn insts.now addresses.now pieces.now lay.queue count local to work.old work.new result }
{
    let n = touches::of_registers(pieces, work, keys, lay.queue, count, to);
    n + touches::of_entries(insts, addresses, work, lay.heads, lay.nexts, local, to + n)
}

// The ends of a local in rising order, from `to` on; how many there are.
pub fn ends(
    insts: &[u32],
    ends: &[u32],
    work: &mut [u64],
    heads: usize,
    nexts: usize,
    local: usize,
    to: usize,
) -> usize
    requires { Linked insts.now ends.now heads nexts local to work.old }
    ensures { EndsIn insts.now ends.now local to work.old work.new result }
{
    let n = touches::of_ends(insts, ends, work, heads, nexts, local, to);
    sorting::sort_part(work, to, n);
    n
}
