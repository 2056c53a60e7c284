// One local's walk: the defs of its address entries, and from each the defs that its address is handed on to.
ghost use Rattle.std.specs.Prelude.{◌≡◌, not, ◌&&◌, ◌||◌, ◌+◌, ◌-◌, ◌/◌, ◌<◌, set};
ghost use Rattle.queue.specs.Inner.{def_at, Held};
ghost use Rattle.follow.specs.Inner.{kind_by, Ready, FollowsAny, Walkable, Grown, Chain, Took, Began, register_at, Stepped, Walked, Unseen, Forgetting};
ghost use Rattle.words.specs.Widths.{inst_count};

use crate::{Begun, Followed, Sizes, Walk};
use carrying::Kind;
use reach::Lay;
use words::HALF;
use words::widths::{inst, mention};

fn either(a: bool, b: bool) -> bool
    ensures { result ≡ (a || b) }
{
    if a {
        return true;
    }
    b
}

// Whether a walk that is not to be whole stops.
fn stops(bad: bool, whole: bool) -> bool
    ensures { result ≡ (bad && not whole) }
{
    if bad {
        return !whole;
    }
    false
}

// Puts each instruction that the edges of the def of instruction `i` lead to into the queue.
fn grow(work: &mut [u64], lay: Lay, z: Sizes, i: usize, n: usize) -> usize
    requires { Walkable lay z work.old × Held z.v z.insts lay work.old n × (i < z.insts) × (0 < def_at lay work.old i) }
    ensures { Grown lay z work.old work.new (def_at lay work.old i - 1) n result }
{
    let q = work[lay.defs + i] - 1;
    let mut k = n;
    let first = work[lay.firsts + i] as usize;
    for x in first..z.edges {
        let y = work[lay.edges + x];
        if y / HALF != q {
            return k;
        }
        k = queue::join(z.v, z.insts, work, lay, (y % HALF) as usize, k);
    }
    k
}

// Takes an address entry at instruction `i`: the def of a `lea` goes into the queue.
fn take(insts: &[u32], work: &mut [u64], lay: Lay, z: Sizes, i: usize, b: Begun) -> Begun
    requires { (i < inst_count insts.now) × (i < z.insts) × Held z.v z.insts lay work.old b.count }
    ensures { Took lay z insts.now work.old work.new i b result }
{
    if insts[inst::WIDTH * i + inst::LEA] != 1 {
        return b;
    }
    if work[lay.defs + i] == 0 {
        return Begun {
            lost: true,
            count: b.count,
        };
    }
    let n = queue::join(z.v, z.insts, work, lay, i, b.count);
    Begun {
        lost: b.lost,
        count: n,
    }
}

// The address entries of a local.
fn begin(
    insts: &[u32],
    addresses: &[u32],
    work: &mut [u64],
    lay: Lay,
    z: Sizes,
    local: usize,
) -> Begun
    requires { Walkable lay z work.old × Held z.v z.insts lay work.old 0 × Chain lay z insts.now addresses.now local work.old }
    ensures { Began lay z insts.now addresses.now local work.old work.new result }
{
    let mut b = Begun {
        lost: false,
        count: 0,
    };
    let mut c = work[lay.heads + local] as usize;
    while c > 0 {
        let a = c - 1;
        b = take(
            insts,
            work,
            lay,
            z,
            addresses[mention::WIDTH * a] as usize,
            b,
        );
        c = work[lay.nexts + a] as usize;
    }
    b
}

// Looks at the register that stands at `h` in the queue.
fn step(work: &mut [u64], lay: Lay, z: Sizes, h: usize, s: Walk) -> Walk
    requires { Walkable lay z work.old × Held z.v z.insts lay work.old s.count × (h < s.count) }
    ensures { Stepped lay z work.old work.new h s result }
{
    let i = work[lay.queue + h] as usize;
    let r = work[lay.defs + i] as usize - 1;
    let escapes = either(s.escapes, bits::test(work, lay.escapes, r));
    let bad = either(s.bad, bits::test(work, lay.dead, r));
    let n = grow(work, lay, z, i, s.count);
    Walk {
        bad: bad,
        escapes: escapes,
        count: n,
    }
}

// The walk: to the end of the queue, or, unless it is to be whole, until something bad is met.
fn walk(work: &mut [u64], lay: Lay, z: Sizes, b: Begun, whole: bool) -> Walk
    requires { Walkable lay z work.old × Held z.v z.insts lay work.old b.count }
    ensures { Walked lay z work.old work.new b whole result }
{
    let mut s = Walk {
        bad: b.lost,
        escapes: false,
        count: b.count,
    };
    let mut h = 0;
    // The steps make the queue longer, so its length is no bound of a range.
    while h < s.count {
        if stops(s.bad, whole) {
            return s;
        }
        s = step(work, lay, z, h, s);
        h += 1;
    }
    s
}

// The instruction at `k` in the queue gives way to its def, which is seen no more.
fn forget(work: &mut [u64], lay: Lay, z: Sizes, k: usize)
    requires { Forgetting lay z work.old k }
    ensures { work.new ≡ set (set work.old (lay.queue + k) (register_at lay work.old k)) (lay.seen + register_at lay work.old k / 64) 0 }
{
    let i = work[lay.queue + k] as usize;
    let r = work[lay.defs + i] - 1;
    work[lay.queue + k] = r;
    work[lay.seen + r as usize / 64] = 0;
}

// Empties the set of seen registers again, and turns the queue into the registers.
fn unsee(work: &mut [u64], lay: Lay, z: Sizes, n: usize)
    requires { Held z.v z.insts lay work.old n }
    ensures { Unseen lay z work.old work.new n }
{
    for k in 0..n {
        forget(work, lay, z, k);
    }
}

fn kind(none: bool, bad: bool, escapes: bool, endless: bool) -> Kind
    ensures { result ≡ kind_by none bad escapes endless }
{
    if none {
        return Kind::Unfollowed;
    }
    if bad {
        return Kind::Unfollowed;
    }
    if escapes {
        if endless {
            return Kind::Unfollowed;
        }
        return Kind::Ending;
    }
    Kind::Plain
}

// Follows one local: its kind, and the registers that carry its address, which stand from `lay.queue` on, each once and in no order. A walk that is not to be whole
// stops where the local turns out to be unfollowed, and then leaves only some of them. Linear in the address entries of the local and in the registers and edges
// that it meets.
pub fn follow(
    insts: &[u32],
    addresses: &[u32],
    work: &mut [u64],
    lay: Lay,
    z: Sizes,
    local: usize,
    whole: bool,
) -> Followed
    requires { Ready lay z insts.now addresses.now work.old × (local < z.locals) }
    ensures { FollowsAny insts.now addresses.now lay z local whole work.old work.new result }
{
    let none = work[lay.heads + local] == 0;
    let endless = work[lay.ended + local] == 0;
    let b = begin(insts, addresses, work, lay, z, local);
    let s = walk(work, lay, z, b, whole);
    unsee(work, lay, z, s.count);
    Followed {
        kind: kind(none, s.bad, s.escapes, endless),
        count: s.count,
    }
}
