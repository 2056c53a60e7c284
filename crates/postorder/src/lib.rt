// The places in the reverse postorder of a walk: loops aside, each after those that have an edge to it.
// In the work space, of n places: the edge rows from `at` on, and from `base` on four regions of n numbers (specs/Walk.antt): order, rank, stack, next.
#![tactic(auto)]

ghost use Rattle.std.specs.Prelude.{◌≡◌, ◌+◌, ◌≤◌, ◌<◌, length, get_or};
ghost use Rattle.postorder.specs.Inner.{Walkable, Ordered, Ready, push_list, Turned, Walked};

// How many places the walk is in, and how many numbers of the order are still to be filled.
#[derive(Clone, Copy)]
pub struct Counts {
    depth: usize,
    left: usize,
}

// Puts v on the stack of `depth` places: none of its edges is looked at yet.
fn push(w: &mut [u64], n: usize, at: usize, base: usize, v: usize, depth: usize)
    requires { (v < n) × (depth < n) × (at + n < base) × (base + n + n + n + n ≤ length w.old) × (get_or w.old (at + v) 0 ≤ base) }
    ensures { w.new ≡ push_list n at base v depth w.old }
{
    let stack = base + n + n;
    let next = stack + n;
    let first = w[at + v];
    w[stack + depth] = v as u64;
    w[next + v] = first + 1;
}

// Looks at the next edge of the place on top of the stack, or takes the place off where none is left.
fn turn(w: &mut [u64], n: usize, at: usize, base: usize, z: Counts) -> Counts
    requires depth_nonzero { 0 < z.depth }
    requires ready { Ready n at base w.old z.depth z.left }
    ensures { Turned n at base w.old z.depth z.left w.new result.depth result.left }
{
    let depth = z.depth;
    let left = z.left;
    let top = depth - 1;
    let stack = base + n + n;
    let next = stack + n;
    let u = w[stack + top] as usize;
    let k = w[next + u] as usize;
    let end = w[at + u + 1] as usize;
    if k <= end {
        let v = w[at + n + k] as usize;
        let looked = (k + 1) as u64;
        if w[next + v] == 0 {
            push(w, n, at, base, v, depth);
            w[next + u] = looked;
            return Counts {
                depth: depth + 1,
                left: left,
            };
        }
        w[next + u] = looked;
        return Counts {
            depth: depth,
            left: left,
        };
    }
    let last = left - 1;
    let rank = base + n;
    w[base + last] = u as u64;
    w[rank + u] = last as u64;
    Counts {
        depth: top,
        left: last,
    }
}

// The walk from a place that was not seen: how many numbers of the order are still to be filled.
fn walk(w: &mut [u64], n: usize, at: usize, base: usize, root: usize, left: usize) -> usize
    requires root_lt_n { (root < n) × (get_or w.old (base + n + n + n + root) 0 ≡ 0) }
    requires ready { Ready n at base w.old 0 left }
    ensures { Walked n at base root w.old left w.new result }
{
    push(w, n, at, base, root, 0);
    let mut z = Counts {
        depth: 1,
        left: left,
    };
    while 0 < z.depth {
        z = turn(w, n, at, base, z);
    }
    z.left
}

// Puts the n places from `base` on in an order in which, loops aside, each stands after those that have an edge to it, and the rank of each place
// from `base + n` on. Linear in places and edges.
pub fn order(work: &mut [u64], n: usize, at: usize, base: usize)
    requires { Walkable n at base work.old }
    ensures { Ordered n at base work.old work.new }
{
    let next = base + n + n + n;
    words::fill(work, next, n, 0);
    let mut left = n;
    for root in 0..n {
        if work[next + root] == 0 {
            left = walk(work, n, at, base, root, left);
        }
    }
}
