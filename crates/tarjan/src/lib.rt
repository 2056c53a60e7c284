// Tarjan's walk in the work space, with stacks of its own.
// w[at..at + n + 1] is where each row starts, w[to + k] the target of edge k, and from base on six regions of n numbers:
// num, stk, fr, lw, nxt and ord (specs/Walk.antt).
#![tactic(auto)]

ghost use Rattle.std.specs.Prelude.{◌≡◌, ℕ, ◌+◌, ◌-◌, ◌≤◌, ◌<◌, min, length, get_or, set};
ghost use Rattle.tarjan.specs.Inner.Space.{Ready, Turned, Walked, Begun, Numbered, Closes, Closed, push_list, Looking, Looked, Leaving, Left};
ghost use Rattle.tarjan.specs.Inner.Components.{Walkable, Found};

// The counts of a walk: held nodes, frames, pieces, closed nodes.
#[derive(Clone, Copy)]
pub struct Counts {
    s: usize,
    d: usize,
    c: usize,
    e: usize,
}

// Takes v up: s nodes are held, in d frames.
fn push(w: &mut [u64], n: usize, base: usize, v: usize, s: usize, d: usize)
    requires { (v < n) × (s < n) × (d < n) × (base + n + n + n + n ≤ length w.old) }
    ensures { w.new ≡ push_list n base v s d w.old }
{
    let stk = base + n;
    let fr = stk + n;
    let lw = fr + n;
    w[base + v] = (s + 1) as u64;
    w[stk + s] = v as u64;
    w[fr + d] = s as u64;
    w[lw + d] = s as u64;
}

// The number at i becomes q, if that is less.
fn lower(w: &mut [u64], i: usize, q: u64)
    requires { i < length w.old }
    ensures { w.new ≡ set w.old i (min (get_or w.old i 0) q) }
{
    if q < w[i] {
        w[i] = q;
    }
}

// Closes the nodes from place p of the stack on, as x.
fn close(w: &mut [u64], n: usize, base: usize, p: usize, s: usize, x: u64, e: usize)
    requires { Closes n base w.old p s e }
    ensures { Closed n base w.old p x e s w.new }
{
    let stk = base + n;
    let ord = stk + n + n + n + n + e;
    for i in p..s {
        let v = w[stk + i];
        let to = base + v as usize;
        w[to] = x;
        w[ord + (i - p)] = v;
    }
}

// An edge is looked at: edge k, the next of the top frame's node. The frame's low stands at low, the node's next edge at next.
fn look(
    w: &mut [u64],
    n: usize,
    to: usize,
    base: usize,
    k: usize,
    low: usize,
    next: usize,
    z: Counts,
) -> Counts
    requires { Looking n to base w.old z.s z.d z.c z.e k low next }
    ensures { Looked n to base w.old z.s z.d z.c z.e w.new result.s result.d result.c result.e }
{
    let v = w[to + k] as usize;
    let m = w[base + v] as usize;
    w[next] = (k + 1) as u64;
    if m == 0 {
        push(w, n, base, v, z.s, z.d);
        return Counts {
            s: z.s + 1,
            d: z.d + 1,
            c: z.c,
            e: z.e,
        };
    }
    if m <= n {
        lower(w, low, (m - 1) as u64);
        return z;
    }
    z
}

// The top frame is left, at place p of the stack: its node stays held, or its component is closed. The frame's low stands at low.
fn leave(w: &mut [u64], n: usize, base: usize, p: usize, low: usize, z: Counts) -> Counts
    requires { Leaving n base w.old z.s z.d z.c z.e p low }
    ensures { Left n base w.old z.s z.d z.c z.e w.new result.s result.d result.c result.e }
{
    let d = z.d - 1;
    let l = w[low];
    if l < p as u64 {
        lower(w, low - 1, l);
        return Counts {
            s: z.s,
            d: d,
            c: z.c,
            e: z.e,
        };
    }
    close(w, n, base, p, z.s, (n + 1 + z.c) as u64, z.e);
    Counts {
        s: p,
        d: d,
        c: z.c + 1,
        e: z.e + (z.s - p),
    }
}

// One turn of the walk.
fn turn(w: &mut [u64], n: usize, at: usize, to: usize, base: usize, z: Counts) -> Counts
    requires d_nonzero { 0 < z.d }
    requires ready { Ready n at to base w.old z.s z.d z.c z.e }
    ensures { Turned n at to base w.old z.s z.d z.c z.e w.new result.s result.d result.c result.e }
{
    let stk = base + n;
    let fr = stk + n;
    let frame = fr + (z.d - 1);
    let p = w[frame] as usize;
    let u = w[stk + p] as usize;
    let next = fr + n + n + u;
    let k = w[next] as usize;
    if k < w[at + u + 1] as usize {
        return look(w, n, to, base, k, frame + n, next, z);
    }
    leave(w, n, base, p, frame + n, z)
}

// The walk from a node that was not seen.
fn walk(
    w: &mut [u64],
    n: usize,
    at: usize,
    to: usize,
    base: usize,
    root: usize,
    c: usize,
    e: usize,
) -> Counts
    requires root_lt_n { (root < n) × (get_or w.old (base + root) 0 ≡ 0) }
    requires ready { Ready n at to base w.old 0 0 c e }
    ensures { Walked n at to base root w.old c e w.new result.c result.e }
{
    push(w, n, base, root, 0, 0);
    let mut z = Counts {
        s: 1,
        d: 1,
        c: c,
        e: e,
    };
    while 0 < z.d {
        z = turn(w, n, at, to, base, z);
    }
    z
}

// Nothing is seen, and each node's edges are to be looked at.
fn begin(w: &mut [u64], n: usize, at: usize, base: usize)
    requires { (base + n + n + n + n + n + n ≤ length w.old) × (at + n < base) }
    ensures { Begun n at base w.old n w.new }
{
    let nxt = base + n + n + n + n;
    for v in 0..n {
        w[base + v] = 0;
        w[nxt + v] = w[at + v];
    }
}

// The pieces' numbers.
fn number(w: &mut [u64], n: usize, base: usize)
    requires { (base + n + n ≤ length w.old) × ((v : ℕ) → v < n → n < get_or w.old (base + v) 0) }
    ensures { Numbered n base w.old n w.new }
{
    for v in 0..n {
        w[base + v] = w[base + v] - (n + 1) as u64;
    }
}

// The components of the graph of n places whose rows stand from `at` on: how many there are. Their numbers stand from `base` on,
// one to a place, and from `base + 5 * n` on the places in the components' order. Linear in places and edges.
pub fn components(work: &mut [u64], n: usize, at: usize, base: usize) -> usize
    requires { Walkable n at base work.old }
    ensures { Found n at base work.old work.new result }
{
    begin(work, n, at, base);
    let to = at + n + 1;
    let mut c = 0;
    let mut e = 0;
    for root in 0..n {
        if work[base + root] == 0 {
            let z = walk(work, n, at, to, base, root, c, e);
            c = z.c;
            e = z.e;
        }
    }
    number(work, n, base);
    c
}
