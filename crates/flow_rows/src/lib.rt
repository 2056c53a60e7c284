// `flowed` in the work space: one visit of each component in order, each row worked out once from rows that are final.
#![tactic(auto)]

ghost use Rattle.std.specs.Prelude.{◌≡◌, true, ◌+◌, ◌*◌, ◌≤◌, ◌<◌};
ghost use Rattle.tarjan.specs.Inner.Components.{InOrder};
ghost use Rattle.flow_rows.specs.Inner.{Laid, which, order_from, order, touched_bit, Across, Stays, Member, Joins, Tells, Run, Shared, Visited, Flowed};

// Where `flowed` finds and puts things in the work space, of n places: the edge rows from `at` on, the components' numbers from
// `base` on and their order from `base + 5 * n` on; rows of `words` words, the touched ones from `touched` on, the answer's from `out` on.
#[derive(Clone, Copy)]
pub struct Flow {
    pub n: usize,
    pub at: usize,
    pub base: usize,
    pub words: usize,
    pub touched: usize,
    pub out: usize,
}

// Puts into the row of x what flows over the edges of u to other components than c; whether an edge stays in c.
fn gather(work: &mut [u64], f: Flow, u: usize, c: u64, x: usize) -> bool
    requires { Laid f work.old × (u < f.n) × (x < f.n) × (which f work.old x ≡ c) }
    ensures { Joins f x (Across f work.old u c) work.old work.new × Tells (Stays f work.old u c) result }
{
    let to = f.at + f.n + 1;
    let row = f.out + x * f.words;
    let end = work[f.at + u + 1] as usize;
    let start = work[f.at + u] as usize;
    let mut looped = false;
    for k in start..end {
        let g = work[to + k] as usize;
        if work[f.base + g] == c {
            looped = true;
        } else {
            bits::row_or_two(
                work,
                row,
                f.out + g * f.words,
                f.touched + g * f.words,
                f.words,
            );
        }
    }
    looped
}

// Where the run of component c ends that has begun at i in the order. Here and below, the order stands from `ord` on.
fn run_end(work: &[u64], f: Flow, ord: usize, i: usize, c: u64) -> usize
    requires { Laid f work.now × (ord ≡ order_from f) × (i < f.n) × (which f work.now (order f work.now i) ≡ c) }
    ensures { Run f work.now i result c }
{
    for j in (i + 1)..f.n {
        let v = work[ord + j] as usize;
        if work[f.base + v] != c {
            return j;
        }
    }
    f.n
}

// Puts into the row of x what flows over the edges of the places from i up to j of the order to other components than c; whether an edge of them stays in c.
fn pull(work: &mut [u64], f: Flow, ord: usize, i: usize, j: usize, c: u64, x: usize) -> bool
    requires { Laid f work.old × (ord ≡ order_from f) × (i ≤ j) × (j ≤ f.n) × (x < f.n) × (which f work.old x ≡ c) }
    ensures { Joins f x (λ b. Member f work.old i j (λ u. Across f work.old u c b)) work.old work.new
        × Tells (Member f work.old i j (λ u. Stays f work.old u c)) result }
{
    let mut looped = false;
    for p in i..j {
        let u = work[ord + p] as usize;
        if gather(work, f, u, c, x) {
            looped = true;
        }
    }
    looped
}

// Puts into the row of x what the places from i up to j of the order touch.
fn touch(work: &mut [u64], f: Flow, ord: usize, i: usize, j: usize, x: usize)
    requires { Laid f work.old × (ord ≡ order_from f) × (i ≤ j) × (j ≤ f.n) × (x < f.n) }
    ensures { Joins f x (λ b. Member f work.old i j (λ u. touched_bit f work.old u b ≡ true)) work.old work.new }
{
    let row = f.out + x * f.words;
    for p in i..j {
        let u = work[ord + p] as usize;
        bits::row_or(work, row, f.touched + u * f.words, f.words);
    }
}

// Gives the row of x to each place from i up to j of the order, which are component c's.
fn share(work: &mut [u64], f: Flow, ord: usize, i: usize, j: usize, c: u64, x: usize)
    requires { Laid f work.old × (ord ≡ order_from f) × Run f work.old i j c × (x < f.n) }
    ensures { Shared f x i j c work.old work.new }
{
    let row = f.out + x * f.words;
    for p in i..j {
        let u = work[ord + p] as usize;
        if u != x {
            words::copy(work, row, f.out + u * f.words, f.words);
        }
    }
}

// Works out the rows of the component that begins at i in the order; where the next begins.
fn visit(work: &mut [u64], f: Flow, ord: usize, i: usize) -> usize
    requires { Laid f work.old × (ord ≡ order_from f) × (i < f.n) }
    ensures { Visited f i result (which f work.old (order f work.old i)) work.old work.new }
{
    let x = work[ord + i] as usize;
    let c = work[f.base + x];
    let j = run_end(work, f, ord, i, c);
    words::fill(work, f.out + x * f.words, f.words, 0);
    if pull(work, f, ord, i, j, c, x) {
        touch(work, f, ord, i, j, x);
        share(work, f, ord, i, j, c, x);
        return j;
    }
    share(work, f, ord, i, j, c, x);
    j
}

// The rows that flow: a bit of a place's row is set exactly when a place that is touched there is reached from it over one or more edges.
// One visit of each component in order; linear in edges and words.
pub fn flowed(work: &mut [u64], f: Flow)
    requires { Laid f work.old × InOrder f.n (which f work.old) (order f work.old) }
    ensures { Flowed f work.old work.new }
{
    let ord = f.base + 5 * f.n;
    let mut i = 0;
    while i < f.n {
        i = visit(work, f, ord, i);
    }
}
