// `spread` in the work space: a place is looked at again only when its row grew, the lowest rank first.
#![tactic(auto)]

ghost use Rattle.std.specs.Prelude.{◌+◌, ◌*◌, ◌/◌, ◌<◌};
ghost use Rattle.spread_rows.specs.Inner.{Laid, Pushed, Begun, Arrived};

// Where `spread` finds and puts things in the work space, of n places: the edge rows from `at` on, the order in which places are looked at
// from `order` on and each place's rank in it from `rank` on; rows of `words` words, the leaving bits from `leaves` on and the passing ones
// from `passes` on; from `wait` on a row of bits over the ranks, of n / 64 + 1 words, and behind it the rows of what arrives.
#[derive(Clone, Copy)]
pub struct Layout {
    pub n: usize,
    pub at: usize,
    pub order: usize,
    pub rank: usize,
    pub words: usize,
    pub leaves: usize,
    pub passes: usize,
    pub wait: usize,
}

// Gives each place that u has an edge to what arrives at u and passes, and what leaves u; those whose row grew wait.
fn push(work: &mut [u64], s: Layout, u: usize)
    requires { Laid s work.old × (u < s.n) }
    ensures { Pushed s u work.old work.new }
{
    let to = s.at + s.n + 1;
    let out = s.wait + (s.n / 64 + 1);
    let row = u * s.words;
    let from = out + row;
    let pass = s.passes + row;
    let leave = s.leaves + row;
    let end = work[s.at + u + 1] as usize;
    let start = work[s.at + u] as usize;
    for k in start..end {
        let v = work[to + k] as usize;
        if bits::row_pass(work, out + v * s.words, from, pass, leave, s.words) {
            let r = work[s.rank + v] as usize;
            bits::set(work, s.wait, r);
        }
    }
}

// Nothing arrives yet, and each place waits.
fn begin(work: &mut [u64], s: Layout)
    requires { Laid s work.old }
    ensures { Begun s work.old work.new }
{
    words::fill(work, s.wait, s.n / 64 + 1 + s.n * s.words, 0);
    for r in 0..s.n {
        bits::set(work, s.wait, r);
    }
}

// What arrives at each place: any predecessor's arriving bits that pass, or its leaving bits. It ends, since at each turn a row gains a bit
// that it had not, or one place fewer waits.
pub fn spread(work: &mut [u64], s: Layout)
    requires { Laid s work.old }
    ensures { Arrived s work.old work.new }
{
    begin(work, s);
    let words = s.n / 64 + 1;
    let mut r = bits::first_from(work, s.wait, words, 0);
    while r < s.n {
        bits::unset(work, s.wait, r);
        let u = work[s.order + r] as usize;
        push(work, s, u);
        r = bits::first_from(work, s.wait, words, 0);
    }
}
