// Touches and ends lent by themselves, by local: the rows of each local as a chain, and one local's touches and ends fetched into the work space.
#![tactic(auto)]

ghost use Rattle.std.specs.Prelude.{◌≡◌, ◌≢◌, ◌⊎◌, ◌+◌, ◌*◌, ◌/◌, ◌<◌, length};
ghost use Rattle.words.specs.Rows.{row_count, field};
ghost use Rattle.words.specs.Widths.{touch_width, stop_width};
ghost use Rattle.words.specs.Inner.{touch_count, stop_count};
ghost use Rattle.chains.specs.Inner.{Walkable, Walked};
ghost use Rattle.local_spots.specs.Inner.{Laid, Chains, Chained, Fetched, word_of};

use spots::Spots;
use words::widths::{stop, touch};

// Where the rows of `locals` locals are kept, each region past the one before: from `heads` on each local's last touch, then each local's last end; from `nexts` on
// for each touch, then for each end, the one before it; from `at` on room for the touches of one local, and from `ends` on for its ends.
#[derive(Clone, Copy)]
pub struct Places {
    pub locals: usize,
    pub heads: usize,
    pub nexts: usize,
    pub at: usize,
    pub ends: usize,
}

// The touches and the ends of each local as chains.
pub fn chains(touches: &[u32], ends: &[u32], work: &mut [u64], p: Places)
    requires { Laid p (touch_count touches.now) (stop_count ends.now) work.old }
    ensures { Chained p touches.now ends.now work.old work.new }
{
    let t = touches.len() / touch::WIDTH;
    let e = ends.len() / stop::WIDTH;
    let past = p.heads + p.locals;
    words::fill(work, p.heads, p.locals + p.locals, 0);
    chains::chain(
        touches,
        touch::WIDTH,
        0,
        t,
        p.locals,
        work,
        p.heads,
        p.nexts,
    );
    chains::chain(ends, stop::WIDTH, 0, e, p.locals, work, past, p.nexts + t);
}

// Row i as one word: a touch packed, or a point.
fn word(rows: &[u32], width: usize, i: usize) -> u64
    requires { (width ≡ 3 → touch_width * i + 2 < length rows.now) × (width ≢ 3 → (width ≡ 2) × (stop_width * i + 1 < length rows.now)) }
    ensures { result ≡ word_of width (field width rows.now i) }
{
    if width == 3 {
        return packed::pack(
            rows[touch::WIDTH * i + touch::START],
            rows[touch::WIDTH * i + touch::END],
        );
    }
    rows[stop::WIDTH * i + stop::POINT] as u64
}

// Follows a local's chain from its last row, and writes the rows' words downwards from `top`; how many.
fn walk(
    rows: &[u32],
    width: usize,
    work: &mut [u64],
    l: usize,
    heads: usize,
    nexts: usize,
    top: usize,
) -> usize
    requires { ((width ≡ 2) ⊎ (width ≡ 3)) × Walkable (λ i. field width rows.now i 0) (row_count width rows.now) l heads nexts top work.old }
    ensures { Walked (λ i. field width rows.now i 0) (λ i. word_of width (field width rows.now i)) (row_count width rows.now) l top
        work.old work.new result }
{
    let mut next = work[heads + l];
    let mut to = top;
    while next != 0 {
        let i = next as usize - 1;
        to -= 1;
        work[to] = word(rows, width, i);
        next = work[nexts + i];
    }
    top - to
}

// One local's touches in lent order, and its ends in rising order.
pub fn fetch(touches: &[u32], ends: &[u32], work: &mut [u64], p: Places, l: usize) -> Spots
    requires { Laid p (touch_count touches.now) (stop_count ends.now) work.old × Chains p touches.now ends.now work.old × (l < p.locals) }
    ensures { Fetched p touches.now ends.now l work.old work.new result }
{
    let t = touches.len() / touch::WIDTH;
    let top = p.at + t;
    let last = p.ends + ends.len() / stop::WIDTH;
    let count = walk(touches, touch::WIDTH, work, l, p.heads, p.nexts, top);
    let stops = walk(
        ends,
        stop::WIDTH,
        work,
        l,
        p.heads + p.locals,
        p.nexts + t,
        last,
    );
    let first = last - stops;
    sorting::sort_part(work, first, stops);
    Spots {
        at: top - count,
        count: count,
        ends: first,
        stops: stops,
    }
}
