// One walk over a given area, a part of the area list: whether it is in order, and how many of its ranges were looked at.
#![tactic(auto)]

ghost use Rattle.std.specs.Prelude.{◌≡◌, true, not, ◌+◌, ◌≤◌, ◌<◌, take, drop};
ghost use Rattle.words.specs.Widths.{range_count};
ghost use Rattle.ranges.specs.Lent.{wrong_at, faulty};
ghost use Rattle.ranges.specs.Forms.{areas_of};
ghost use Rattle.range_walk.specs.Walk.{bad_part, looked_in, looked_at};

use words::widths::range;

// What a walk tells: whether number 10 does not apply, and how many ranges it looked at.
#[derive(Clone, Copy)]
pub struct Look {
    pub fine: bool,
    pub looked: usize,
}

fn tell(fine: bool, looked: usize) -> Look
    ensures { (result.fine ≡ fine) × (result.looked ≡ looked) }
{
    Look { fine, looked }
}

// Whether range i from `first` on is reversed, or starts no later than the one before it there ends.
fn wrong(areas: &[u32], first: usize, i: usize) -> bool
    requires { first + i < range_count areas.now }
    ensures { result ≡ wrong_at true (drop first (areas_of areas.now)) i }
{
    let at = range::WIDTH * (first + i);
    if areas[at + range::END] < areas[at] {
        return true;
    }
    if i == 0 {
        return false;
    }
    areas[at] <= areas[at - 1]
}

// Along a part that is inside the list, up to and with the first range that is wrong.
fn along(areas: &[u32], first: usize, count: usize) -> Look
    requires { first + count ≤ range_count areas.now }
    ensures { (result.fine ≡ not (faulty (take count (drop first (areas_of areas.now))))) × (result.looked ≡ looked_in (take count (drop first (areas_of areas.now)))) }
{
    for i in 0..count {
        if wrong(areas, first, i) {
            return tell(false, i + 1);
        }
    }
    tell(true, count)
}

// Of the `count` ranges from `first` on; those of an absent want are not read, nor those of a part that is not wholly inside the list.
pub fn walk(areas: &[u32], present: u32, first: u32, count: u32) -> Look
    ensures { (result.fine ≡ not (bad_part (areas_of areas.now) present first count)) × (result.looked ≡ looked_at (areas_of areas.now) present first count) }
{
    if present == 0 {
        return tell(true, 0);
    }
    let f = first as usize;
    let c = count as usize;
    if areas.len() / range::WIDTH < f + c {
        return tell(false, 0);
    }
    along(areas, f, c)
}
