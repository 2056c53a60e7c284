// Whether two lists over columns of numbers, that were checked, have a point in common: `range_entries` checks them.
#![tactic(auto)]

ghost use Rattle.std.specs.Prelude.{◌≡◌, ◌+◌, ◌-◌, ◌≤◌, ◌<◌, List, length, ltb};
ghost use Rattle.words.specs.Inner.{Splits};
ghost use Rattle.ranges.specs.declared.Range.{Range};
ghost use Rattle.ranges.specs.Points.{Apart, range_at};
ghost use Rattle.ranges.specs.Merged.{clashes};
ghost use Rattle.ranges.specs.Forms.{columns};

use ranges::Range;

// A list of ranges by what is read of it.
pub trait Listed {
    ghost list: { Self → List Range };

    fn count(&self) -> usize
        ensures { result ≡ length (list self.now) };

    fn at(&self, i: usize) -> Range
        requires { i < length (list self.now) }
        ensures { result ≡ range_at (list self.now) i };

    // How many ranges from `from` on end before a point.
    fn ending_before(&self, from: usize, point: u32) -> usize
        requires { (from ≤ length (list self.now)) × Apart (list self.now) }
        ensures { Splits (λ k. ltb (range_at (list self.now) (from + k)).end point) (length (list self.now) - from) result };
}

// Whether some point is in both of two lists that are in order and apart.
pub fn clash_of<A: Listed, B: Listed>(one: &A, two: &B) -> bool
    requires { Apart (A.list one.now) × Apart (B.list two.now) }
    ensures { result ≡ clashes (A.list one.now) (B.list two.now) }
{
    let n = one.count();
    let m = two.count();
    let mut i = 0;
    let mut j = 0;
    while i < n && j < m {
        let x = one.at(i);
        let y = two.at(j);
        if ranges::overlaps(x.start, x.end, y.start, y.end) {
            return true;
        }
        if x.end < y.end {
            i += one.ending_before(i, y.start);
        } else {
            j += two.ending_before(j, x.start);
        }
    }
    false
}

// Two columns of one length.
#[derive(Drop)]
struct Columns<'a> {
    start: &'a [u32],
    end: &'a [u32],
    ghost even: { length start.now ≡ length end.now },
}

impl<'a> Listed for Columns<'a> {
    ghost list = { λ c. columns c.start.now c.end.now };

    fn count(&self) -> usize {
        self.start.len()
    }

    fn at(&self, i: usize) -> Range {
        Range {
            start: self.start[i],
            end: self.end[i],
        }
    }

    fn ending_before(&self, from: usize, point: u32) -> usize {
        words::gallop(&self.end[from..], |e| *e < point)
    }
}

// `clash_of` two columns each.
pub fn clash(start: &[u32], end: &[u32], other_start: &[u32], other_end: &[u32]) -> bool
    requires { (length start.now ≡ length end.now) × (length other_start.now ≡ length other_end.now) × Apart (columns start.now end.now)
        × Apart (columns other_start.now other_end.now) }
    ensures { result ≡ clashes (columns start.now end.now) (columns other_start.now other_end.now) }
{
    let one = Columns {
        start: start,
        end: end,
    };
    let two = Columns {
        start: other_start,
        end: other_end,
    };
    clash_of(&one, &two)
}
