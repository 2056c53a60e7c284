// The range functions in the forms that document 01 names, where ranges are lent as structs. A function over a reference to a `Range` is thin:
// it takes the ranges apart and calls the one over columns.
#![tactic(auto)]

ghost use Rattle.std.specs.Prelude.{◌≡◌, ◌≤◌, Bool, length};
ghost use Rattle.std.specs.Fn.{ComputesKey};
ghost use Rattle.range_forms.specs.Lent.{joined_of, taken_up, last_after, Joins, clashes_of};
ghost use Rattle.range_forms.specs.Inner.{point_of, Column, clashes_within};
ghost use Rattle.refusals.specs.Outcomes.{answered};

use ranges::Range;
use refusals::{Refusal, Refused};

// Whether the new range is taken up: it starts on the point after the last one's end. Refuses a reversed range, the last one first (10).
fn taken_up(last: Range, new: Range) -> Result<bool, Refused>
    ensures { answered result ≡ taken_up (joined_of last new) }
{
    if last.end < last.start {
        return Err(Refused(Refusal::Want, 0));
    }
    if new.end < new.start {
        return Err(Refused(Refusal::Want, 1));
    }
    Ok(columns::follows(last.end, new.start))
}

// The last range's end afterwards: raised to the new one's where that is taken up, else left.
fn end_after(last: Range, new: Range) -> u32
    ensures { result ≡ (last_after (joined_of last new) last).end }
{
    let t = taken_up(last, new);
    match t {
        Ok(b) => {
            if b {
                return new.end;
            }
            last.end
        }
        Err(_) => last.end,
    }
}

// `joined` where the last range of a list is lent: its end is raised where the new one starts on the point after it, else it is left and the new one is to be appended.
// Refuses a reversed range (10), the lent one counted before the new one; the lent one is then unchanged.
pub fn joined(last: &mut Range, new: Range) -> Result<bool, Refused>
    ensures { Joins last.old new result last.new }
{
    let was = *last;
    last.end = end_after(was, new);
    taken_up(was, new)
}

// The most ranges in a list that is lent, and in one whose columns are short arrays.
const LIMIT: usize = 65536;

const FEW: usize = 256;

// Whether some point is in both of two lists of ranges, which are in order and apart: the lists are taken apart into columns, arrays by value of 256 numbers or, where
// a list is longer, up to the limit, and the test over columns is called once. Refuses as that does: more than 65,536 ranges (1), a range that is reversed or starts
// no later than the one before ends (10), the second list's counted on from the first's.
pub fn clashes(a: &[Range], b: &[Range]) -> Result<bool, Refused>
    ensures { answered result ≡ clashes_of a.now b.now }
{
    if FEW < a.len() || FEW < b.len() {
        return many(a, b);
    }
    by_columns::<FEW>(a, b)
}

// Long columns, in a frame of their own: short lists and a refusal of their ranges take little stack.
#[inline(never)]
fn many(a: &[Range], b: &[Range]) -> Result<bool, Refused>
    ensures { answered result ≡ clashes_within 65536 a.now b.now }
{
    by_columns::<LIMIT>(a, b)
}

// The lists by way of columns of K numbers.
fn by_columns<const K: usize>(a: &[Range], b: &[Range]) -> Result<bool, Refused>
    requires { K ≤ 65536 }
    ensures { answered result ≡ clashes_within K a.now b.now }
{
    if K < a.len() || K < b.len() {
        return Err(Refused(Refusal::Count, 0));
    }
    let mut s = [0u32; K];
    let mut e = [0u32; K];
    let mut t = [0u32; K];
    let mut f = [0u32; K];
    column(a, &mut s, |r| r.start);
    column(a, &mut e, |r| r.end);
    column(b, &mut t, |r| r.start);
    column(b, &mut f, |r| r.end);
    let n = a.len();
    let m = b.len();
    range_entries::clashes(&s[..n], &e[..n], &t[..m], &f[..m])
}

// A point of each range of a list, as far as there is room; what is left is unchanged. Lent, since an array that is handed back is copied.
fn column<P: FnMut(&Range) -> u32>(list: &[Range], out: &mut [u32], mut point: P)
    requires { P.IsAlwaysCallable point }
    ensures { (ends : Bool) → ComputesKey P.FnMut (point_of ends) point → Column (length out.old) ends list.now out.new }
{
    for i in 0..list.len().min(out.len()) {
        out[i] = point(&list[i]);
    }
}
