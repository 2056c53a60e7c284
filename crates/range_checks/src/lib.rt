// The refusals of the range entries: numbers 1, 7 and 10, in this order.
#![tactic(auto)]

ghost use Rattle.std.specs.Prelude.{◌≡◌, true, ◌+◌, ◌<◌, ◌^◌, length};
ghost use Rattle.refusals.specs.Verdicts.{counted_on};
ghost use Rattle.ranges.specs.Points.{range};
ghost use Rattle.ranges.specs.Forms.{columns};
ghost use Rattle.ranges.specs.Lent.{wrong_at, list_verdict};
ghost use Rattle.range_checks.specs.Verdicts.{bad_list, pair_verdict, merged_verdict, joined_verdict, union_verdict, clashes_verdict};

use refusals::{Refusal, Refused, Verdict};

// The most ranges in a list that is lent.
const LIMIT: usize = 65536;

// Whether two columns are no list of ranges within the limit.
fn bad_list(start: &[u32], end: &[u32]) -> bool
    ensures { result ≡ bad_list start.now end.now }
{
    start.len() != end.len() || LIMIT < start.len()
}

// Whether range i is reversed or, in a list that is to be in order and apart, starts no later than the one before ends.
fn wrong(start: &[u32], end: &[u32], ordered: bool, i: usize) -> bool
    requires { (length start.now ≡ length end.now) × (i < length start.now) }
    ensures { result ≡ wrong_at ordered (columns start.now end.now) i }
{
    if end[i] < start[i] {
        return true;
    }
    if !ordered {
        return false;
    }
    if i == 0 {
        return false;
    }
    start[i] <= end[i - 1]
}

// The first range of a list that is wrong, counted on from `from`.
fn list(start: &[u32], end: &[u32], ordered: bool, from: usize) -> Verdict
    requires { (length start.now ≡ length end.now) × (from + length start.now < 2 ^ 64) }
    ensures { result ≡ counted_on from (list_verdict ordered (columns start.now end.now)) }
{
    for i in 0..start.len() {
        if wrong(start, end, ordered, i) {
            return Err(Refused(Refusal::Want, from + i));
        }
    }
    Ok(())
}

// The first range of two lists that is wrong.
fn pair(start: &[u32], end: &[u32], other_start: &[u32], other_end: &[u32]) -> Verdict
    requires { (length start.now ≡ length end.now) × (length other_start.now ≡ length other_end.now) × (length start.now + length other_start.now < 2 ^ 64) }
    ensures { result ≡ pair_verdict true (columns start.now end.now) (columns other_start.now other_end.now) }
{
    list(start, end, true, 0)?;
    list(other_start, other_end, true, start.len())
}

// Of `merged`, by the lent list and the lengths of the answer's columns.
pub fn merged(start: &[u32], end: &[u32], n: usize, m: usize) -> Verdict
    ensures { result ≡ merged_verdict start.now end.now n m }
{
    if bad_list(start, end) {
        return Err(Refused(Refusal::Count, 0));
    }
    if n != m {
        return Err(Refused(Refusal::Count, 0));
    }
    if n < start.len() {
        return Err(Refused(Refusal::Space, 0));
    }
    list(start, end, false, 0)
}

// Of `joined`.
pub fn joined(start: &[u32], end: &[u32], s: u32, e: u32, n: usize, m: usize) -> Verdict
    ensures { result ≡ joined_verdict start.now end.now (range s e) n m }
{
    if bad_list(start, end) {
        return Err(Refused(Refusal::Count, 0));
    }
    if n != m {
        return Err(Refused(Refusal::Count, 0));
    }
    if n <= start.len() {
        return Err(Refused(Refusal::Space, 0));
    }
    list(start, end, false, 0)?;
    if e < s {
        return Err(Refused(Refusal::Want, start.len()));
    }
    Ok(())
}

// Of `union`.
pub fn union(
    start: &[u32],
    end: &[u32],
    other_start: &[u32],
    other_end: &[u32],
    n: usize,
    m: usize,
) -> Verdict
    ensures { result ≡ union_verdict start.now end.now other_start.now other_end.now n m }
{
    if bad_list(start, end) {
        return Err(Refused(Refusal::Count, 0));
    }
    if bad_list(other_start, other_end) {
        return Err(Refused(Refusal::Count, 0));
    }
    if n != m {
        return Err(Refused(Refusal::Count, 0));
    }
    if n < start.len() + other_start.len() {
        return Err(Refused(Refusal::Space, 0));
    }
    pair(start, end, other_start, other_end)
}

// Of `clashes`.
pub fn clashes(start: &[u32], end: &[u32], other_start: &[u32], other_end: &[u32]) -> Verdict
    ensures { result ≡ clashes_verdict start.now end.now other_start.now other_end.now }
{
    if bad_list(start, end) {
        return Err(Refused(Refusal::Count, 0));
    }
    if bad_list(other_start, other_end) {
        return Err(Refused(Refusal::Count, 0));
    }
    pair(start, end, other_start, other_end)
}
