// The range entries: document 01, "Ranges". Each takes its lists as two columns of numbers, starts and ends.
#![tactic(auto)]

ghost use Rattle.std.specs.Prelude.{◌≡◌, length};
ghost use Rattle.ranges.specs.Points.{range};
ghost use Rattle.range_entries.specs.Entries.{merged_of, joined_of, union_of, clashes_of, Listed};
ghost use Rattle.refusals.specs.Outcomes.{answered};

use refusals::{Answer, Refused};

// The ranges sorted by start, then end, with those joined that share a point or touch, into the answer's columns: O(n log n).
// Refuses columns of different lengths or more than 65,536 ranges (1), an answer shorter than the list (7), a reversed range (10).
pub fn merged(start: &[u32], end: &[u32], out_start: &mut [u32], out_end: &mut [u32]) -> Answer
    ensures { Listed (merged_of start.now end.now (length out_start.old) (length out_end.old))
        out_start.old out_end.old result out_start.new out_end.new }
{
    range_checks::merged(start, end, out_start.len(), out_end.len())?;
    Ok(merging::merge(start, end, out_start, out_end))
}

// The list with one range more: its last range lengthened where the new one starts on the point after its end, else the new one appended.
// Refuses as `merged` does; the answer has room for the list and one more (7), and the new range is counted after the list (10).
pub fn joined(
    start: &[u32],
    end: &[u32],
    new_start: u32,
    new_end: u32,
    out_start: &mut [u32],
    out_end: &mut [u32],
) -> Answer
    ensures { Listed (joined_of start.now end.now (range new_start new_end) (length out_start.old) (length out_end.old))
        out_start.old out_end.old result out_start.new out_end.new }
{
    range_checks::joined(
        start,
        end,
        new_start,
        new_end,
        out_start.len(),
        out_end.len(),
    )?;
    Ok(columns::join_on(start, end, new_start, new_end, out_start, out_end))
}

// What `merged` makes of two lists together, in one pass: both are in order and apart.
// Refuses as `merged` does; a range that is reversed or starts no later than the one before ends is 10, the second list's counted on from the first's.
pub fn union(
    start: &[u32],
    end: &[u32],
    other_start: &[u32],
    other_end: &[u32],
    out_start: &mut [u32],
    out_end: &mut [u32],
) -> Answer
    ensures { Listed (union_of start.now end.now other_start.now other_end.now (length out_start.old)
        (length out_end.old))
        out_start.old out_end.old result out_start.new out_end.new }
{
    range_checks::union(
        start,
        end,
        other_start,
        other_end,
        out_start.len(),
        out_end.len(),
    )?;
    Ok(columns::unite(start, end, other_start, other_end, out_start, out_end))
}

// Whether some point is in both lists, which are in order and apart. Refuses as `union` does, but has no answer list.
pub fn clashes(
    start: &[u32],
    end: &[u32],
    other_start: &[u32],
    other_end: &[u32],
) -> Result<bool, Refused>
    ensures { answered result ≡ clashes_of start.now end.now other_start.now other_end.now }
{
    range_checks::clashes(start, end, other_start, other_end)?;
    Ok(clashing::clash(start, end, other_start, other_end))
}
