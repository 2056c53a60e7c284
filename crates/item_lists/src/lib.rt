// The answer lists of areas, of a job's items and of locals lent by themselves, from the work space.
#![tactic(auto)]

ghost use Rattle.std.proofs.Math.Option.{Option};
ghost use Rattle.std.specs.Prelude.{List, ℕ, ◌+◌, ◌*◌, ◌/◌, ◌≤◌, length};
ghost use Rattle.ranges.specs.declared.Range.{Range};
ghost use Rattle.area_tables.specs.Inner.{listing};
ghost use Rattle.area_measure.specs.Inner.Locals.{word_of, ListedBy};
ghost use Rattle.item_lists.specs.Lists.{AnsweredBy};
ghost use Rattle.item_lists.specs.Inner.{Held};
ghost use Rattle.areas.specs.Job.{areas_verdict};
ghost use Rattle.words.specs.Widths.{part_width, range_count};

use refusals::{Answer, Refusal, Refused};
use words::widths::range;

// Writes the areas and the items, where all n ranges fit the area list (else 9).
pub fn list(n: usize, areas: &mut [u32], items: &mut [u32], work: &[u64], count: usize) -> Answer
    requires { Held count (range_count areas.old) n work.now × (part_width * count ≤ length items.old) × (range_count areas.old ≤ 65536)
        × (range_count areas.old + count ≤ length work.now) }
    ensures { (A : ℕ → Option (List Range)) → ListedBy word_of (listing (range_count areas.old) (range_count areas.old)) A count n work.now
        → AnsweredBy (areas_verdict count A (range_count areas.old)) count A areas.old items.old result areas.new items.new }
{
    let room = areas.len() / range::WIDTH;
    if room < n {
        return Err(Refused(Refusal::List, 0));
    }
    answer_rows::write_rows(areas, work, 0, n, 0);
    answer_rows::write_items(items, work, room, count);
    Ok(n)
}
