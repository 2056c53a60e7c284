// The answer of a whole job from the areas in the work space: the plan of its items, then the answer lists.
#![tactic(auto)]

ghost use Rattle.std.proofs.Math.Option.{Option};
ghost use Rattle.std.specs.Prelude.{List, ℕ, ◌/◌, length};
ghost use Rattle.graph.specs.Inner.Work.{Within};
ghost use Rattle.ranges.specs.declared.Range.{Range};
ghost use Rattle.area_measure.specs.Inner.Locals.{word_of, ListedBy};
ghost use Rattle.area_tables.specs.Inner.{listing};
ghost use Rattle.job_fit.specs.Inner.{count_of, plan_for};
ghost use Rattle.job_answers.specs.Answers.{answer_verdict, AnsweredBy};
ghost use Rattle.job_answers.specs.Inner.{Measured};
ghost use Rattle.words.specs.Widths.{range_count};

use fit_tables::CELLS;
use fitting::Terms;
use refusals::{Refusal, Refused};
use wants::Tally;
use words::widths::{local, range};

// The plan of the items whose `total` ranges were measured, where these fit the area list (else 9): made in the work space, and only then written, unless its
// layout is refused (12 and 13).
pub fn answer(
    locals: &[u32],
    slots: &[u32],
    terms: Terms,
    total: usize,
    end: usize,
    cells: &mut [u32],
    items: &mut [u32],
    areas: &mut [u32],
    offsets: &mut [i32],
    work: &mut [u64],
) -> Result<Tally, Refused>
    requires { Measured (count_of locals.now slots.now) (range_count areas.old) total end (length cells.old) (length items.old) (length offsets.old) work.old }
    ensures { Within 0 end work.old work.new
        × ((A : ℕ → Option (List Range)) → ListedBy word_of (listing (range_count areas.old) (range_count areas.old)) A
        (count_of locals.now slots.now) total work.old
        → AnsweredBy (answer_verdict (count_of locals.now slots.now) A (range_count areas.old) (plan_for locals.now slots.now A terms.budget))
        (count_of locals.now slots.now) A (plan_for locals.now slots.now A terms.budget)
        cells.old items.old areas.old offsets.old result
        cells.new items.new areas.new offsets.new) }
{
    let room = areas.len() / range::WIDTH;
    if room < total {
        return Err(Refused(Refusal::List, 0));
    }
    let f = job_fit::fitted(locals, slots, terms.budget, work, room, end);
    let n = locals.len() / local::WIDTH + slots.len();
    let from = room + CELLS * n;
    fit_layout::refusal(work, from, f.cells)?;
    job_tables::write(cells, items, areas, work, n, f.cells, total);
    let depth = fit_layout::write(offsets, work, from, f.cells);
    Ok(Tally {
        cells: f.cells,
        probes: f.probes,
        depth,
    })
}
