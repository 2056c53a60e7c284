// The answer of fitting alone in one number, and its counts.
#![tactic(auto)]

ghost use Rattle.std.specs.Prelude.{◌≤◌, length};
ghost use Rattle.wants.specs.Entry.{plan_for};
ghost use Rattle.want_codes.specs.Inner.{PlanTold};
ghost use Rattle.want_codes.specs.Plans.{coded_verdict, PlanCoded};
ghost use Rattle.refusals.specs.Outcomes.{answered};

use codes::{refused, tell};
use fitting::Terms;
use refusals::{Refusal, Refused};
use wants::Tally;

// A plan's counts are told, or the refusal is answered.
pub fn plan(counts: &mut [u64], f: Result<Tally, Refused>) -> u64
    requires { 3 ≤ length counts.old }
    ensures { PlanTold counts.old (answered f) result counts.new }
{
    match f {
        Ok(t) => {
            tell(counts, t.cells, t.probes, t.depth);
            0
        }
        Err(Refused(r, i)) => refused(r, i),
    }
}

// `wants::fit_wants`: the plan's counts are cells, probes and depth; fewer than three numbers for them are refused with 7.
pub fn fit_wants(
    wants: &[u32],
    areas: &[u32],
    locals: u32,
    budget: u32,
    cells: &mut [u32],
    items: &mut [u32],
    offsets: &mut [i32],
    counts: &mut [u64],
    work: &mut [u64],
) -> u64
    ensures { PlanCoded wants.now areas.now
        (coded_verdict wants.now areas.now locals budget
        (length cells.old) (length items.old) (length offsets.old) (length counts.old) (length work.old))
        (plan_for wants.now areas.now budget)
        cells.old items.old offsets.old counts.old work.old result
        cells.new items.new offsets.new counts.new work.new }
{
    if counts.len() < 3 {
        if want_checks::bad_count(wants, areas, locals, budget, cells.len(), items.len()) {
            return refused(Refusal::Count, 0);
        }
        return refused(Refusal::Space, 0);
    }
    let terms = Terms { budget: budget };
    plan(
        counts,
        wants::fit_wants(wants, areas, locals, terms, cells, items, offsets, work),
    )
}
