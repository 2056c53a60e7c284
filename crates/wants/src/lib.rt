// Fitting alone: the lowest fitting cell for each of the wants that are lent.
#![tactic(auto)]

ghost use Rattle.std.specs.Prelude.{length};
ghost use Rattle.words.specs.Widths.{range_count, want_count};
ghost use Rattle.fitting.specs.Plan.{Plan};
ghost use Rattle.fitting.specs.Layout.{rooms_in, layout_verdict};
ghost use Rattle.fit_tables.specs.Inner.{Made};
ghost use Rattle.want_checks.specs.Checks.{verdict};
ghost use Rattle.want_checks.specs.Inner.{Granted};
ghost use Rattle.wants.specs.Entry.{plan_for, PlanListed, FittedAlone};
ghost use Rattle.wants.specs.Inner.{Listable};
ghost use Rattle.refusals.specs.Verdicts.{Fine};

use fit_tables::{CELLS, Counts, HOMES, Tables};
use fitting::Terms;
use refusals::Refused;
use words::widths::{range, want};

// A plan's counts: its cells, the probes spent, and its depth.
#[derive(Clone, Copy)]
pub struct Tally {
    pub cells: usize,
    pub probes: u64,
    pub depth: u64,
}

// Puts each want into the lowest cell that has an area and doesn't clash with it, while budget is left: alignment falling, size falling, index rising.
// Wants are rows of size, alignment, present, first and count; areas rows of start and end; the wants of `locals` locals come first.
// Cells come back as rows of size and alignment, items as rows of cell, present, first and count, offsets as one number a cell: minus the depth at which it lies
// below the frame base.
// Refuses lengths that are no whole rows, a count over its limit (1), an answer list under the wants or a work space under W = 8 × (wants + ranges) (7),
// a want whose part is outside the list, reversed, unsorted or overlapping itself (10), a cell whose alignment is no power of two (12), and one that lies deeper
// than 2,147,483,647 (13).
pub fn fit_wants(
    wants: &[u32],
    areas: &[u32],
    locals: u32,
    terms: Terms,
    cells: &mut [u32],
    items: &mut [u32],
    offsets: &mut [i32],
    work: &mut [u64],
) -> Result<Tally, Refused>
    ensures { FittedAlone wants.now areas.now
        (verdict wants.now areas.now locals terms.budget
        (length cells.old) (length items.old) (length offsets.old) (length work.old))
        (plan_for wants.now areas.now terms.budget)
        cells.old items.old offsets.old work.old result
        cells.new items.new offsets.new work.new }
{
    want_checks::refusal(
        wants,
        areas,
        locals,
        terms.budget,
        cells.len(),
        items.len(),
        offsets.len(),
        work.len(),
    )?;
    answer(wants, areas, terms, cells, items, offsets, work)
}

// The plan is made in the work space, and only then told; the work space is cleared whether its layout is refused or not.
fn answer(
    wants: &[u32],
    areas: &[u32],
    terms: Terms,
    cells: &mut [u32],
    items: &mut [u32],
    offsets: &mut [i32],
    work: &mut [u64],
) -> Result<Tally, Refused>
    requires { Granted wants.now areas.now (length cells.old) (length items.old) (length offsets.old) (length work.old) }
    ensures { FittedAlone wants.now areas.now Fine (plan_for wants.now areas.now terms.budget)
        cells.old items.old offsets.old work.old result
        cells.new items.new offsets.new work.new }
{
    let n = wants.len() / want::WIDTH;
    let ranges = areas.len() / range::WIDTH;
    fit_tables::want_tables::load(work, wants, areas, n, ranges);
    let end = 8 * (n + ranges);
    let t = Tables {
        at: 0,
        items: ranges,
        n: n,
        end: end,
    };
    let f = fit_cells::fit(work, t, terms.budget as u64);
    let r = list(wants, areas, f, cells, items, offsets, work);
    words::clear(work, end);
    r
}

// The answer lists of the plan that stands in the work space, unless its layout is refused (12 and 13).
fn list(
    wants: &[u32],
    areas: &[u32],
    f: Counts,
    cells: &mut [u32],
    items: &mut [u32],
    offsets: &mut [i32],
    work: &[u64],
) -> Result<Tally, Refused>
    requires { Listable wants.now areas.now (length cells.old) (length items.old) (length offsets.old) work.now f }
    ensures { (p : Plan) → Made p (want_count wants.now) (range_count areas.now) work.now f
        → PlanListed wants.now (layout_verdict (rooms_in p)) p
        cells.old items.old offsets.old result cells.new items.new offsets.new }
{
    let n = wants.len() / want::WIDTH;
    let ranges = areas.len() / range::WIDTH;
    let from = ranges + CELLS * n;
    fit_layout::refusal(work, from, f.cells)?;
    fit_tables::want_tables::write_cells(cells, work, from, f.cells);
    fit_tables::want_tables::write_items(items, work, wants, ranges + HOMES * n, n);
    let depth = fit_layout::write(offsets, work, from, f.cells);
    Ok(Tally {
        cells: f.cells,
        probes: f.probes,
        depth,
    })
}
