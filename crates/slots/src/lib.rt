// The entries for C and Rust: numbers and slices. Each answers in one number (`codes`); `slots_c` exports them.
#![tactic(auto)]

ghost use Rattle.std.specs.Prelude.{◌≡◌, length};
ghost use Rattle.ranges.specs.Points.{range, overlaps};
ghost use Rattle.range_entries.specs.Entries.{merged_of, joined_of, union_of, clashes_of};
ghost use Rattle.queries.specs.Entry.{local_of, slot_of, saved_by};
ghost use Rattle.queries.specs.Shares.{crowded_of};
ghost use Rattle.apart.specs.Apart.{apart_verdict, apart_of};
ghost use Rattle.job_space.specs.Space.{space_of};
ghost use Rattle.codes.specs.Codes.{count_code, option_code, truth_of, truth_code};
ghost use Rattle.wants.specs.Entry.{plan_for};
ghost use Rattle.want_codes.specs.Plans.{coded_verdict, PlanCoded};
ghost use Rattle.query_codes.specs.Codes.{told_of, PartTold};
ghost use Rattle.slots.specs.Exports.{FlowCoded, SpreadCoded, fit_space, ListCoded, CrowdCoded, CapCoded, ApartCoded};
ghost use Rattle.job_space.specs.Rows.{lent_rows};
ghost use Rattle.job_codes.specs.Job.{JobCoded};

use fitting::Terms;
use job_space::Head;

pub mod area_exports; // area_exports.rt: areas of items
pub mod carry_exports; // carry_exports.rt: carried addresses, moves and slots
pub mod graph_exports; // graph_exports.rt: components and an order
pub mod text_exports; // text_exports.rt: a text in, a text out

// `flow::flowed`: over predecessors for 0, else over successors.
pub fn slots_flowed(
    over: u32,
    blocks: &[u32],
    edges: &[u32],
    points: u32,
    touched: &[u64],
    words: usize,
    out: &mut [u64],
    work: &mut [u64],
) -> u64
    ensures { FlowCoded over blocks.now edges.now points touched.now words out.old work.old result out.new work.new }
{
    codes::verdict(flow::flowed(
        part_codes::over(over),
        blocks,
        edges,
        points,
        touched,
        words,
        out,
        work,
    ))
}

// `spread::spread`.
pub fn slots_spread(
    blocks: &[u32],
    edges: &[u32],
    points: u32,
    leaves: &[u64],
    passes: &[u64],
    words: usize,
    out: &mut [u64],
    work: &mut [u64],
) -> u64
    ensures { SpreadCoded blocks.now edges.now points leaves.now passes.now words out.old work.old result
        out.new work.new }
{
    codes::verdict(spread::spread(blocks, edges, points, leaves, passes, words, out, work))
}

// `wants::fit_wants`: the plan's counts are cells, probes and depth.
pub fn slots_fit_wants(
    wants: &[u32],
    areas: &[u32],
    locals: u32,
    budget: u32,
    cells: &mut [u32],
    items: &mut [u32],
    offsets: &mut [i32],
    counts: &mut [u64],
    work: &mut [u64],
) -> u64
    ensures { PlanCoded wants.now areas.now
        (coded_verdict wants.now areas.now locals budget
        (length cells.old) (length items.old) (length offsets.old) (length counts.old) (length work.old))
        (plan_for wants.now areas.now budget)
        cells.old items.old offsets.old counts.old work.old result
        cells.new items.new offsets.new counts.new work.new }
{
    want_codes::fit_wants(
        wants, areas, locals, budget, cells, items, offsets, counts, work,
    )
}

// `job::share`, the whole job, with the counts as in `slots_fit_wants`.
pub fn slots_share(
    points: u32,
    v: u32,
    budget: u32,
    blocks: &[u32],
    edges: &[u32],
    insts: &[u32],
    operands: &[u32],
    crossings: &[u32],
    locals: &[u32],
    slots: &[u32],
    addresses: &[u32],
    ends: &[u32],
    pieces: &[u32],
    assigned: &[u32],
    moves: &[u32],
    cells: &mut [u32],
    items: &mut [u32],
    areas: &mut [u32],
    offsets: &mut [i32],
    counts: &mut [u64],
    work: &mut [u64],
) -> u64
    ensures { JobCoded (lent_rows points v blocks edges insts operands crossings locals slots addresses ends pieces assigned moves) (record { budget = budget })
        cells.old items.old areas.old offsets.old counts.old work.old result
        cells.new items.new areas.new offsets.new counts.new work.new }
{
    job_codes::share(
        Head {
            points: points,
            v: v,
            terms: Terms { budget: budget },
        },
        blocks,
        edges,
        insts,
        operands,
        crossings,
        locals,
        slots,
        addresses,
        ends,
        pieces,
        assigned,
        moves,
        cells,
        items,
        areas,
        offsets,
        counts,
        work,
    )
}

// W of a job, by the numbers of its records.
pub fn slots_work_words(
    v: u32,
    blocks: u32,
    edges: u32,
    insts: u32,
    operands: u32,
    crossings: u32,
    locals: u32,
    slots: u32,
    addresses: u32,
    ends: u32,
    pieces: u32,
    assigned: u32,
    moves: u32,
    ranges: u32,
) -> u64
    ensures { result ≡ space_of (record {
      v = v;
      blocks = blocks;
      edges = edges;
      insts = insts;
      operands = operands;
      crossings = crossings;
      locals = locals;
      slots = slots;
      addresses = addresses;
      ends = ends;
      pieces = pieces;
      assigned = assigned;
      moves = moves;
      room = ranges;
    }) }
{
    job_space::words(
        v, blocks, edges, insts, operands, crossings, locals, slots, addresses, ends, pieces,
        assigned, moves, ranges,
    )
}

// W of fitting alone, by the numbers of wants and of ranges.
pub fn slots_fit_words(wants: u32, ranges: u32) -> u64
    ensures { result ≡ fit_space wants ranges }
{
    8 * (wants as u64 + ranges as u64)
}

// ---- queries of a lent plan

// `queries::local`: the cell of a local.
pub fn slots_local(cells: &[u32], items: &[u32], locals: u32, i: u32) -> u64
    ensures { result ≡ option_code (local_of cells.now items.now locals i) }
{
    query_codes::local(cells, items, locals, i)
}

// `queries::slot`: the cell of a slot.
pub fn slots_slot(cells: &[u32], items: &[u32], locals: u32, i: u32) -> u64
    ensures { result ≡ option_code (slot_of cells.now items.now locals i) }
{
    query_codes::slot(cells, items, locals, i)
}

// `queries::saved`.
pub fn slots_saved(cells: &[u32], items: &[u32], locals: u32) -> u64
    ensures { result ≡ count_code (saved_by cells.now items.now locals) }
{
    codes::answer(queries::saved(cells, items, locals))
}

// `queries::shared`: of the part's first range and how many there are, as many as `part` has room for.
pub fn slots_shared(
    cells: &[u32],
    items: &[u32],
    areas: &[u32],
    locals: u32,
    i: u32,
    part: &mut [u64],
) -> u64
    ensures { PartTold (told_of cells.now items.now areas.now locals i (length part.old)) part.old result part.new }
{
    query_codes::shared(cells, items, areas, locals, i, part)
}

// `queries::crowded`.
pub fn slots_crowded(cells: &[u32], items: &[u32], locals: u32, out: &mut [u32]) -> u64
    ensures { CrowdCoded (crowded_of cells.now items.now locals (length out.old)) out.old result out.new }
{
    codes::answer(queries::crowded(cells, items, locals, out))
}

// `capping::cap`.
pub fn slots_cap(cells: &mut [u32], count: u32, most: u32) -> u64
    ensures { CapCoded cells.old count most result cells.new }
{
    codes::verdict(capping::cap(cells, count, most))
}

// `apart::apart`.
pub fn slots_apart(locals: &[u32], slots: &[u32], cells: &mut [u32], items: &mut [u32]) -> u64
    ensures { ApartCoded (apart_verdict locals.now slots.now (length cells.old) (length items.old))
        (apart_of locals.now slots.now (length cells.old) (length items.old))
        cells.old items.old result cells.new items.new }
{
    codes::verdict(apart::apart(locals, slots, cells, items))
}

// ---- ranges in two columns

// `ranges::overlaps`: 1 or 0.
pub fn slots_overlaps(start: u32, end: u32, other_start: u32, other_end: u32) -> u64
    ensures { result ≡ truth_of (overlaps (range start end) (range other_start other_end)) }
{
    codes::truth(ranges::overlaps(start, end, other_start, other_end))
}

// `range_entries::merged`.
pub fn slots_merged(start: &[u32], end: &[u32], out_start: &mut [u32], out_end: &mut [u32]) -> u64
    ensures { ListCoded (merged_of start.now end.now (length out_start.old) (length out_end.old))
        out_start.old out_end.old result out_start.new out_end.new }
{
    codes::answer(range_entries::merged(start, end, out_start, out_end))
}

// `range_entries::joined`.
pub fn slots_joined(
    start: &[u32],
    end: &[u32],
    new_start: u32,
    new_end: u32,
    out_start: &mut [u32],
    out_end: &mut [u32],
) -> u64
    ensures { ListCoded (joined_of start.now end.now (range new_start new_end) (length out_start.old) (length out_end.old))
        out_start.old out_end.old result out_start.new out_end.new }
{
    codes::answer(range_entries::joined(start, end, new_start, new_end, out_start, out_end))
}

// `range_entries::union`.
pub fn slots_union(
    start: &[u32],
    end: &[u32],
    other_start: &[u32],
    other_end: &[u32],
    out_start: &mut [u32],
    out_end: &mut [u32],
) -> u64
    ensures { ListCoded (union_of start.now end.now other_start.now other_end.now (length out_start.old)
        (length out_end.old))
        out_start.old out_end.old result out_start.new out_end.new }
{
    codes::answer(range_entries::union(start, end, other_start, other_end, out_start, out_end))
}

// `range_entries::clashes`: 1 or 0.
pub fn slots_clashes(start: &[u32], end: &[u32], other_start: &[u32], other_end: &[u32]) -> u64
    ensures { result ≡ truth_code (clashes_of start.now end.now other_start.now other_end.now) }
{
    part_codes::clash(range_entries::clashes(start, end, other_start, other_end))
}
