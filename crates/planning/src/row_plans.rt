// The whole job of the records that the reader left in its list.
ghost use Rattle.std.specs.Prelude.{◌≡◌, ◌≤◌, ◌<◌, length, get_or};
ghost use Rattle.text_grammar.specs.Groups.{row_numbers, group_count, allowed};
ghost use Rattle.planning.specs.Inner.{numbers_at, Few};
ghost use Rattle.planning.specs.Groups.{SharedFor};

use fitting::Terms;
use job_space::Head;
use refusals::Refused;
use text_grammar::{
    ADDRESSES, ASSIGNED, BLOCKS, BUDGET, CROSSINGS, EDGES, ENDS, INSTS, LOCALS, MOVES, OPERANDS,
    PIECES, POINTS, REGISTERS, SLOTS, entry_of,
};
use wants::Tally;

// How many records of a group stand in the reader's list.
pub fn held(counts: &[u32], group: usize) -> usize
    requires { (length counts.now ≡ group_count) × Few counts.now × (group < group_count) }
    ensures { (result ≡ get_or counts.now group 0) × (result ≤ allowed) }
{
    counts[group] as usize
}

// The numbers of a group's records.
pub fn records<'a>(rows: &'a [u32], counts: &[u32], group: usize) -> &'a [u32]
    requires { (length rows.now ≡ row_numbers) × (length counts.now ≡ group_count) × Few counts.now × (group < group_count) }
    ensures { result.now ≡ numbers_at rows.now counts.now group }
{
    let e = entry_of(group);
    let from = e.base;
    let to = from + e.width * held(counts, group);
    &rows[from..to]
}

// The plan of the records in the reader's list.
pub fn planned(
    rows: &[u32],
    counts: &[u32],
    cells: &mut [u32],
    items: &mut [u32],
    areas: &mut [u32],
    offsets: &mut [i32],
    work: &mut [u64],
) -> Result<Tally, Refused>
    requires { (length rows.now ≡ row_numbers) × (length counts.now ≡ group_count) × Few counts.now }
    ensures { SharedFor (numbers_at rows.now counts.now)
        cells.old items.old areas.old offsets.old work.old result
        cells.new items.new areas.new offsets.new work.new }
{
    let points = rows[POINTS];
    let v = rows[REGISTERS];
    let budget = rows[BUDGET];
    job::share(
        Head {
            points: points,
            v: v,
            terms: Terms { budget: budget },
        },
        records(rows, counts, BLOCKS),
        records(rows, counts, EDGES),
        records(rows, counts, INSTS),
        records(rows, counts, OPERANDS),
        records(rows, counts, CROSSINGS),
        records(rows, counts, LOCALS),
        records(rows, counts, SLOTS),
        records(rows, counts, ADDRESSES),
        records(rows, counts, ENDS),
        records(rows, counts, PIECES),
        records(rows, counts, ASSIGNED),
        records(rows, counts, MOVES),
        cells,
        items,
        areas,
        offsets,
        work,
    )
}
