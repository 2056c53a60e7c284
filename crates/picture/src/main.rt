// Draws the plan of a job: its text on standard input, an SVG on standard output. Blocks lie along one axis, and each cell has a row with the areas of its items. A
// refusal is drawn as a line that says it.
#![tactic(auto)]

ghost use Rattle.std.specs.Prelude.{◌≡◌, ◌*◌, ◌≤◌, length};
ghost use Rattle.text_grammar.specs.Groups.{group_count, row_numbers};
ghost use Rattle.planning.specs.Inner.{Few};
ghost use Rattle.words.specs.Widths.{cell_width, item_width};

use drawing::{Axis, axis_of, height, ranges};
use planning::row_plans::{held, planned, records};
use reading::input;
use refusals::Refused;
use std::io;
use std::io::Stdout;
use text_grammar::{BLOCKS, GROUP_COUNT, LOCALS, ROW_NUMBERS, SLOTS};
use words::widths::{item, range};

mod frame; // frame.rt: what stands around the rows, and the refusal
mod items; // items.rt: the items of a cell
mod line; // line.rt: the blocks
mod rows; // rows.rt: the cells

// A plan of `n` items in `m` cells, along an axis.
fn draw(
    out: Stdout,
    a: Axis,
    blocks: &[u32],
    cells: &[u32],
    items: &[u32],
    areas: &[u32],
    locals: u32,
    m: u32,
    n: u32,
) -> io::Result<()>
    requires { (cell_width * m ≤ length cells.now) × (item_width * n ≤ length items.now) }
{
    let h = height(m);
    line::blocks(out, a, blocks, h - 460)?;
    rows::cells(out, a, cells, items, areas, locals, m, n)?;
    frame::close(out, h)
}

// The axis of the blocks and of the ranges that the items have.
fn axis(blocks: &[u32], items: &[u32], areas: &[u32]) -> Axis {
    let n = ranges(items, areas.len() / range::WIDTH);
    axis_of(blocks, &areas[0..range::WIDTH * n])
}

fn show(
    out: Stdout,
    blocks: &[u32],
    cells: &[u32],
    items: &[u32],
    areas: &[u32],
    locals: u32,
    m: u32,
    n: u32,
) -> io::Result<()>
    requires { (cell_width * m ≤ length cells.now) × (item_width * n ≤ length items.now) }
{
    let a = axis(blocks, items, areas);
    draw(out, a, blocks, cells, items, areas, locals, m, n)
}

// The plan of the records that were read, or its refusal.
fn plan(out: Stdout, rows: &[u32], counts: &[u32]) -> io::Result<()>
    requires { (length rows.now ≡ row_numbers) × (length counts.now ≡ group_count) × Few counts.now }
{
    let mut cells = [0u32; 256];
    let mut items = [0u32; 512];
    let mut areas = [0u32; 128];
    let mut offsets = [0i32; 128];
    let mut work = [0u64; 8192];
    let n = held(counts, LOCALS) + held(counts, SLOTS);
    let blocks = records(rows, counts, BLOCKS);
    let r = planned(
        rows,
        counts,
        &mut cells,
        &mut items,
        &mut areas,
        &mut offsets,
        &mut work,
    );
    match r {
        Ok(t) => {
            let c = t.cells as u32;
            frame::open(out, c, n as u32, t.probes, t.depth)?;
            show(
                out,
                blocks,
                &cells,
                &items[0..item::WIDTH * n],
                &areas,
                counts[LOCALS],
                c,
                n as u32,
            )?;
        }
        Err(Refused(r, i)) => frame::refuse(out, r, i)?,
    }
    Ok(())
}

fn main(rt: HostRuntime) -> io::Result<()> {
    let out = rt.stdout();
    let mut rows = [0; ROW_NUMBERS];
    let mut counts = [0; GROUP_COUNT];
    let v = input(rt.stdin(), &mut rows, &mut counts)?;
    match v {
        Ok(()) => plan(out, &rows, &counts),
        Err(Refused(r, i)) => frame::refuse(out, r, i),
    }
}
