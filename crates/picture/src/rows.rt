// A row a cell: its ground and caption.
ghost use Rattle.std.specs.Prelude.{◌*◌, ◌≤◌, ◌<◌, length};
ghost use Rattle.words.specs.Widths.{cell_width, item_width};

use crate::items::of_cell;
use drawing::{Axis, digits, font, row_of};
use std::io;
use std::io::{Print, Stdout};
use words::widths::cell;

// A cell's ground, which shows whether it is shared, and its number.
fn ground(out: Stdout, cell: u32, count: u64) -> io::Result<()> {
    let row = row_of(cell);
    let top = row.y;
    let height = row.height;
    let y = top + 140;
    if count < 2 {
        print!(out;
            "<g id=\"C{cell}\" class=\"cell\">\n<path class=\"ground\" d=\"M0 {top}h10000v{height}h-10000z\"/>\n<text x=\"80\" y=\"{y}\" font-size=\"110\">cell {cell}</text>"
        )
    } else {
        print!(out;
            "<g id=\"C{cell}\" class=\"shared cell\">\n<path class=\"ground\" d=\"M0 {top}h10000v{height}h-10000z\"/>\n<text x=\"80\" y=\"{y}\" font-size=\"110\">cell {cell}, shared by {count}</text>"
        )
    }
}

// Below, its size and alignment, as large as fits.
fn measures(out: Stdout, cell: u32, size: u32, align: u32) -> io::Result<()> {
    let row = row_of(cell);
    let largest = font(1550, 14 + digits(size) + digits(align), 95);
    let y = row.y + 280;
    print!(out;
        "<text x=\"80\" y=\"{y}\" font-size=\"{largest}\">{size} bytes, align {align}</text>\n"
    )
}

// Cells in rows of size and alignment, `m` of them, and the `n` items in rows of cell, present, first and count.
pub fn cells(
    out: Stdout,
    a: Axis,
    cells: &[u32],
    items: &[u32],
    areas: &[u32],
    locals: u32,
    m: u32,
    n: u32,
) -> io::Result<()>
    requires { (cell_width * m ≤ length cells.now) × (item_width * n ≤ length items.now) }
{
    for c in 0..m {
        let at = cell::WIDTH * c as usize;
        ground(out, c, members::members(items, c) as u64)?;
        measures(out, c, cells[at], cells[at + cell::ALIGN])?;
        of_cell(out, a, items, areas, c, locals, n)?;
        print!(out; "</g>\n")?;
    }
    Ok(())
}
