// `cap`: the alignments of a plan's cells lowered to a maximum, in cells as rows of size and alignment.
#![tactic(auto)]

ghost use Rattle.std.specs.Prelude.{◌≡◌, ◌*◌, ◌≤◌, min, ◌++◌, length, drop};
ghost use Rattle.fitting.specs.Queries.{cap};
ghost use Rattle.capping.specs.Cap.{room_by, CappedBy, cap_rows};
ghost use Rattle.words.specs.Widths.{cell_width};

use refusals::{Refusal, Refused, Verdict};
use words::widths::cell;

// A cell of a plan, by value.
#[derive(Clone, Copy)]
pub struct Cell {
    pub size: u32,
    pub align: u32,
}

// One cell with its alignment lowered to a maximum, handed back.
pub fn lowered(c: Cell, most: u32) -> Cell
    ensures { (result.size ≡ c.size) × (result.align ≡ min c.align most) }
{
    if most < c.align {
        return Cell {
            size: c.size,
            align: most,
        };
    }
    c
}

// `cap` of one cell that is lent: its alignment is lowered to a maximum.
pub fn cap_cell(cell: &mut Cell, most: u32)
    ensures { room_by cell.new ≡ cap most (room_by cell.old) }
{
    let c = *cell;
    *cell = lowered(c, most);
}

// Lowers the alignment of the first `count` cells to a maximum. Refuses a list that is no whole rows or is shorter than the count (1).
pub fn cap(cells: &mut [u32], count: u32, most: u32) -> Verdict
    ensures { CappedBy cells.old count most result cells.new }
{
    if cells.len() % cell::WIDTH != 0 {
        return Err(Refused(Refusal::Count, 0));
    }
    if cells.len() / cell::WIDTH < count as usize {
        return Err(Refused(Refusal::Count, 0));
    }
    if 4096 < count {
        return Err(Refused(Refusal::Count, 0));
    }
    lower(cells, count as usize, most);
    Ok(())
}

fn lower(cells: &mut [u32], count: usize, most: u32)
    requires { cell_width * count ≤ length cells.old }
    ensures { cells.new ≡ cap_rows cells.old count most ++ drop (cell_width * count) cells.old }
{
    for i in 0..count {
        let c = lowered(
            Cell {
                size: cells[cell::WIDTH * i],
                align: cells[cell::WIDTH * i + cell::ALIGN],
            },
            most,
        );
        cells[cell::WIDTH * i] = c.size;
        cells[cell::WIDTH * i + cell::ALIGN] = c.align;
    }
}
