// The items of a cell: their areas as bars with their names.
ghost use Rattle.std.specs.Prelude.{◌*◌, ◌≤◌, ◌<◌, length};
ghost use Rattle.words.specs.Widths.{item_width};

use drawing::{Axis, Bar, bar_of, digits, font, hue, row_of};
use std::io::{Print, Stdout};
use std::{fmt, io};
use words::widths::{item, range};

// An item's name, as a job's text counts: a letter, and the place among the locals or the slots.
#[derive(Clone, Copy)]
struct Name {
    letter: char,
    index: u32,
}

impl fmt::Display for Name {
    fn fmt<W: fmt::Write>(&self, f: &mut fmt::Formatter<W>) -> fmt::Result {
        let letter = self.letter;
        let index = self.index;
        write!(f, "{letter}{index}")
    }
}

fn name_of(item: u32, locals: u32) -> Name {
    if item < locals {
        return Name {
            letter: 'L',
            index: item,
        };
    }
    Name {
        letter: 'S',
        index: item - locals,
    }
}

// A bar's name: along it, or upright and no larger than the bar is wide where it is too narrow; `y` is the bar's middle.
fn label(out: Stdout, b: Bar, y: u64, n: Name) -> io::Result<()>
    requires { y < 1152921504606846976 }
{
    let x = b.x as u64 + b.width as u64 / 2;
    let along = font(b.width, 2 + digits(n.index), 120) as u64;
    if along < 70 {
        let size = font(b.width / 9 * 5, 1, 110) as u64;
        let right = x + 35 * size / 100;
        print!(out;
            "<text class=\"mid\" transform=\"translate({right} {y})rotate(-90)\" font-size=\"{size}\">{n}</text>\n"
        )
    } else {
        let below = y + 35 * along / 100;
        print!(out;
            "<text class=\"mid\" x=\"{x}\" y=\"{below}\" font-size=\"{along}\">{n}</text>\n"
        )
    }
}

// One range of an item's area.
fn range(out: Stdout, a: Axis, cell: u32, n: Name, start: u32, end: u32) -> io::Result<()> {
    let b = bar_of(a, start, end);
    let row = row_of(cell);
    let x = b.x;
    let w = b.width;
    let y = row.y;
    let height = row.height;
    print!(out;
        "<path class=\"bar\" d=\"M{x} {y}h{w}v{height}h-{w}z\"><title>{n}: {start}&#8211;{end}</title></path>"
    )?;
    label(out, b, row.y + row.height / 2, n)
}

// An item without area: it keeps its cell for itself, over the whole width.
fn whole(out: Stdout, cell: u32, n: Name) -> io::Result<()> {
    let row = row_of(cell);
    let top = row.y;
    let height = row.height;
    let y = top + height / 2 + 42;
    print!(out;
        "<path class=\"whole\" d=\"M1700 {top}h8000v{height}h-8000z\"/><text class=\"mid\" x=\"5700\" y=\"{y}\" font-size=\"120\">{n}, no area</text>\n"
    )
}

// The ranges of an area.
fn area(out: Stdout, a: Axis, cell: u32, n: Name, part: &[u32]) -> io::Result<()> {
    let m = part.len() / range::WIDTH;
    for k in 0..m {
        range(
            out,
            a,
            cell,
            n,
            part[range::WIDTH * k],
            part[range::WIDTH * k + range::END],
        )?;
    }
    Ok(())
}

// An item whose area is `count` ranges of the area list, from `first` on; or it has none. A part that the list does not have is not drawn.
fn item(
    out: Stdout,
    a: Axis,
    cell: u32,
    present: u32,
    first: u32,
    count: u32,
    areas: &[u32],
    n: Name,
) -> io::Result<()> {
    let from = first as usize;
    let to = from + count as usize;
    if present == 0 {
        whole(out, cell, n)?;
    } else if to <= areas.len() / range::WIDTH {
        area(
            out,
            a,
            cell,
            n,
            &areas[range::WIDTH * from..range::WIDTH * to],
        )?;
    }
    Ok(())
}

// The group of an item's bars, in its colour.
fn group(out: Stdout, item: u32, n: Name) -> io::Result<()> {
    let hue = hue(item);
    print!(out; "<g class=\"item\" id=\"{n}\" fill=\"hsl({hue},70%,75%)\">\n")
}

// The items of a cell, among `n` in rows of cell, present, first and count.
pub fn of_cell(
    out: Stdout,
    a: Axis,
    items: &[u32],
    areas: &[u32],
    cell: u32,
    locals: u32,
    n: u32,
) -> io::Result<()>
    requires { item_width * n ≤ length items.now }
{
    for i in 0..n {
        let k = item::WIDTH * i as usize;
        if items[k] == cell {
            let name = name_of(i, locals);
            group(out, i, name)?;
            item(
                out,
                a,
                cell,
                items[k + item::PRESENT],
                items[k + item::FIRST],
                items[k + item::RANGES],
                areas,
                name,
            )?;
            print!(out; "</g>\n")?;
        }
    }
    Ok(())
}
