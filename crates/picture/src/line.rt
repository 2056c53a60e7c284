// The blocks along the axis, with their numbers and points, and their borders down the picture.
use drawing::{Axis, Bar, bar_of, digits, font};
use std::io;
use std::io::{Print, Stdout};
use words::widths::block;

// A block's number, and below it its points, as large as fits; the end has the most digits.
fn labels(out: Stdout, b: Bar, number: u32, start: u32, end: u32) -> io::Result<()> {
    let x = b.x as u64 + b.width as u64 / 2;
    let large = font(b.width, 2 + digits(number), 120) as u64;
    let y = 520 + 35 * large / 100;
    print!(out; "<text class=\"mid\" x=\"{x}\" y=\"{y}\" font-size=\"{large}\">B{number}</text>")?;
    let small = font(b.width, 2 + 2 * digits(end), 90) as u64;
    let y = 670 + 35 * small / 100;
    print!(out;
        "<text class=\"mid\" x=\"{x}\" y=\"{y}\" font-size=\"{small}\">{start}&#8211;{end}</text>\n"
    )
}

// A block's box and its borders. A box is a path: a rectangle of no width would not be drawn, a path's outline is.
fn block(out: Stdout, a: Axis, number: u32, start: u32, end: u32, bottom: u64) -> io::Result<()> {
    let b = bar_of(a, start, end);
    let x = b.x as u64;
    let w = b.width as u64;
    let right = x + w;
    print!(out;
        "<path class=\"border\" d=\"M{x} 760V{bottom}M{right} 760V{bottom}\"/>\n<path class=\"block\" d=\"M{x} 420h{w}v340h-{w}z\"><title>B{number}: {start}&#8211;{end}</title></path>\n"
    )?;
    labels(out, b, number, start, end)
}

// Blocks in rows of number, start and end.
pub fn blocks(out: Stdout, a: Axis, l: &[u32], bottom: u64) -> io::Result<()> {
    let n = l.len() / block::WIDTH;
    for i in 0..n {
        block(
            out,
            a,
            l[block::WIDTH * i],
            l[block::WIDTH * i + block::START],
            l[block::WIDTH * i + block::END],
            bottom,
        )?;
    }
    Ok(())
}
