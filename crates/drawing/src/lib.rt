// Numbers to coordinates: where a picture of a plan has its points, cells, names and colours. Coordinates are tenths of a pixel; the axis of points goes from 1,700 to
// 9,700.
#![tactic(auto)]

ghost use Rattle.std.specs.Prelude.{◌≡◌, ◌+◌, ◌-◌, ◌<◌, min, max};
ghost use Rattle.words.specs.Rows.{row_count};
ghost use Rattle.words.specs.Widths.{item_row_count};
ghost use Rattle.drawing.specs.Axis.{least_of, greatest_of, first_of, last_of, points_before, Placed, Barred};
ghost use Rattle.drawing.specs.Inner.{ranges_in, Fits, Digits};
ghost use Rattle.drawing.specs.Rows.{top_of, row_height, height_of, hue_of};

use words::widths::{block, item, range};

// The points of the axis: the first, and how many more there are.
#[derive(Clone, Copy)]
pub struct Axis {
    pub first: u32,
    pub more: u32,
}

// A bar along the axis.
#[derive(Clone, Copy)]
pub struct Bar {
    pub x: u32,
    pub width: u32,
}

// A cell's row.
#[derive(Clone, Copy)]
pub struct Row {
    pub y: u64,
    pub height: u64,
}

#[derive(Clone, Copy)]
struct Ends {
    low: u32,
    high: u32,
}

// Two ends, widened by those of the ranges in rows of width `w`, which have their starts and ends at fields `s` and `e`.
#[tactic(auto, using(crate::proofs::AxisLaws::row_within))]
fn widened(ends: Ends, l: &[u32], w: usize, s: usize, e: usize) -> Ends
    requires { (s < w) × (e < w) }
    ensures { (result.low ≡ least_of w l.now s ends.low (row_count w l.now)) × (result.high ≡ greatest_of w l.now e ends.high (row_count w l.now)) }
{
    let n = l.len() / w;
    let mut low = ends.low;
    let mut high = ends.high;
    for i in 0..n {
        low = low.min(l[w * i + s]);
        high = high.max(l[w * i + e]);
    }
    Ends { low, high }
}

// The axis of blocks in rows of number, start and end, and of areas in rows of start and end: an area may reach outside the blocks, so the axis takes both.
pub fn axis_of(blocks: &[u32], areas: &[u32]) -> Axis
    ensures { (result.first ≡ first_of blocks.now areas.now)
        × (result.more ≡ last_of blocks.now areas.now - first_of blocks.now areas.now) }
{
    let none = Ends {
        low: 0xffff_ffff,
        high: 0,
    };
    let line = widened(none, blocks, block::WIDTH, block::START, block::END);
    let all = widened(line, areas, range::WIDTH, 0, range::END);
    let first = all.low;
    let last = all.high;
    if last < first {
        return Axis { first, more: 0 };
    }
    Axis {
        first,
        more: last - first,
    }
}

// How many ranges of an area list the items have, in rows of cell, present, first and count; no more than there is room for.
pub fn ranges(items: &[u32], room: usize) -> usize
    ensures { result ≡ min room (ranges_in items.now (item_row_count items.now)) }
{
    let n = items.len() / item::WIDTH;
    let mut k: usize = 0;
    for i in 0..n {
        let more = items[item::WIDTH * i + item::RANGES] as usize;
        k = room.min(k.saturating_add(more));
    }
    k
}

// How many points of the axis come before a point.
fn passed(a: Axis, p: u64) -> u64
    ensures { result ≡ points_before a.first a.more p }
{
    let first = a.first as u64;
    let points = a.more as u64 + 1;
    if p < first {
        return 0;
    }
    if points < p - first {
        return points;
    }
    p - first
}

// Where a point begins.
pub fn place(a: Axis, p: u64) -> u32
    ensures { Placed a.first a.more p result }
{
    let n = passed(a, p);
    let points = a.more as u64 + 1;
    1700 + (8000 * n / points) as u32
}

// The bar of a range, from where its start begins to where the point after its end does.
pub fn bar_of(a: Axis, start: u32, end: u32) -> Bar
    ensures { Barred a.first a.more start end result.x result.width }
{
    let last = start.max(end);
    let x = place(a, start as u64);
    let stop = place(a, last as u64 + 1);
    Bar { x, width: stop - x }
}

// A cell's row.
pub fn row_of(cell: u32) -> Row
    ensures { (result.y ≡ top_of cell) × (result.height ≡ row_height) }
{
    Row {
        y: 900 + 400 * cell as u64,
        height: 340,
    }
}

// The height of a picture with so many rows.
pub fn height(cells: u32) -> u64
    ensures { result ≡ height_of cells }
{
    1300 + 400 * cells as u64
}

// The largest type, up to `most`, at which so many characters fit into a width.
pub fn font(width: u32, characters: u32, most: u32) -> u32
    ensures { Fits width characters most result }
{
    if characters == 0 {
        return most;
    }
    let size = 100 * width as u64 / (62 * characters as u64);
    if size < most as u64 {
        return size as u32;
    }
    most
}

// How many digits a number has.
pub fn digits(n: u32) -> u32
    ensures { Digits n result }
{
    let wide = n as u64;
    let mut top: u64 = 10;
    let mut k: u32 = 1;
    while top <= wide {
        top = 10 * top;
        k += 1;
    }
    k
}

// An item's hue, in degrees.
pub fn hue(item: u32) -> u64
    ensures { result ≡ hue_of item }
{
    137 * item as u64 % 360
}
