// What stands around the rows: the head with the styles, the totals, the key to the grounds; and the picture of a refusal.
ghost use Rattle.std.specs.Prelude.{◌≤◌, length};

use drawing::height;
use refusals::{Refusal, Refused, number};
use std::io;
use std::io::{Print, Stdout};

// The head of a picture of a width and a height.
fn head(out: Stdout, width: u64, height: u64) -> io::Result<()> {
    let shown_width = width / 10;
    let shown_height = height / 10;
    print!(out;
        "<svg xmlns=\"http://www.w3.org/2000/svg\" width=\"{shown_width}\" height=\"{shown_height}\" viewBox=\"0 0 {width} {height}\" font-family=\"monospace\">\n"
    )?;
    print!(out; "<rect width=\"100%\" height=\"100%\" fill=\"#fff\"/>\n")
}

fn styles(out: Stdout) -> io::Result<()> {
    out.write_all(
        b"<style>.border{stroke:#9aa5b1;stroke-width:8;stroke-dasharray:30 30;fill:none}.block{fill:#e4ebf3;stroke:#6b7a8c;stroke-width:10}",
    )?;
    out.write_all(
        b".ground{fill:#eef0f2;fill-opacity:.6}.shared>.ground{fill:#ffdf80}.bar{stroke:#444;stroke-width:6}.mid{text-anchor:middle}text{fill:#1c2330}",
    )?;
    out.write_all(
        b".whole{fill:url(#hatch);stroke:#777;stroke-width:10;stroke-dasharray:60 40}.whole+.mid{stroke:#fff;stroke-width:50;paint-order:stroke}</style>\n",
    )
}

// The ground of items without area.
fn hatch(out: Stdout) -> io::Result<()> {
    out.write_all(
        b"<pattern id=\"hatch\" width=\"90\" height=\"90\" patternUnits=\"userSpaceOnUse\" patternTransform=\"rotate(45)\">",
    )?;
    out.write_all(
        b"<path d=\"M0 0h90v90h-90z\" fill=\"#fff\"/><path d=\"M0 0h35v90h-35z\" fill=\"#d0d4d9\"/></pattern>\n",
    )
}

// What stands above the blocks and the rows, with the totals: cells, items less cells, probes and depth.
pub fn open(out: Stdout, cells: u32, items: u32, probes: u64, depth: u64) -> io::Result<()> {
    head(out, 10000, height(cells))?;
    styles(out)?;
    hatch(out)?;
    let saved = items.saturating_sub(cells);
    print!(out;
        "<text id=\"totals\" x=\"80\" y=\"250\" font-size=\"150\">cells {cells}, saved {saved}, probes {probes}, depth {depth} bytes</text>\n"
    )
}

// The key to the grounds, below the rows.
pub fn close(out: Stdout, height: u64) -> io::Result<()>
    requires { 260 ≤ height }
{
    let top = height - 260;
    print!(out; "<g id=\"key\" font-size=\"110\" transform=\"translate(80 {top})\">")?;
    print!(out;
        "<g class=\"shared\"><path class=\"ground\" d=\"M0 0h260v180h-260z\"/></g><text x=\"330\" y=\"130\">shared cell</text>"
    )?;
    print!(out;
        "<path class=\"ground\" d=\"M1620 0h260v180h-260z\"/><text x=\"1950\" y=\"130\">cell of one item</text>"
    )?;
    print!(out;
        "<path class=\"whole\" d=\"M3440 0h260v180h-260z\"/><text x=\"3770\" y=\"130\">item without area, alone in its cell</text></g>\n</svg>\n"
    )
}

// The word of a refusal, which is printed in eight columns.
fn word(r: Refusal) -> &'static str
    ensures { length result.now ≤ 8 }
{
    match r {
        Refusal::Count => "count",
        Refusal::Line => "line",
        Refusal::Edge => "edge",
        Refusal::Inst => "inst",
        Refusal::Stray => "stray",
        Refusal::Piece => "piece",
        Refusal::Space => "space",
        Refusal::List => "list",
        Refusal::Want => "want",
        Refusal::Text => "text",
        Refusal::Align => "align",
        Refusal::Depth => "depth",
    }
}

// The picture of a refusal: its number, the index of the first offending record, and its word.
pub fn refuse(out: Stdout, r: Refusal, i: usize) -> io::Result<()> {
    head(out, 6000, 800)?;
    let n = number(r);
    let word = word(r);
    print!(out;
        "<path d=\"M20 20h5960v760h-5960z\" fill=\"#fdecea\" stroke=\"#b3261e\" stroke-width=\"20\"/>\n"
    )?;
    print!(out;
        "<text id=\"refusal\" x=\"300\" y=\"460\" font-size=\"200\">Refused: number {n}, index {i}, {word:<8}</text>\n</svg>\n"
    )
}
