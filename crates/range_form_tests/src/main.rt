// Runs `clashes` over two lent lists of ranges and `joined` over a lent range, on document 01's examples and on corner cases: held to the file `stdout`.
// `clash` and `join` lend their locals.
#![tactic(auto)]

use ranges::Range;
use refusals::Refused;
use std::io;
use std::io::{Print, Stdout};

// Two lists of two ranges, lent.
fn clash(out: Stdout, a: [Range; 2], b: [Range; 2]) -> io::Result<()> {
    print!(out; "clashes")?;
    match range_forms::clashes(&a, &b) {
        Ok(b) => cases::yes_or_no(out, b)?,
        Err(Refused(r, i)) => cases::bad(out, r, i)?,
    }
    println!(out)
}

// The first range lent, and a new one.
fn join(out: Stdout, last: Range, new: Range) -> io::Result<()> {
    let mut l = last;
    print!(out; "joined")?;
    match range_forms::joined(&mut l, new) {
        Ok(b) => cases::yes_or_no(out, b)?,
        Err(Refused(r, i)) => cases::bad(out, r, i)?,
    }
    let Range { start, end } = l;
    println!(out; ": {start}-{end}")
}

fn range(start: u32, end: u32) -> Range {
    Range { start, end }
}

fn two(a: u32, b: u32, c: u32, d: u32) -> [Range; 2] {
    [range(a, b), range(c, d)]
}

// Document 01's third and fourth example, each with a range far off in either list; the largest point; a gap that the other list fills; a reversed range, and one
// that starts where the one before ends, in the first list and then in the second; the first list's comes first.
fn clashing(out: Stdout) -> io::Result<()> {
    clash(out, two(1, 4, 100, 101), two(4, 6, 90, 91))?;
    clash(out, two(1, 4, 100, 101), two(5, 6, 90, 91))?;
    clash(
        out,
        two(0, 0, 4294967295, 4294967295),
        two(1, 2, 9, 4294967295),
    )?;
    clash(out, two(1, 2, 7, 8), two(3, 6, 9, 9))?;
    clash(out, two(2, 1, 7, 8), two(6, 3, 9, 9))?;
    clash(out, two(1, 2, 2, 8), two(3, 6, 9, 9))?;
    clash(out, two(1, 2, 7, 8), two(6, 3, 9, 9))?;
    clash(out, two(1, 2, 7, 8), two(3, 6, 6, 9))
}

// On the point after; one further; on the end itself; after the largest point; a reversed range lent, a reversed new one, both.
fn joining(out: Stdout) -> io::Result<()> {
    join(out, range(1, 4), range(5, 9))?;
    join(out, range(1, 4), range(6, 9))?;
    join(out, range(1, 4), range(4, 9))?;
    join(out, range(1, 4294967295), range(0, 9))?;
    join(out, range(4, 1), range(2, 9))?;
    join(out, range(1, 4), range(9, 5))?;
    join(out, range(4, 1), range(9, 5))
}

fn main(rt: HostRuntime) -> io::Result<()> {
    let out = rt.stdout();
    clashing(out)?;
    joining(out)
}
