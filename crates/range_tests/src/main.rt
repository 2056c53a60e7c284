// Runs the range entries on the cases of standard input and prints what they answer and leave: held to the file `stdout`. Every answer list has 7s at
// first, so that an entry that is written past the answer, or by a refusal, shows. A case is a line: the name of an entry, a blank, and four columns of
// numbers, a comma after each number and a bar after each column: the starts and the ends of one list and of another. Of `merged` the second list is the
// lengths of the answer's two columns, of `joined` and `overlaps` one range.
// The cases of `merged`: document 01's second example; nothing; one point; the largest point; touching, nested and equal ranges are joined, those with a
// point between them are not, also at the largest points; columns of different lengths; a reversed range; answer columns of different lengths, too little
// room; the count comes before the room, the room before the range; a list that is too long for the small array. Those of `clashes`: document 01's third
// and fourth example; a long list against a short one, where ranges are skipped; refusals.
#![tactic(auto)]

use cases::Case;
use refusals::{Answer, Refused};
use std::io;
use std::io::{Print, Stdout};

// The first six ranges of two columns.
fn show(out: Stdout, start: &[u32], end: &[u32]) -> io::Result<()> {
    for (s, e) in start.iter().zip(end.iter()).take(6) {
        print!(out; " {s}-{e}")?;
    }
    Ok(())
}

fn counted(out: Stdout, c: Answer) -> io::Result<()> {
    match c {
        Ok(n) => cases::counted(out, n),
        Err(Refused(r, i)) => cases::refused(out, r, i),
    }
}

// What was answered, and what the answer list holds.
fn answered(out: Stdout, c: Answer, start: &[u32], end: &[u32]) -> io::Result<()> {
    counted(out, c)?;
    show(out, start, end)
}

// With answer columns of x and y numbers.
fn merged(out: Stdout, start: &[u32], end: &[u32], x: usize, y: usize) -> io::Result<()> {
    let mut s = [7u32; 300];
    let mut e = [7u32; 300];
    if x > 300 || y > 300 {
        return Ok(());
    }
    let s = &mut s[..x];
    let e = &mut e[..y];
    let c = range_entries::merged(start, end, s, e);
    answered(out, c, s, e)
}

fn joined(out: Stdout, start: &[u32], end: &[u32], s: u32, e: u32) -> io::Result<()> {
    let mut a = [7u32; 4];
    let mut b = [7u32; 4];
    let c = range_entries::joined(start, end, s, e, &mut a, &mut b);
    answered(out, c, &a, &b)
}

fn union(
    out: Stdout,
    start: &[u32],
    end: &[u32],
    other_start: &[u32],
    other_end: &[u32],
) -> io::Result<()> {
    let mut a = [7u32; 6];
    let mut b = [7u32; 6];
    let c = range_entries::union(start, end, other_start, other_end, &mut a, &mut b);
    answered(out, c, &a, &b)
}

fn clashes(
    out: Stdout,
    start: &[u32],
    end: &[u32],
    other_start: &[u32],
    other_end: &[u32],
) -> io::Result<()> {
    let c = range_entries::clashes(start, end, other_start, other_end);
    match c {
        Ok(b) => cases::yes_or_no(out, b),
        Err(Refused(r, i)) => cases::bad(out, r, i),
    }
}

// The first number of a column; of an empty one, 0.
fn first(column: &[u32]) -> u32 {
    column.first().copied().unwrap_or(0)
}

// Runs an entry, by the first letter of its name.
fn run(out: Stdout, case: &Case) -> io::Result<()> {
    let start = case.column(0);
    let end = case.column(1);
    let other_start = case.column(2);
    let other_end = case.column(3);
    let s = first(other_start);
    let e = first(other_end);
    match case.letter {
        b'u' => union(out, start, end, other_start, other_end)?,
        b'c' => clashes(out, start, end, other_start, other_end)?,
        b'm' => merged(out, start, end, s as usize, e as usize)?,
        b'j' => joined(out, start, end, s, e)?,
        _ => cases::yes_or_no(out, ranges::overlaps(first(start), first(end), s, e))?,
    }
    println!(out)
}

fn main(rt: HostRuntime) -> io::Result<()> {
    let out = rt.stdout();
    let mut text = [0; 4096];
    cases::each(rt.stdin(), out, &mut text, |case| run(out, case))
}
