// Runs the walk over a given area on the cases of standard input and prints what it tells: held to the file `stdout`.
// The columns of `walk`: whether the want is present, the first range of its part and how many; the area list. Its line: whether the part is fine, and how many ranges were looked at.
// The columns of `every`: how many ranges, and the lowest point. It walks every list of so many ranges over the four points from there on, reversed ones too, in the order of counting with the
// digits 0 to 3. A list is a character: how many ranges were looked at, a digit where the list is fine, else a letter (a is one); 64 to a line.
// The cases: every part of the area list 1–2, 5–6, 6–9, 3–2, up to one range too far on either side, then absent ones; touching, reversed and equal ranges, also at the highest points;
// an odd number left over; firsts and counts whose sum is over 32 bits; every list of up to three ranges, and of two at the highest points.
#![tactic(auto)]

ghost use Rattle.std.specs.Prelude.{◌≤◌};

use cases::Case;
use range_walk::Look;
use std::io;
use std::io::{Print, Stdout};

fn told(out: Stdout, look: Look) -> io::Result<()> {
    let said = if look.fine { "fine" } else { "bad" };
    let looked = look.looked;
    println!(out; " {said} {looked}")
}

fn mark(out: Stdout, look: Look) -> io::Result<()> {
    let looked = look.looked;
    if look.fine {
        return out.print(looked as u64);
    }
    match looked {
        1 => out.write_all(b"a"),
        2 => out.write_all(b"b"),
        3 => out.write_all(b"c"),
        _ => out.write_all(b"?"),
    }
}

// List k of those over four points: its digits to the base of four.
fn fill(list: &mut [u32], k: usize, low: u32)
    requires { low ≤ 4294967292 }
{
    let mut rest = k;
    for x in list.iter_mut().rev() {
        *x = low + (rest % 4) as u32;
        rest = rest / 4;
    }
}

// The first `count` lists of so many ranges.
fn lists(out: Stdout, list: &mut [u32], ranges: u32, count: usize, low: u32) -> io::Result<()>
    requires { low ≤ 4294967292 }
{
    for k in 0..count {
        if k % 64 == 0 {
            println!(out)?;
        }
        fill(list, k, low);
        mark(out, range_walk::walk(list, 1, 0, ranges))?;
    }
    println!(out)
}

fn every(out: Stdout, ranges: u32, low: u32) -> io::Result<()> {
    if low > 4294967292 {
        return Ok(());
    }
    let mut list = [0u32; 6];
    match ranges {
        0 => lists(out, &mut list[0..0], 0, 1, low),
        1 => lists(out, &mut list[0..2], 1, 16, low),
        2 => lists(out, &mut list[0..4], 2, 256, low),
        _ => lists(out, &mut list, 3, 4096, low),
    }
}

// Runs what a case asks, by the first letter of its name.
fn run(out: Stdout, case: &Case) -> io::Result<()> {
    let x = case.number(0);
    let y = case.number(1);
    match case.letter {
        b'w' => told(out, range_walk::walk(case.column(1), x, y, case.number(2))),
        _ => every(out, x, y),
    }
}

fn main(rt: HostRuntime) -> io::Result<()> {
    let out = rt.stdout();
    let mut text = [0; 8192];
    cases::each(rt.stdin(), out, &mut text, |case| run(out, case))
}
