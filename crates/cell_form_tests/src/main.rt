// Runs `cap_cell` over a lent cell: held to the file `stdout`. `cap` lends its local.
#![tactic(auto)]

use capping::Cell;
use std::io;
use std::io::{Print, Stdout};

fn cap(out: Stdout, size: u32, align: u32, most: u32) -> io::Result<()> {
    let mut cell = Cell { size, align };
    capping::cap_cell(&mut cell, most);
    let Cell { size, align } = cell;
    println!(out; "cap {size} {align}")
}

// Above the maximum, at it, below it, and a maximum of 0.
fn main(rt: HostRuntime) -> io::Result<()> {
    let out = rt.stdout();
    cap(out, 24, 16, 8)?;
    cap(out, 24, 8, 8)?;
    cap(out, 24, 4, 8)?;
    cap(out, 4294967295, 4294967295, 0)
}
