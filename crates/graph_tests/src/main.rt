// Graphs of every shape through `components`, `flowed`, `settling` and `spread`, with what they answer on standard output: held to the file `stdout`.
// A line each: the shape's letter, then c for components, p and s for flowed over predecessors and successors, o for the order, a for what
// arrives. Rows are one word; bit k of the rows lent is set at place k only. Entries of 9 past the answer were there before.
// A case's name is its shape's letter. Its columns: points, the length of the work space; blocks, edges. With a work space under 256 words only `components` is asked.
// The shapes: a, no edge; b, a chain; c, a self loop; d, a loop of two blocks, and on; e, a loop with two entries; f, blocks that the first does not reach; g, duplicate edges; h, a chain laid out
// against its edges; i, block numbers out of line order; j, refusal 2 at block 2; k, refusal 2 at the last block; l, refusal 3 at edge 1; m, refusal 1: a row cut short; n, refusal 7: one
// word under W.
#![tactic(auto)]

use cases::Case;
use flow::Over;
use refusals::{Refusal, Refused};
use std::fmt::Display;
use std::io;
use std::io::{Print, Stdout};
use words::widths::block;

fn begin(stdout: Stdout, shape: u8, part: u8) -> io::Result<()> {
    let head = [shape, part];
    stdout.write_all(&head)
}

fn row<T: Display>(stdout: Stdout, list: &[T]) -> io::Result<()> {
    cases::show(stdout, list)?;
    println!(stdout)
}

fn refused(stdout: Stdout, r: Refusal, i: usize) -> io::Result<()> {
    let n = refusals::number(r);
    print!(stdout; " {n} {i}")
}

fn show_components(
    stdout: Stdout,
    blocks: &[u32],
    edges: &[u32],
    points: u32,
    work: &mut [u64],
) -> io::Result<()> {
    let mut which: [u32; 6] = [9; 6];
    print!(stdout; "c")?;
    let answer = components::components(blocks, edges, points, &mut which, work);
    match answer {
        Ok(count) => print!(stdout; " {count}")?,
        Err(Refused(r, i)) => refused(stdout, r, i)?,
    }
    row(stdout, &which)
}

fn show_flowed(
    stdout: Stdout,
    shape: u8,
    part: u8,
    over: Over,
    blocks: &[u32],
    edges: &[u32],
    points: u32,
    touched: &[u64],
    work: &mut [u64],
) -> io::Result<()> {
    let mut out: [u64; 6] = [9; 6];
    begin(stdout, shape, part)?;
    let answer = flow::flowed(over, blocks, edges, points, touched, 1, &mut out, work);
    match answer {
        Ok(()) => {}
        Err(Refused(r, i)) => refused(stdout, r, i)?,
    }
    row(stdout, &out)
}

fn show_settling(
    stdout: Stdout,
    shape: u8,
    blocks: &[u32],
    edges: &[u32],
    points: u32,
    work: &mut [u64],
) -> io::Result<()> {
    let mut order: [u32; 6] = [9; 6];
    begin(stdout, shape, b'o')?;
    let answer = spread::settling(blocks, edges, points, &mut order, work);
    match answer {
        Ok(()) => {}
        Err(Refused(r, i)) => refused(stdout, r, i)?,
    }
    row(stdout, &order)
}

fn show_spread(
    stdout: Stdout,
    shape: u8,
    blocks: &[u32],
    edges: &[u32],
    points: u32,
    leaves: &[u64],
    passes: &[u64],
    work: &mut [u64],
) -> io::Result<()> {
    let mut out: [u64; 6] = [9; 6];
    begin(stdout, shape, b'a')?;
    let answer = spread::spread(blocks, edges, points, leaves, passes, 1, &mut out, work);
    match answer {
        Ok(()) => {}
        Err(Refused(r, i)) => refused(stdout, r, i)?,
    }
    row(stdout, &out)
}

fn show_rows(
    stdout: Stdout,
    shape: u8,
    blocks: &[u32],
    edges: &[u32],
    points: u32,
    bits: &[u64],
    passes: &[u64],
    work: &mut [u64],
) -> io::Result<()> {
    let n = blocks.len() / block::WIDTH;
    if n <= bits.len() {
        show_flowed(
            stdout,
            shape,
            b'p',
            Over::Predecessors,
            blocks,
            edges,
            points,
            &bits[..n],
            work,
        )?;
        show_flowed(
            stdout,
            shape,
            b's',
            Over::Successors,
            blocks,
            edges,
            points,
            &bits[..n],
            work,
        )?;
        if n <= passes.len() {
            show_spread(
                stdout,
                shape,
                blocks,
                edges,
                points,
                &bits[..n],
                &passes[..n],
                work,
            )?;
        }
    }
    Ok(())
}

// All of them for one graph; place 1 lets nothing pass.
fn show(
    stdout: Stdout,
    shape: u8,
    blocks: &[u32],
    edges: &[u32],
    points: u32,
    words: usize,
) -> io::Result<()> {
    let bits: [u64; 6] = [1, 2, 4, 8, 16, 32];
    let passes: [u64; 6] = [63, 0, 63, 63, 63, 63];
    let mut work: [u64; 256] = [0; 256];
    if words < 256 {
        show_components(stdout, blocks, edges, points, &mut work[0..words])?;
        return Ok(());
    }
    show_components(stdout, blocks, edges, points, &mut work)?;
    show_settling(stdout, shape, blocks, edges, points, &mut work)?;
    show_rows(
        stdout, shape, blocks, edges, points, &bits, &passes, &mut work,
    )
}

fn run(out: Stdout, case: &Case) -> io::Result<()> {
    show(
        out,
        case.letter,
        case.column(1),
        case.column(2),
        case.number(0),
        case.number(1) as usize,
    )
}

fn main(rt: HostRuntime) -> io::Result<()> {
    let out = rt.stdout();
    let mut text = [0; 4096];
    cases::each(rt.stdin(), out, &mut text, |case| run(out, case))
}
