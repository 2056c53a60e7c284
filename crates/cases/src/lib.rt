// What the test programs share. A case is a line: its name, a blank, and columns of numbers, a comma after each number and a bar after each column.
#![tactic(auto)]

ghost use Rattle.std.specs.Prelude.{◌≤◌, ◌<◌, length, ◌≡◌, IfOk, get_or};
ghost use Rattle.cases.specs.Inner.{RisingTo, Rising, column_of};

use refusals::{Answer, Refusal, Refused, Verdict, number};
use std::fmt::Display;
use std::io;
use std::io::{Print, Read, Stdin, Stdout};

// The program's bytes on standard input, as many as fit; how many there are.
pub fn input(stdin: Stdin, bytes: &mut [u8]) -> io::Result<usize>
    ensures in_bounds { IfOk result (λ n. n ≤ length bytes.new) }
    ensures kept { length bytes.new ≡ length bytes.old }
{
    let mut from = stdin;
    let mut len = 0;
    while len < bytes.len() {
        let n = from.read(&mut bytes[len..])?;
        if n == 0 {
            return Ok(len);
        }
        len += n;
    }
    Ok(len)
}

// What was answered: a count, or a refusal.
pub fn counted(out: Stdout, n: usize) -> io::Result<()> {
    print!(out; " {n}:")
}

pub fn bad(out: Stdout, r: Refusal, i: usize) -> io::Result<()> {
    let n = number(r);
    print!(out; " refused {n} at {i}")
}

pub fn refused(out: Stdout, r: Refusal, i: usize) -> io::Result<()> {
    bad(out, r, i)?;
    print!(out; ":")
}

pub fn given(out: Stdout, a: Answer) -> io::Result<()> {
    match a {
        Ok(n) => counted(out, n),
        Err(Refused(r, i)) => refused(out, r, i),
    }
}

pub fn verdict(out: Stdout, v: Verdict) -> io::Result<()> {
    match v {
        Ok(()) => print!(out; " fine:"),
        Err(Refused(r, i)) => refused(out, r, i),
    }
}

pub fn yes_or_no(out: Stdout, yes: bool) -> io::Result<()> {
    if yes {
        print!(out; " yes")
    } else {
        print!(out; " no")
    }
}

// A plan: cells, probes and depth.
pub fn plan(out: Stdout, cells: usize, probes: u64, depth: u64) -> io::Result<()> {
    print!(out; " {cells} {probes} {depth}:")
}

pub fn show<T: Display>(out: Stdout, list: &[T]) -> io::Result<()> {
    for x in list {
        print!(out; " {x}")?;
    }
    Ok(())
}

// An answer list that others follow.
pub fn listed(out: Stdout, list: &[u32]) -> io::Result<()> {
    show(out, list)?;
    print!(out; " |")
}

// What was left: an answer list, and how many words at the front of the work space are zero.
pub fn left<T: Display>(out: Stdout, answer: &[T], work: &[u64]) -> io::Result<()> {
    let zeros = work.iter().take_while(|w| **w == 0).count();
    show(out, answer)?;
    println!(out; " | {zeros}")
}

// Where the next such byte stands, or the end.
fn find(text: &[u8], from: usize, byte: u8) -> usize
    requires { from ≤ length text.now }
    ensures { (from ≤ result) × (result ≤ length text.now) }
{
    for i in from..text.len() {
        if text[i] == byte {
            return i;
        }
    }
    text.len()
}

// Columns that a case does not have are empty.
#[tactic(auto, using(crate::proofs::ColumnLaws::rising_more))]
fn rest(ends: &mut [usize], from: usize, n: usize)
    requires { (from ≤ length ends.old) × RisingTo ends.old n from }
    ensures { Rising ends.new n }
{
    for c in from..ends.len() {
        ends[c] = n;
    }
}

// The numbers of a case, and where each column ends; what is past the room is left out. A blank before them is no digit.
#[tactic(auto, using(crate::proofs::ColumnLaws::rising_none, crate::proofs::ColumnLaws::rising_more, crate::proofs::ColumnLaws::rising_within))]
fn read(case: &[u8], numbers: &mut [u32], ends: &mut [usize])
    ensures { Rising ends.new (length numbers.old) }
{
    let mut n = 0;
    let mut c = 0;
    let mut x = 0u64;
    for &b in case {
        if b == b'|' {
            if c < ends.len() {
                ends[c] = n;
                c += 1;
            }
        } else if b == b',' {
            if n < numbers.len() {
                numbers[n] = x as u32;
                n += 1;
            }
            x = 0;
        } else {
            x = (x * 10 + (b % 16) as u64) % 0x1_0000_0000;
        }
    }
    rest(ends, c, n);
}

// A case: the first letter of its name, its numbers, of which there is room for 1,024, and where thirteen columns of them end.
#[derive(Clone, Copy)]
pub struct Case {
    pub letter: u8,
    numbers: [u32; 1024],
    ends: [usize; 13],
    ghost rising: { Rising ends 1024 },
}

impl Case {
    // No column has a number.
    fn empty() -> Case {
        let numbers = [0; 1024];
        let mut ends = [0; 13];
        rest(&mut ends, 0, 0);
        Case {
            letter: b' ',
            numbers,
            ends,
        }
    }

    // The case of the line that begins there; where the next one begins. Behind its numbers stand those of the cases before.
    fn take(&mut self, text: &[u8], from: usize) -> usize
        requires { from < length text.now }
        ensures { from < result }
    {
        let mut ends = [0; 13];
        let blank = find(text, from, b' ');
        let end = find(text, blank, b'\n');
        read(&text[blank..end], &mut self.numbers, &mut ends);
        self.ends = ends;
        self.letter = text[from];
        end + 1
    }

    // The number at a place among all of them.
    pub fn number(&self, k: usize) -> u32
        requires { k < 1024 }
        ensures { result ≡ get_or self.now.numbers k 0 }
    {
        self.numbers[k]
    }

    // A column: from where the one before it ends to where it does.
    pub fn column(&self, k: usize) -> &[u32]
        requires { k < 13 }
        ensures few { length result.now ≤ 1024 }
        ensures column { result.now ≡ column_of self.now.numbers self.now.ends k }
    {
        let from = if k == 0 { 0 } else { self.ends[k - 1] };
        &self.numbers[from..self.ends[k]]
    }
}

// Runs each case of standard input behind its name, as far as the lent bytes have room.
pub fn each<F: FnMut(&Case) -> io::Result<()>>(
    stdin: Stdin,
    out: Stdout,
    text: &mut [u8],
    mut run: F,
) -> io::Result<()>
    requires { F.IsAlwaysCallable run }
{
    let mut case = Case::empty();
    let len = input(stdin, text)?;
    let mut i = 0;
    while i < len {
        let blank = find(text, i, b' ');
        out.write_all(&text[i..blank])?;
        i = case.take(text, i);
        run(&case)?;
    }
    Ok(())
}
