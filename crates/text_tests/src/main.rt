// Reads job texts and prints what is answered: the verdict, and how many records each group has; the texts of a plan and of a refusal; lists that are too short and
// texts in lent lists. Then the text on standard input, in pieces of seven bytes, and its rows. Held to the file `stdout`.
#![tactic(auto)]

ghost use Rattle.std.specs.Prelude.{◌≡◌, ◌≤◌, length};
ghost use Rattle.text_grammar.specs.Groups.{group_count, row_numbers};

use planning::print_text;
use refusals::{Answer, Refusal, Refused, Verdict, number};
use std::io;
use std::io::{Print, Stdout};
use text_grammar::{GROUP_COUNT, INSTS, MOST_FIELDS, ROW_NUMBERS, entry_of};
use text_lines::text::{feed, finish, read_text, start};

fn refused(stdout: Stdout, r: Refusal, i: usize) -> io::Result<()> {
    let n = number(r);
    println!(stdout; "N,{n},{i}")
}

// A list, a line.
fn counted(stdout: Stdout, counts: &[u32]) -> io::Result<()> {
    cases::show(stdout, counts)?;
    println!(stdout)
}

// What a reading answers: a word and the counts, or the refusal.
fn told(stdout: Stdout, v: Verdict, word: &str, counts: &[u32]) -> io::Result<()> {
    match v {
        Ok(()) => {
            print!(stdout; "{word}")?;
            counted(stdout, counts)
        }
        Err(Refused(r, i)) => refused(stdout, r, i),
    }
}

fn case(stdout: Stdout, text: &[u8]) -> io::Result<()> {
    let mut rows = [0; ROW_NUMBERS];
    let mut counts = [0; GROUP_COUNT];
    let v = read_text(text, &mut rows, &mut counts);
    told(stdout, v, "fine", &counts)
}

// The order of the lines, and then their fields.
fn texts(stdout: Stdout) -> io::Result<()> {
    let texts: [&str; 21] = [
        "",
        "H,20,0,1048576",
        "H,20,0,1048576\n",
        "H,20,65,1048576\n",
        "H,20,0,1048576\nH,20,0,1048576\n",
        "B,0,0,19\n",
        "H,20,0,0\nO,0,0\n",
        "H,20,0,0\nI,-,2,3,0,0,-,-\nO,0,0\nO,1,1\nI,0,2,3,0,0,-,-\nX,5\n",
        "H,20,0,0\nX,5\nI,0,2,3,0,0,-,-\n",
        "H,20,0,0\n\nX,5\n",
        "H,20,0,0\r\n",
        "H,020,0,0\n",
        "H,4294967295,0,0\n",
        "H,4294967296,0,0\n",
        "H,20,0\n",
        "H,20,0,0,0\n",
        "H,-,0,0\n",
        "H,20,0,0\nP,0,-\nM,0,1,-,-\n",
        "H,20,0,0\nP,-,0\n",
        "H,20,0,0\nQ,0\n",
        "H,20,0,0\nX,1111111111111111111111111111111111111111111111111111111111111111111111111111111111111111111111111111111111111111111111111111111111\nX,1\n",
    ];
    for text in texts {
        case(stdout, text.as_bytes())?;
    }
    Ok(())
}

fn written(stdout: Stdout, w: Answer, out: &[u8]) -> io::Result<()> {
    match w {
        Ok(n) => {
            if n <= out.len() {
                stdout.write_all(&out[0..n])?;
            }
        }
        Err(Refused(r, i)) => refused(stdout, r, i)?,
    }
    Ok(())
}

fn plan(stdout: Stdout, out: &mut [u8]) -> io::Result<()> {
    let cells = [8, 8];
    let items = [0, 1, 0, 1, 0, 1, 1, 1];
    let areas = [2, 3, 6, 7];
    let w = text_plan::plan_text::print_plan(&cells, &items, &areas, 2, 1, 8, out);
    written(stdout, w, out)
}

fn refusal(stdout: Stdout, out: &mut [u8]) -> io::Result<()> {
    let w = text_plan::plan_text::print_refusal(11, 4, out);
    written(stdout, w, out)
}

// In room enough, and in too little.
fn plans(stdout: Stdout) -> io::Result<()> {
    let mut out = [0; 64];
    let mut short = [0; 40];
    plan(stdout, &mut out)?;
    plan(stdout, &mut short)?;
    refusal(stdout, &mut out)
}

// How many numbers are no longer 7.
fn changed(s: &[u32]) -> usize
    ensures { result ≤ length s.now }
{
    s.iter().filter(|x| **x != 7).count()
}

// What is answered, and how many numbers of each list are written.
fn lent(stdout: Stdout, text: &[u8], rows: &mut [u32], counts: &mut [u32]) -> io::Result<()> {
    let v = read_text(text, rows, counts);
    match v {
        Ok(()) => println!(stdout; "fine")?,
        Err(Refused(r, i)) => refused(stdout, r, i)?,
    }
    let of_rows = changed(rows);
    let of_counts = changed(counts);
    println!(stdout; "{of_rows} {of_counts}")
}

// 11 before 1 before 7: a refusal leaves both lists as they were, and so do numbers past the answer.
fn lists(stdout: Stdout) -> io::Result<()> {
    let mut rows = [7; 2116];
    let mut counts = [7; 14];
    let mut short = [7; 2114];
    let mut few = [7; 12];
    lent(stdout, b"H,20,65,0\nQ,0\n", &mut short, &mut few)?;
    lent(stdout, b"H,20,65,0\n", &mut short, &mut few)?;
    lent(stdout, b"H,20,64,0\n", &mut short, &mut counts)?;
    lent(stdout, b"H,20,64,0\n", &mut rows, &mut few)?;
    lent(stdout, b"H,20,65,0\n", &mut rows, &mut counts)?;
    lent(stdout, b"H,20,64,0\n", &mut rows, &mut counts)
}

// What `print_text` answers, and the whole list.
fn printed(stdout: Stdout, text: &[u8], out: &mut [u8]) -> io::Result<()> {
    let w = print_text(text, out);
    match w {
        Ok(n) => {
            println!(stdout; "{n}")?;
        }
        Err(Refused(r, i)) => refused(stdout, r, i)?,
    }
    stdout.write_all(out)?;
    println!(stdout; "|")
}

fn star(stdout: Stdout, out: &mut [u8]) -> io::Result<()> {
    printed(
        stdout,
        b"H,20,0,1048576\nB,0,0,19\nI,0,2,3,0,0,-,-\nI,0,6,7,0,0,-,-\nL,8,8\nL,4,4\nA,0,0\nA,1,1\n",
        out,
    )
}

// In a list as long as the text, in one that is a byte shorter, and in a longer one; a refused job, and a malformed line.
fn programs(stdout: Stdout) -> io::Result<()> {
    let mut exact = [b'.'; 46];
    let mut short = [b'.'; 45];
    let mut more = [b'.'; 50];
    star(stdout, &mut exact)?;
    star(stdout, &mut short)?;
    star(stdout, &mut more)?;
    let mut line = [b'.'; 7];
    let mut less = [b'.'; 6];
    printed(stdout, b"H,20,0,0\n\n", &mut line)?;
    printed(stdout, b"H,20,0,0\n\n", &mut less)?;
    printed(stdout, b"H,20,0,0\nB,1,0,19\n", &mut less)
}

// A text, seven bytes at a time.
fn pieces(text: &[u8], rows: &mut [u32], counts: &mut [u32]) -> Verdict
    requires { (length rows.old ≡ row_numbers) × (length counts.old ≡ group_count) }
{
    let mut line = [0; 128];
    let mut fields = [0; MOST_FIELDS];
    let mut s = start(&mut line, rows, counts);
    let mut rest = text;
    while !rest.is_empty() {
        let (piece, more) = rest.split_at(rest.len().min(7));
        s = feed(s, piece, &mut line, &mut fields, rows, counts);
        rest = more;
    }
    finish(s, rows)
}

fn input(stdout: Stdout, text: &[u8]) -> io::Result<()> {
    let mut rows = [0; ROW_NUMBERS];
    let mut counts = [0; GROUP_COUNT];
    let v = pieces(text, &mut rows, &mut counts);
    told(stdout, v, "", &counts)?;
    let insts = entry_of(INSTS).base;
    counted(stdout, &rows[insts..insts + 18])
}

fn main(rt: HostRuntime) -> io::Result<()> {
    let stdout = rt.stdout();
    texts(stdout)?;
    plans(stdout)?;
    lists(stdout)?;
    programs(stdout)?;
    let mut text = [0; 256];
    let n = cases::input(rt.stdin(), &mut text)?;
    input(stdout, &text[0..n])
}
