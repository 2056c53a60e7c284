// What every program that takes a job's text does first: reads it from standard input.
#![tactic(auto)]

ghost use Rattle.std.specs.Prelude.{◌≡◌, length, IfOk};
ghost use Rattle.text_grammar.specs.Groups.{group_count, row_numbers};
ghost use Rattle.planning.specs.Inner.{Read};

use refusals::Verdict;
use std::io;
use std::io::{Read, Stdin};
use text_grammar::MOST_FIELDS;
use text_lines::text::{feed, finish, start};

// Reads all of standard input, a piece at a time. Where a read fails its error is given, and the lists hold what was read so far.
pub fn input(stdin: Stdin, rows: &mut [u32], counts: &mut [u32]) -> io::Result<Verdict>
    requires { (length rows.old ≡ row_numbers) × (length counts.old ≡ group_count) }
    ensures read { IfOk result (λ v. Read v rows.new counts.new) }
    ensures kept { (length rows.new ≡ length rows.old) × (length counts.new ≡ length counts.old) }
{
    let mut from = stdin;
    let mut line = [0; 128];
    let mut fields = [0; MOST_FIELDS];
    let mut piece = [0; 4096];
    let mut s = start(&mut line, rows, counts);
    for turn in 0..0x8_0000_0000_0000_u64 {
        let n = from.read(&mut piece)?;
        if n == 0 {
            return Ok(finish(s, rows));
        }
        s = feed(s, &piece[0..n], &mut line, &mut fields, rows, counts);
    }
    Ok(finish(s, rows))
}
