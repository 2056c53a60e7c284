// The planning program between its reader and its writer: from a job's rows to the bytes that it prints.
#![tactic(auto)]

ghost use Rattle.std.specs.Prelude.{◌≡◌, ◌≤◌, length};
ghost use Rattle.refusals.specs.Verdicts.{number_of, Fine};
ghost use Rattle.text_grammar.specs.Groups.{row_numbers, group_count};
ghost use Rattle.text_plan.specs.Printed.{refusal_text, in_room, PrintedTo};
ghost use Rattle.planning.specs.Program.{printed_for};
ghost use Rattle.planning.specs.Inner.{numbers_at, Few, Read, Tells, Answers};
ghost use Rattle.planning.specs.Answer.{TextPrinted, room_for};

use crate::row_plans::{held, planned};
use refusals::{Answer, Refused, Verdict, number};
use text_grammar::{GROUP_COUNT, LOCALS, ROW_NUMBERS, SLOTS};
use text_lines::text::read_text;
use text_plan::plan_text::{print_plan, print_refusal};
use words::widths::{cell, item};

pub mod row_plans; // row_plans.rt: the whole job of the records that the reader left in its list

fn refuse(e: Refused, out: &mut [u8]) -> Answer
    ensures { PrintedTo (in_room (refusal_text (number_of e.0) e.1) (length out.old)) out.old result out.new }
{
    let Refused(r, i) = e;
    print_refusal(number(r), i as u64, out)
}

// The text of the records' plan, or of their refusal.
fn plan(rows: &[u32], counts: &[u32], out: &mut [u8]) -> Answer
    requires { (length rows.now ≡ row_numbers) × (length counts.now ≡ group_count) × Few counts.now }
    ensures { PrintedTo (in_room (printed_for (numbers_at rows.now counts.now) Fine) (length out.old)) out.old result out.new }
{
    let mut cells = [0u32; 256];
    let mut items = [0u32; 512];
    let mut areas = [0u32; 128];
    let mut offsets = [0i32; 128];
    let mut work = [0u64; 8192];
    let n = held(counts, LOCALS) + held(counts, SLOTS);
    let r = planned(
        rows,
        counts,
        &mut cells,
        &mut items,
        &mut areas,
        &mut offsets,
        &mut work,
    );
    match r {
        Ok(t) => print_plan(
            &cells[0..cell::WIDTH * t.cells],
            &items[0..item::WIDTH * n],
            &areas,
            counts[LOCALS],
            t.probes,
            t.depth,
            out,
        ),
        Err(e) => refuse(e, out),
    }
}

// What the program prints, given what its reader answered and left in its lists.
fn tell(v: Verdict, rows: &[u32], counts: &[u32], out: &mut [u8]) -> Answer
    requires { Read v rows.now counts.now }
    ensures { Tells v rows.now counts.now out.old result out.new }
{
    match v {
        Ok(()) => plan(rows, counts, out),
        Err(bad) => refuse(bad, out),
    }
}

// For the program, whose list has room: how many bytes it prints, and the bytes in the lent list.
pub fn answer(v: Verdict, rows: &[u32], counts: &[u32], out: &mut [u8]) -> usize
    requires { Read v rows.now counts.now × (room_for ≤ length out.old) }
    ensures { Answers v rows.now counts.now out.old result out.new }
{
    tell(v, rows, counts, out).unwrap_or(0)
}

// A job's text in, the program's text out: its plan, or the line of its refusal. Refuses a list that is shorter than that text (7); 65,536 bytes are enough for any.
pub fn print_text(text: &[u8], out: &mut [u8]) -> Answer
    ensures { TextPrinted text.now out.old result out.new }
{
    let mut rows = [0; ROW_NUMBERS];
    let mut counts = [0; GROUP_COUNT];
    let v = read_text(text, &mut rows, &mut counts);
    tell(v, &rows, &counts, out)
}
