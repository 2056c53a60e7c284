// A job text, read byte by byte through a line buffer: nothing is cut off, and no line is kept but the one that is read.
ghost use Rattle.std.specs.Prelude.{◌≡◌, ◌∷◌, [], ◌+◌, ◌≤◌, ◌<◌, length, get_or};
ghost use Rattle.words.specs.Inner.{Region, part};
ghost use Rattle.text_grammar.specs.Groups.{group_count, row_numbers};
ghost use Rattle.text_grammar.specs.Inner.{most_fields};
ghost use Rattle.text_grammar.specs.Lines.{longest};
ghost use Rattle.text_lines.specs.Inner.{Reading, Ready, Feeds, Finishes, Finished, Copyable, Copied};
ghost use Rattle.text_lines.specs.Read.{TextRead};

use crate::job_rows::{Reader, malformed, take_line};
use refusals::{Refusal, Refused, Verdict};
use text_grammar::{ALLOWED, GROUP_COUNT, LONGEST, MOST_FIELDS, REGISTERS, ROW_NUMBERS, entry_of};

// What is known of the lines so far, and how many bytes of the next one stand in the line buffer.
#[derive(Clone, Copy)]
pub struct State {
    pub reader: Reader,
    pub len: usize,
}

// Nothing is read yet.
pub fn start(line: &mut [u8], rows: &mut [u32], counts: &mut [u32]) -> State
    requires { (length line.old ≡ longest) × (length rows.old ≡ row_numbers) × (length counts.old ≡ group_count) }
    ensures { Reading [] result.reader result.len line.new rows.new counts.new }
{
    counts.fill(0);
    State {
        reader: Reader {
            lines: 0,
            place: 0,
            bad: false,
            at: 0,
            full: false,
        },
        len: 0,
    }
}

// One byte more.
fn take_byte(
    s: State,
    b: u8,
    line: &mut [u8],
    fields: &mut [u64],
    rows: &mut [u32],
    counts: &mut [u32],
) -> State
    requires { (most_fields ≤ length fields.old) × Ready s.reader s.len line.old rows.old counts.old 1 }
    ensures { Feeds (b ∷ []) s.reader s.len line.old fields.old rows.old counts.old
        result.reader result.len line.new fields.new rows.new counts.new }
{
    let n = s.len;
    let r = s.reader;
    if LONGEST <= n {
        if b == b'\n' {
            return State {
                reader: malformed(r),
                len: 0,
            };
        }
        return s;
    }
    line[n] = b;
    if b != b'\n' {
        return State {
            reader: r,
            len: n + 1,
        };
    }
    let q = take_line(r, &line[0..n + 1], fields, rows, counts);
    State { reader: q, len: 0 }
}

// A piece of the text more: as many bytes as the caller has.
pub fn feed(
    s: State,
    piece: &[u8],
    line: &mut [u8],
    fields: &mut [u64],
    rows: &mut [u32],
    counts: &mut [u32],
) -> State
    requires { (most_fields ≤ length fields.old) × Ready s.reader s.len line.old rows.old counts.old (length piece.now) }
    ensures { Feeds piece.now s.reader s.len line.old fields.old rows.old counts.old
        result.reader result.len line.new fields.new rows.new counts.new }
{
    let mut q = s;
    for &b in piece {
        q = take_byte(q, b, line, fields, rows, counts);
    }
    q
}

// The text ends here: 11 before 1.
pub fn finish(s: State, rows: &[u32]) -> Verdict
    requires { length rows.now ≡ row_numbers }
    ensures { Finishes s.reader s.len rows.now result }
{
    let r = s.reader;
    if r.bad {
        return Err(Refused(Refusal::Text, r.at));
    }
    if 0 < s.len {
        return Err(Refused(Refusal::Text, r.lines));
    }
    if r.lines == 0 {
        return Err(Refused(Refusal::Text, 0));
    }
    if r.full {
        return Err(Refused(Refusal::Count, 0));
    }
    if ALLOWED < rows[REGISTERS] {
        return Err(Refused(Refusal::Count, 0));
    }
    Ok(())
}

// A whole text into the reader's own lists.
fn read_all(text: &[u8], rows: &mut [u32], counts: &mut [u32]) -> Verdict
    requires { (length rows.old ≡ row_numbers) × (length counts.old ≡ group_count) }
    ensures { Finished text.now result rows.new counts.new }
{
    let mut line = [0; 128];
    let mut fields = [0; MOST_FIELDS];
    let s = start(&mut line, rows, counts);
    let q = feed(s, text, &mut line, &mut fields, rows, counts);
    finish(q, rows)
}

// A group's `len` numbers from `base` on, and zeros as far as it has room.
fn copy_group(held: &[u32], base: usize, len: usize, room: usize, rows: &mut [u32])
    requires { (base + room ≤ length held.now) × (base + room ≤ length rows.old) }
    ensures { Region rows.old rows.new base room (λ j. get_or (part base len held.now) j 0) }
{
    for j in 0..room {
        if j < len {
            rows[base + j] = held[base + j];
        } else {
            rows[base + j] = 0;
        }
    }
}

// An accepted text's rows and counts, in lent lists.
fn copy_all(held: &[u32], counted: &[u32], rows: &mut [u32], counts: &mut [u32])
    requires { Copyable held.now counted.now rows.old counts.old }
    ensures { Copied held.now counted.now rows.old counts.old rows.new counts.new }
{
    for k in 0..GROUP_COUNT {
        let e = entry_of(k);
        let n = counted[k];
        copy_group(held, e.base, e.width * n as usize, e.width * e.room, rows);
        counts[k] = n;
    }
}

// Reads a whole text: the rows of its groups, each group's at its place with zeros behind them, and how many there are. Refuses the first
// malformed line (11), more than 64 records of a group or numbered registers (1), and lists of under 2,115 and 13 numbers (7), in this order.
pub fn read_text(text: &[u8], rows: &mut [u32], counts: &mut [u32]) -> Verdict
    ensures { TextRead text.now rows.old counts.old result rows.new counts.new }
{
    let mut held = [0; ROW_NUMBERS];
    let mut counted = [0; GROUP_COUNT];
    let v = read_all(text, &mut held, &mut counted);
    let s = refusals::room(rows.len(), ROW_NUMBERS, counts.len(), GROUP_COUNT);
    v.and(s)?;
    copy_all(&held, &counted, rows, counts);
    Ok(())
}
