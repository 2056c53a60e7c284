// The records of a job text in the reader's lists: its lines are taken one after another.
ghost use Rattle.std.specs.Prelude.{◌≡◌, ◌&&◌, suc, ◌+◌, ◌-◌, ◌*◌, ◌≤◌, ◌<◌, ◌^◌, ltb, length, get_or, set};
ghost use Rattle.words.specs.Inner.{Region};
ghost use Rattle.text_grammar.specs.Numerals.{limit};
ghost use Rattle.text_grammar.specs.Groups.{group_at, group_count, inst_group, may_follow, row_numbers, allowed};
ghost use Rattle.text_grammar.specs.Inner.{most_fields};
ghost use Rattle.text_grammar.specs.Lines.{meant};
ghost use Rattle.text_grammar.specs.Text.{numbers, row_with};
ghost use Rattle.text_lines.specs.Inner.{Meant, Storable, Put, count_at, Reads, Takes, Refuses, accepts, crowds};

use crate::lines::read_line;
use text_grammar::{DASH, GROUP_COUNT, INSTS, OPERANDS, dash_at, entry_of};

// How many fields an instruction's line has; its row has a flag before them and its operand count behind.
const INST_FIELDS: usize = 7;

const COUNT_PLACE: usize = INST_FIELDS + 1;

// What is known of the lines so far: how many there are, the place of the last one in the order of groups, whether one was malformed and
// which was the first, and whether a group has more lines than rows.
#[derive(Clone, Copy)]
pub struct Reader {
    pub lines: usize,
    pub place: usize,
    pub bad: bool,
    pub at: usize,
    pub full: bool,
}

// The number that a field means.
fn number(f: u64, d: u64) -> u32
    requires { meant d f < limit }
    ensures { result ≡ meant d f }
{
    if f == DASH {
        return d as u32;
    }
    f as u32
}

// What the fields of a line mean, from `at` on.
fn put_numbers(k: usize, n: usize, fields: &[u64], rows: &mut [u32], at: usize)
    requires { Meant k fields.now × (n ≡ length (group_at k).dashes) × (at + n ≤ length rows.old) }
    ensures { Region rows.old rows.new at n (λ j. get_or (numbers (group_at k).dashes fields.now) j 0) }
{
    for j in 0..n {
        rows[at + j] = number(fields[j], dash_at(k, j));
    }
}

// An instruction's row: whether it is placed, its fields, and no operand yet.
fn put_inst(fields: &[u64], rows: &mut [u32], at: usize)
    requires { Meant inst_group fields.now × (at + (group_at inst_group).width ≤ length rows.old) }
    ensures { Region rows.old rows.new at (group_at inst_group).width (λ j. get_or (row_with inst_group fields.now 0) j 0) }
{
    put_numbers(INSTS, INST_FIELDS, fields, rows, at + 1);
    rows[at + COUNT_PLACE] = 0;
    if fields[0] == DASH {
        rows[at] = 0;
        return;
    }
    rows[at] = 1;
}

// The row of a line.
fn put(k: usize, fields: &[u64], rows: &mut [u32], at: usize)
    requires { Meant k fields.now × (at + (group_at k).width ≤ length rows.old) }
    ensures { Region rows.old rows.new at (group_at k).width (λ j. get_or (row_with k fields.now 0) j 0) }
{
    if k == INSTS {
        put_inst(fields, rows, at);
        return;
    }
    put_numbers(k, entry_of(k).fields, fields, rows, at);
}

// One operand more in the row of instruction `i - 1`.
fn raise(rows: &mut [u32], i: usize)
    requires { (i ≤ allowed) × (length rows.old ≡ row_numbers) × (get_or rows.old (count_at i) 0 ≤ allowed) }
    ensures { rows.new ≡ set rows.old (count_at i) (suc (get_or rows.old (count_at i) 0)) }
{
    let e = entry_of(INSTS);
    let at = e.base - 1 + e.width * i;
    rows[at] = rows[at] + 1;
}

// The row of a line behind those of its group; an operand is counted in its instruction's row.
fn store(k: usize, fields: &[u64], rows: &mut [u32], counts: &mut [u32])
    requires { Storable k fields.now rows.old counts.old }
    ensures { Put k fields.now rows.old counts.old rows.new counts.new }
{
    let e = entry_of(k);
    let n = counts[k];
    let insts = counts[INSTS] as usize;
    put(k, fields, rows, e.base + e.width * n as usize);
    counts[k] = n + 1;
    if k == OPERANDS {
        raise(rows, insts);
        return;
    }
}

// Whether a line of group `k` may stand behind one at `place`; `GROUP_COUNT` is no group.
fn follows(k: usize, place: usize) -> bool
    ensures { result ≡ (ltb k group_count && may_follow place k) }
{
    if GROUP_COUNT <= k {
        return false;
    }
    let e = entry_of(k);
    if place < e.least {
        return false;
    }
    place <= e.most
}

// Whether the reader takes a line of group `k` for its next.
fn accepted(r: Reader, k: usize) -> bool
    ensures { result ≡ accepts r k }
{
    if r.bad {
        return false;
    }
    follows(k, r.place)
}

// Whether there is no room for a row behind `n` others.
fn crowded(r: Reader, room: usize, n: u32) -> bool
    ensures { result ≡ crowds r room n }
{
    if r.full {
        return true;
    }
    room <= n as usize
}

// A line that is malformed, by itself or by its place.
pub fn malformed(r: Reader) -> Reader
    requires { r.lines < 2 ^ 64 - 1 }
    ensures { Refuses r result }
{
    if r.bad {
        return Reader {
            lines: r.lines + 1,
            place: r.place,
            bad: true,
            at: r.at,
            full: r.full,
        };
    }
    Reader {
        lines: r.lines + 1,
        place: r.place,
        bad: true,
        at: r.lines,
        full: r.full,
    }
}

// Takes a line with its newline: checks it, and stores its record while there is room for all.
pub fn take_line(
    r: Reader,
    line: &[u8],
    fields: &mut [u64],
    rows: &mut [u32],
    counts: &mut [u32],
) -> Reader
    requires { (most_fields ≤ length fields.old) × (r.lines < 2 ^ 64 - 1) × Reads r rows.old counts.old }
    ensures { Takes line.now r rows.old counts.old result rows.new counts.new }
{
    let k = read_line(line, fields);
    if !accepted(r, k) {
        return malformed(r);
    }
    let e = entry_of(k);
    if crowded(r, e.room, counts[k]) {
        return Reader {
            lines: r.lines + 1,
            place: e.place,
            bad: false,
            at: 0,
            full: true,
        };
    }
    store(k, fields, rows, counts);
    Reader {
        lines: r.lines + 1,
        place: e.place,
        bad: false,
        at: 0,
        full: false,
    }
}
