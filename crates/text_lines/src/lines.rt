// One line of a job text: its group and its fields.
ghost use Rattle.std.specs.Prelude.{◌≡◌, ◌≤◌, ◌<◌, length, ltb};
ghost use Rattle.text_grammar.specs.Numerals.{field_of, number_from, limit};
ghost use Rattle.text_grammar.specs.Groups.{group_count};
ghost use Rattle.text_grammar.specs.Inner.{most_fields};
ghost use Rattle.text_grammar.specs.Lines.{meant};
ghost use Rattle.text_lines.specs.Inner.{FieldsRead, BodyRead, LineRead};

use text_grammar::{
    DASH, GROUP_COUNT, LIMIT, LONGEST, NO_FIELD, dash_at, entry_of, find, group_of,
};

// The number that digits make.
fn value(s: &[u8]) -> u64
    ensures { result ≡ number_from 0 s.now }
{
    let mut v: u64 = 0;
    for &b in s {
        if b < 48 {
            return NO_FIELD;
        }
        if 57 < b {
            return NO_FIELD;
        }
        v = 10 * v + (b - 48) as u64;
        if LIMIT <= v {
            return NO_FIELD;
        }
    }
    v
}

// What a field reads as.
fn field(s: &[u8]) -> u64
    ensures { result ≡ field_of s.now }
{
    if s.len() == 0 {
        return NO_FIELD;
    }
    if s.len() == 1 {
        if s[0] == 45 {
            return DASH;
        }
        return value(s);
    }
    if s[0] == 48 {
        return NO_FIELD;
    }
    value(s)
}

// Whether a field is a number, or `-` where that stands for `d`, a number.
fn allowed(f: u64, d: u64) -> bool
    ensures { result ≡ ltb (meant d f) limit }
{
    if f == DASH {
        return d < LIMIT;
    }
    f < LIMIT
}

// The fields of a group's line, which stand behind the letter and its comma.
fn fields(s: &[u8], k: usize, out: &mut [u64]) -> bool
    requires { (k < group_count) × (most_fields ≤ length out.old) }
    ensures { FieldsRead k s.now out.old result out.new }
{
    let n = entry_of(k).fields;
    let mut at = 0;
    for j in 0..n {
        let e = at + find(&s[at..], b',');
        let f = field(&s[at..e]);
        if !allowed(f, dash_at(k, j)) {
            return false;
        }
        out[j] = f;
        if e == s.len() {
            return j + 1 == n;
        }
        at = e + 1;
    }
    false
}

// The group of what stands before a line's newline, or `GROUP_COUNT`, and its fields.
fn body(b: &[u8], out: &mut [u64]) -> usize
    requires { most_fields ≤ length out.old }
    ensures { BodyRead b.now out.old result out.new }
{
    let e = find(b, b',');
    if e != 1 {
        return GROUP_COUNT;
    }
    let k = group_of(b[0]);
    if k == GROUP_COUNT {
        return GROUP_COUNT;
    }
    if b.len() == 1 {
        return GROUP_COUNT;
    }
    if fields(&b[2..], k, out) {
        return k;
    }
    GROUP_COUNT
}

// The group of a line with its newline, or `GROUP_COUNT` where it is malformed, and its fields in the first numbers of `out`.
pub fn read_line(line: &[u8], out: &mut [u64]) -> usize
    requires { most_fields ≤ length out.old }
    ensures { LineRead line.now out.old result out.new }
{
    let n = line.len();
    if LONGEST < n {
        return GROUP_COUNT;
    }
    if n == 0 {
        return GROUP_COUNT;
    }
    if line[n - 1] != b'\n' {
        return GROUP_COUNT;
    }
    body(&line[0..n - 1], out)
}
