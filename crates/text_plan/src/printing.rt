// Lines of text written into a lent list.
ghost use Rattle.std.specs.Prelude.{◌≡◌, ◌∷◌, ◌+◌, ◌≤◌, ◌<◌, ◌^◌, length, drop};
ghost use Rattle.text_grammar.specs.Numerals.{decimal};
ghost use Rattle.text_plan.specs.Inner.{Puts};
ghost use Rattle.text_plan.specs.Lines.{line_text};

// The decimal digits of a number, in the last bytes of a list of 20; answers where they start.
fn digits(n: u64, buf: &mut [u8]) -> usize
    requires { length buf.old ≡ 20 }
    ensures { (result ≤ 20) × (drop result buf.new ≡ decimal n) }
{
    let mut i = 20;
    let mut m = n;
    while 10 <= m {
        i -= 1;
        buf[i] = (48 + m % 10) as u8;
        m = m / 10;
    }
    i -= 1;
    buf[i] = (48 + m) as u8;
    i
}

// Bytes written from `at` on, as far as there is room; answers where the next one goes.
fn put(out: &mut [u8], at: usize, s: &[u8]) -> usize
    requires { at + length s.now < 2 ^ 64 }
    ensures { Puts s.now out.old at out.new result }
{
    for (i, &b) in s.iter().enumerate() {
        if at + i < out.len() {
            out[at + i] = b;
        }
    }
    at + s.len()
}

// A comma and a number.
fn put_field(out: &mut [u8], at: usize, n: u64) -> usize
    requires { at + 21 < 2 ^ 64 }
    ensures { Puts (44 ∷ decimal n) out.old at out.new result }
{
    let mut buf = [0; 20];
    let i = digits(n, &mut buf);
    let next = put(out, at, b",");
    put(out, next, &buf[i..20])
}

// A line: a letter, its fields and a newline.
pub fn put_line(out: &mut [u8], at: usize, letter: u8, ns: &[u64]) -> usize
    requires { (at + 128 < 2 ^ 64) × (length ns.now ≤ 4) }
    ensures { Puts (line_text letter ns.now) out.old at out.new result }
{
    let first = [letter; 1];
    let mut next = put(out, at, &first);
    for &n in ns {
        next = put_field(out, next, n);
    }
    put(out, next, b"\n")
}
