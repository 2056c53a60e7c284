// Answers in one number, for C and Rust: below 2 to the 32 an answer, or a refusal's number times 2 to the 32 plus its index, or that there is none.
#![tactic(auto)]

ghost use Rattle.std.specs.Prelude.{◌≡◌, ◌∷◌, ◌≤◌, length, drop};
ghost use Rattle.refusals.specs.Verdicts.{number_of};
ghost use Rattle.refusals.specs.Outcomes.{answered, found};
ghost use Rattle.codes.specs.Codes.{truth_of, verdict_code, count_code, option_code, refusal_code};

use refusals::{Answer, Refusal, Refused, Verdict};

const HIGH: u64 = 0x1_0000_0000;

// That there is no such answer.
pub const ABSENT: u64 = 0xffff_ffff_ffff_ffff;

pub fn refused(r: Refusal, i: usize) -> u64
    ensures { result ≡ refusal_code (number_of r) i }
{
    let k = refusals::number(r) as u64;
    k * HIGH + (i as u64) % HIGH
}

pub fn verdict(v: Verdict) -> u64
    ensures { result ≡ verdict_code v }
{
    match v {
        Ok(()) => 0,
        Err(Refused(r, i)) => refused(r, i),
    }
}

// How many of what was listed.
pub fn answer(a: Answer) -> u64
    ensures { result ≡ count_code (answered a) }
{
    match a {
        Ok(n) => n as u64,
        Err(Refused(r, i)) => refused(r, i),
    }
}

// A number that may be absent.
pub fn found(f: Result<Option<usize>, Refused>) -> u64
    ensures { result ≡ option_code (found f) }
{
    match f {
        Ok(Some(n)) => n as u64,
        Ok(None) => ABSENT,
        Err(Refused(r, i)) => refused(r, i),
    }
}

pub fn truth(b: bool) -> u64
    ensures { result ≡ truth_of b }
{
    if b {
        return 1;
    }
    0
}

// A plan's counts.
pub fn tell(counts: &mut [u64], cells: usize, probes: u64, depth: u64)
    requires { 3 ≤ length counts.old }
    ensures { counts.new ≡ cells ∷ probes ∷ depth ∷ drop 3 counts.old }
{
    counts[0] = cells as u64;
    counts[1] = probes;
    counts[2] = depth;
}
