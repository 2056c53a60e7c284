// Rows of locals, a row a place, turned into rows of places, a row a local.
#![tactic(auto)]

ghost use Rattle.std.specs.Prelude.{◌≡◌, true, ℕ, ◌+◌, ◌*◌, ◌<◌};
ghost use Rattle.bits.specs.Bits.{bit_of};
ghost use Rattle.area_rows.specs.Inner.{Fits, Put};
ghost use Rattle.row_turns.specs.Inner.{column_of, both, Turnable, Turned};

use area_rows::{Column, marks};

// Two sets of rows of n places, `words` words each, from `one` and from `two` on, and the rows of `locals` locals, `width` words each, from `to` on.
#[derive(Clone, Copy)]
pub struct Turn {
    pub n: usize,
    pub words: usize,
    pub one: usize,
    pub two: usize,
    pub locals: usize,
    pub width: usize,
    pub to: usize,
}

// Sets the column's bit in the row of each local that word i of a place's row has, lowest first: bit b of the word is local 64 i + b.
fn scatter(work: &mut [u64], c: Column, i: usize, word: u64)
    requires { Fits c work.old × ((b : ℕ) → b < 64 → bit_of word b ≡ true → i * 64 + b < c.n) }
    ensures { Put c true (λ l. (b : ℕ) × (b < 64) × (l ≡ i * 64 + b) × (bit_of word b ≡ true)) work.old work.new }
{
    let mut left = word;
    while left != 0 {
        let b = bits::lowest(left);
        marks::mark(work, c, i * 64 + b);
        left = bits::without_lowest(left);
    }
}

// Sets bit k in the row of each local that both rows of place k have.
fn turn_row(work: &mut [u64], t: Turn, k: usize)
    requires { Turnable t work.old × (k < t.n) }
    ensures { Put (column_of t k) true (λ l. both t work.old k l ≡ true) work.old work.new }
{
    let one = t.one + k * t.words;
    let two = t.two + k * t.words;
    let c = Column {
        n: t.locals,
        base: t.to,
        words: t.width,
        bit: k,
    };
    for i in 0..t.words {
        let word = work[one + i] & work[two + i];
        scatter(work, c, i, word);
    }
}

// Sets bit k in the row of each local that both rows of place k have, for every place.
pub fn by_local(work: &mut [u64], t: Turn)
    requires { Turnable t work.old }
    ensures { Turned t work.old work.new }
{
    for k in 0..t.n {
        turn_row(work, t, k);
    }
}
