// The refusals of documents 01 and 02, and the verdict of a check.
#![tactic(auto)]

ghost use Rattle.std.specs.Prelude.{◌≡◌};
ghost use Rattle.refusals.specs.Verdicts.{number_of, first, room_verdict};

// What is turned back, by the words of document 01's table and of document 02's numbers.
#[derive(Clone, Copy)]
pub enum Refusal {
    Count,
    Line,
    Edge,
    Inst,
    Stray,
    Piece,
    Space,
    List,
    Want,
    Text,
    Align,
    Depth,
}

// A refusal, and the index of its first offending record.
#[derive(Clone, Copy)]
pub struct Refused(pub Refusal, pub usize);

// Of a check: nothing to refuse, or its refusal.
pub type Verdict = Result<(), Refused>;

// How many an entry gives of what it lists, or its refusal.
pub type Answer = Result<usize, Refused>;

// The number of a refusal. 8 is retired and not given out again.
pub fn number(r: Refusal) -> u32
    ensures { result ≡ number_of r }
{
    match r {
        Refusal::Count => 1,
        Refusal::Line => 2,
        Refusal::Edge => 3,
        Refusal::Inst => 4,
        Refusal::Stray => 5,
        Refusal::Piece => 6,
        Refusal::Space => 7,
        Refusal::List => 9,
        Refusal::Want => 10,
        Refusal::Text => 11,
        Refusal::Align => 12,
        Refusal::Depth => 13,
    }
}

// The first of two verdicts that is a refusal: checks are made in order, and the first to refuse wins.
#[tactic(auto, unfolding(crate::specs::Verdicts::first))]
pub fn earlier(v: Verdict, w: Verdict) -> Verdict
    ensures { result ≡ first v w }
{
    v.and(w)
}

// Refusal 7: an answer list of `lent` numbers where `most` may be needed, or `work` words of work space where `space` are.
pub fn room(lent: usize, most: usize, work: usize, space: usize) -> Verdict
    ensures { result ≡ room_verdict lent most work space }
{
    if lent < most {
        return Err(Refused(Refusal::Space, 0));
    }
    if work < space {
        return Err(Refused(Refusal::Space, 0));
    }
    Ok(())
}
