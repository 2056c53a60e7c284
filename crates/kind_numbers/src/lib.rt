// The kinds of locals as an answer list has them.
#![tactic(auto)]

ghost use Rattle.std.specs.Prelude.{◌≡◌};
ghost use Rattle.kind_numbers.specs.Numbers.{kind_number};

use carrying::Kind;

// The number of a kind in an answer list.
pub fn number(k: Kind) -> u32
    ensures { result ≡ kind_number k }
{
    match k {
        Kind::Unfollowed => 0,
        Kind::Plain => 1,
        Kind::Ending => 2,
    }
}
