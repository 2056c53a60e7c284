// The answer of the clash test in one number, the direction of `flowed`, and W of the entries over a graph.
#![tactic(auto)]

ghost use Rattle.std.specs.Prelude.{◌≡◌};
ghost use Rattle.codes.specs.Codes.{truth_code};
ghost use Rattle.part_codes.specs.Codes.{over_of, graph_words};
ghost use Rattle.refusals.specs.Outcomes.{answered};

use codes::refused;
use flow::Over;
use refusals::Refused;

pub fn clash(c: Result<bool, Refused>) -> u64
    ensures { result ≡ truth_code (answered c) }
{
    match c {
        Ok(b) => codes::truth(b),
        Err(Refused(r, i)) => refused(r, i),
    }
}

pub fn over(over: u32) -> Over
    ensures { result ≡ over_of over }
{
    if over == 0 {
        return Over::Predecessors;
    }
    Over::Successors
}

// W of an entry over a graph, by the numbers of blocks, of edges and of words to a row; the largest number where it is no smaller.
pub fn graph_words(blocks: u32, edges: u32, words: u32) -> u64
    ensures { result ≡ graph_words blocks edges words }
{
    let rows = blocks as u64 * words as u64;
    let n = blocks as u64 + edges as u64 + rows;
    if 0x1fff_ffff_ffff_ffff < n {
        return 0xffff_ffff_ffff_ffff;
    }
    8 * n
}
