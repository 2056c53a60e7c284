// Where the touches and the ends of one local stand in a work space, and what is looked up for them in the line.
#![tactic(auto)]

ghost use Rattle.std.specs.Prelude.{◌≡◌, ◌+◌, ◌/◌, ◌≤◌, ◌<◌, min, max, length, get_or};
ghost use Rattle.words.specs.Inner.{Rising, part};
ghost use Rattle.graph.specs.Line.{blocks_of, Sound};
ghost use Rattle.areas.specs.Blocks.{until};
ghost use Rattle.spots.specs.Inner.{Held};

use graph::Place;
use words::widths::block;

// The touches are the packed ranges `work[at .. at + count]`, the ends the points `work[ends .. ends + stops]`, rising.
#[derive(Clone, Copy)]
pub struct Spots {
    pub at: usize,
    pub count: usize,
    pub ends: usize,
    pub stops: usize,
}

// The place of the block that holds a point: of a point before all blocks the first, after all the last.
pub fn holding(blocks: &[u32], point: u32) -> Place
    requires { Sound (blocks_of blocks.now) }
    ensures { Held blocks.now point result.0 }
{
    let n = blocks.len() / block::WIDTH;
    let r = words::at_most_in_rows(blocks, block::WIDTH, block::START, n, point);
    if r == 0 {
        return Place(0);
    }
    Place(r - 1)
}

// The first end at or after a point, or the bottom where there is none up to it.
pub fn until(work: &[u64], ends: usize, stops: usize, point: u32, bottom: u32) -> u32
    requires { (ends + stops ≤ length work.now) × Rising (λ i. get_or work.now (ends + i) 0) stops }
    ensures { result ≡ until (part ends stops work.now) point bottom }
{
    let i = words::below(work, ends, stops, point as u64);
    if i >= stops {
        return bottom;
    }
    let end = work[ends + i];
    if end >= bottom as u64 {
        return bottom;
    }
    end as u32
}

pub fn larger(x: u32, y: u32) -> u32
    ensures { result ≡ max x y }
{
    if x < y {
        return y;
    }
    x
}

pub fn smaller(x: u32, y: u32) -> u32
    ensures { result ≡ min x y }
{
    if x < y {
        return x;
    }
    y
}
