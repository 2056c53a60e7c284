// One pass over the code: which registers escape or are dead, and which hand an address on to which.
#![tactic(auto)]

pub mod scan; // scan.rt: one pass over the instructions

// Where carrying keeps things in the work space, each region past the one before: rows of bits over the registers (those that escape, those that are dead, those
// seen), the one def and the first edge of each instruction, the edges, the first address entry of each local, the next of each entry, whether a local
// has a placed end, and the queue of a walk.
#[derive(Clone, Copy)]
pub struct Lay {
    pub escapes: usize,
    pub dead: usize,
    pub seen: usize,
    pub defs: usize,
    pub firsts: usize,
    pub edges: usize,
    pub heads: usize,
    pub nexts: usize,
    pub ended: usize,
    pub queue: usize,
}
