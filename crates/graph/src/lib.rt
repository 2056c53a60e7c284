// Blocks in line order, the edges between them, and what flows along them.
#![tactic(auto)]

// A block's number, by which edges name it.
#[derive(Clone, Copy)]
pub struct Block(pub u32);

// A block's place in the line, by which rows are kept.
#[derive(Clone, Copy)]
pub struct Place(pub usize);
