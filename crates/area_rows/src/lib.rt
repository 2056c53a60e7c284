// Rows of bits over the places of the line, a bit a local: the marks of one local.
#![tactic(auto)]

pub mod marks; // marks.rt: one bit set, and where a local is touched

// Bit `bit` of n rows of `words` words each, from `base` on: a local in the rows of the places, or a place in the rows of the locals.
#[derive(Clone, Copy)]
pub struct Column {
    pub n: usize,
    pub base: usize,
    pub words: usize,
    pub bit: usize,
}
