// Following a local's address from register to register: what becomes of each local, and which registers carry its address.
#![tactic(auto)]

use carrying::Kind;

pub mod walks; // walks.rt: one local's walk

// How many registers, instructions, locals and edges there are.
#[derive(Clone, Copy)]
pub struct Sizes {
    pub v: u32,
    pub insts: usize,
    pub locals: usize,
    pub edges: usize,
}

// Whether an address entry has no def, and how many instructions stand in the queue.
#[derive(Clone, Copy)]
pub struct Begun {
    pub lost: bool,
    pub count: usize,
}

// Whether the local is lost or a register of it dead, whether one escapes, and how many instructions stand in the queue.
#[derive(Clone, Copy)]
pub struct Walk {
    pub bad: bool,
    pub escapes: bool,
    pub count: usize,
}

// What becomes of a local, and how many registers carry its address.
#[derive(Clone, Copy)]
pub struct Followed {
    pub kind: Kind,
    pub count: usize,
}
