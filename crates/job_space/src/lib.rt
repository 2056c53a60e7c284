// The counts of a job's records as they are lent, W, and what only fitting takes.
#![tactic(auto)]

ghost use Rattle.std.specs.Prelude.{◌≡◌};
ghost use Rattle.job_space.specs.Space.{space_of, bad_shape};
ghost use Rattle.job_space.specs.Inner.{Counted};

use fitting::Terms;
use words::widths::{cell, item};

pub mod records; // records.rt: how many are lent

const BUDGET: u32 = 1048576;

// The numbers of a job's `H` line: the points, V, and what fitting has to keep to.
#[derive(Clone, Copy)]
pub struct Head {
    pub points: u32,
    pub v: u32,
    pub terms: Terms,
}

// How many records of each group are lent, how many ranges the area list holds, and how many registers are numbered.
#[derive(Clone, Copy)]
pub struct Sizes {
    pub v: usize,
    pub blocks: usize,
    pub edges: usize,
    pub insts: usize,
    pub operands: usize,
    pub crossings: usize,
    pub locals: usize,
    pub slots: usize,
    pub addresses: usize,
    pub ends: usize,
    pub pieces: usize,
    pub assigned: usize,
    pub moves: usize,
    pub room: usize,
}

// W, the words of work space that are needed. No sum is too large for numbers of 32 bits.
pub fn needed(z: Sizes) -> usize
    requires { Counted z }
    ensures { result ≡ space_of z }
{
    let code = z.blocks + z.edges + z.insts + z.operands + z.crossings;
    let items = z.locals + z.slots + z.addresses + z.ends;
    let live = z.pieces + z.assigned + z.moves;
    let rows = z.blocks * ((z.locals + 63) / 64);
    8 * (code + items + live + rows + z.room + (z.v + 63) / 64)
}

// W by numbers of records, for any numbers.
pub fn words(
    v: u32,
    blocks: u32,
    edges: u32,
    insts: u32,
    operands: u32,
    crossings: u32,
    locals: u32,
    slots: u32,
    addresses: u32,
    ends: u32,
    pieces: u32,
    assigned: u32,
    moves: u32,
    ranges: u32,
) -> u64
    ensures { result ≡ space_of (record {
      v = v;
      blocks = blocks;
      edges = edges;
      insts = insts;
      operands = operands;
      crossings = crossings;
      locals = locals;
      slots = slots;
      addresses = addresses;
      ends = ends;
      pieces = pieces;
      assigned = assigned;
      moves = moves;
      room = ranges;
    }) }
{
    needed(Sizes {
        v: v as usize,
        blocks: blocks as usize,
        edges: edges as usize,
        insts: insts as usize,
        operands: operands as usize,
        crossings: crossings as usize,
        locals: locals as usize,
        slots: slots as usize,
        addresses: addresses as usize,
        ends: ends as usize,
        pieces: pieces as usize,
        assigned: assigned as usize,
        moves: moves as usize,
        room: ranges as usize,
    }) as u64
}

// Refusal 1 of what only fitting takes: a budget over its limit, or a cell or an item list that is no whole rows.
pub fn bad_shape(terms: Terms, cells: usize, items: usize) -> bool
    ensures { result ≡ bad_shape terms cells items }
{
    if BUDGET < terms.budget {
        return true;
    }
    if cells % cell::WIDTH != 0 {
        return true;
    }
    items % item::WIDTH != 0
}
