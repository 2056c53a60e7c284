// What slots have of their own, in the work space: the register of each, and the moves of each as chains.
#![tactic(auto)]

ghost use Rattle.std.specs.Prelude.{◌≡◌, [], ◌+◌, ◌*◌, ◌/◌, ◌≤◌, ◌<◌, length};
ghost use Rattle.words.specs.Rows.{field};
ghost use Rattle.words.specs.Inner.{Region};
ghost use Rattle.words.specs.Widths.{block_count, move_width, move_count};
ghost use Rattle.ranges.specs.Inner.{pack};
ghost use Rattle.graph.specs.Line.{blocks_of, Sound};
ghost use Rattle.graph.specs.Inner.Work.{Table};
ghost use Rattle.carrying.specs.Insts.{insts_of};
ghost use Rattle.areas.specs.Slots.{assigned_of, spilled, moves_of, move_verdict};
ghost use Rattle.move_points.specs.Inner.{move_row};
ghost use Rattle.chains.specs.Inner.{Walkable, Walked};
ghost use Rattle.slot_spots.specs.Inner.{held_word, cover_of, Laid, Chains, Chained, Fetched};
ghost use Rattle.refusals.specs.Verdicts.{Fine};

use words::widths::moving;

// Where the moves of `slots` slots are kept, each region past the one before: from `table` on the place of each block, by its number; from `heads` on each
// slot's last move to it, then each slot's last move from it; from `nexts` on for each move the one before it to the same slot, then the one before it from the
// same slot; and from `to` on room for what the moves of one slot cover, two words a move.
#[derive(Clone, Copy)]
pub struct Places {
    pub slots: usize,
    pub table: usize,
    pub heads: usize,
    pub nexts: usize,
    pub to: usize,
}

// Where the moves stand chained by the slot in one column: 2 for the slot that a move goes to, 3 for the one that it comes from.
#[derive(Clone, Copy)]
struct Links {
    column: usize,
    heads: usize,
    nexts: usize,
}

// A word a slot, from `at` on: the last register assigned to it plus 1, or 0.
pub fn held(assigned: &[u32], work: &mut [u64], at: usize, slots: usize)
    requires { at + slots ≤ length work.old }
    ensures { Region work.old work.new at slots (λ s. held_word (spilled (assigned_of assigned.now) s)) }
{
    words::fill(work, at, slots, 0);
    slot_registers::assign(assigned, work, at, slots);
}

// The moves of each slot as chains, by the slot that they go to and by the one that they come from.
pub fn chains(moves: &[u32], work: &mut [u64], p: Places)
    requires { (p.heads + p.slots + p.slots ≤ p.nexts) × (p.nexts + move_count moves.now + move_count moves.now ≤ length work.old) }
    ensures { Chained p moves.now work.old work.new }
{
    let m = moves.len() / moving::WIDTH;
    let past = p.heads + p.slots;
    words::fill(work, p.heads, p.slots + p.slots, 0);
    chains::chain(
        moves,
        moving::WIDTH,
        moving::TO,
        m,
        p.slots,
        work,
        p.heads,
        p.nexts,
    );
    chains::chain(
        moves,
        moving::WIDTH,
        moving::FROM,
        m,
        p.slots,
        work,
        past,
        p.nexts + m,
    );
}

// What move i covers, as one word.
fn cover(
    points: u32,
    blocks: &[u32],
    insts: &[u32],
    moves: &[u32],
    work: &[u64],
    table: usize,
    i: usize,
) -> u64
    requires sound { Sound (blocks_of blocks.now) × Table (blocks_of blocks.now) table work.now × (table + block_count blocks.now ≤ length work.now) }
    requires i_bound { (i < move_count moves.now) × (move_verdict (blocks_of blocks.now) (insts_of insts.now []) (moves_of moves.now) ≡ Fine) }
    ensures { result ≡ pack (cover_of points (blocks_of blocks.now) (insts_of insts.now []) (move_row moves.now i)) }
{
    let at = move_points::position(
        blocks,
        insts,
        work,
        table,
        moves[moving::WIDTH * i],
        moves[moving::WIDTH * i + moving::NUMBER],
    );
    let Some(p) = at else {
        return 0;
    };
    let start = move_points::preceding(p);
    let end = move_points::beyond(p, points);
    packed::pack(start, end)
}

// Follows a slot's chain from its last move, and writes what the moves cover downwards from `top`; how many.
fn walk(
    points: u32,
    blocks: &[u32],
    insts: &[u32],
    moves: &[u32],
    work: &mut [u64],
    table: usize,
    slot: usize,
    k: Links,
    top: usize,
) -> usize
    requires sound { Sound (blocks_of blocks.now) × Table (blocks_of blocks.now) table work.old × (table + block_count blocks.now ≤ k.nexts) }
    requires moves_value { move_verdict (blocks_of blocks.now) (insts_of insts.now []) (moves_of moves.now) ≡ Fine }
    requires walkable { Walkable (λ i. field move_width moves.now i k.column) (move_count moves.now) slot k.heads k.nexts top work.old }
    ensures { Walked (λ i. field move_width moves.now i k.column)
        (λ i. pack (cover_of points (blocks_of blocks.now) (insts_of insts.now []) (move_row moves.now i))) (move_count moves.now) slot top
        work.old work.new result }
{
    let mut next = work[k.heads + slot];
    let mut to = top;
    while next != 0 {
        let i = next as usize - 1;
        let x = cover(points, blocks, insts, moves, work, table, i);
        to -= 1;
        work[to] = x;
        next = work[k.nexts + i];
    }
    top - to
}

// What the moves of a slot cover: those from it, then those to it, up to two words a move past `to`; how many.
pub fn fetch(
    points: u32,
    blocks: &[u32],
    insts: &[u32],
    moves: &[u32],
    work: &mut [u64],
    p: Places,
    slot: usize,
) -> usize
    requires sound { Sound (blocks_of blocks.now) × Table (blocks_of blocks.now) p.table work.old × Laid p (block_count blocks.now) (move_count moves.now) work.old }
    requires moves_value { (move_verdict (blocks_of blocks.now) (insts_of insts.now []) (moves_of moves.now) ≡ Fine) × Chains p moves.now work.old × (slot < p.slots) }
    ensures { Fetched points blocks.now insts.now moves.now slot p.to work.old work.new result }
{
    let m = moves.len() / moving::WIDTH;
    let top = p.to + m + m;
    let past = p.heads + p.slots;
    let to = Links {
        column: 2,
        heads: p.heads,
        nexts: p.nexts,
    };
    let from = Links {
        column: 3,
        heads: past,
        nexts: p.nexts + m,
    };
    let a = walk(points, blocks, insts, moves, work, p.table, slot, to, top);
    let b = walk(
        points,
        blocks,
        insts,
        moves,
        work,
        p.table,
        slot,
        from,
        top - a,
    );
    a + b
}
