// Refusal 5 about moves and refusal 6 about live pieces and assignments, in linear time and without work space.
#![tactic(auto)]

ghost use Rattle.std.specs.Prelude.{◌≡◌, cond, not, ◌||◌, [], ◌+◌, ◌*◌, ◌/◌, ◌≤◌, ◌<◌, leb};
ghost use Rattle.words.specs.Widths.{block_count, inst_count, piece_count};
ghost use Rattle.words.specs.Inner.{inst_placed};
ghost use Rattle.graph.specs.Line.{blocks_of};
ghost use Rattle.carrying.specs.Insts.{insts_of, is_set};
ghost use Rattle.carrying.specs.Carried.{pieces_of};
ghost use Rattle.areas.specs.Slots.{assigned_of, moves_of, bad_move, move_verdict, bad_piece, piece_verdict, assigned_verdict};
ghost use Rattle.spill_checks.specs.Inner.{piece_at, position_of};
ghost use Rattle.spill_checks.specs.declared.Position.TheVariants.{Stray};

use graph::Block;
use refusals::{Refusal, Refused, Verdict};
use words::wide;
use words::widths::{assigned, block, moving, piece};

// Where a move stands: at the early or the late point of an instruction, at the start or the end of a block; stray for a move that is refused.
#[derive(Clone, Copy)]
pub enum Position {
    Early(u32),
    Late(u32),
    Start(Block),
    End(Block),
    Stray,
}

// `p`, which is at this instruction; stray where it is absent or unplaced.
fn at_inst(insts: &[u32], number: u32, p: Position) -> Position
    ensures { result ≡ cond (leb (inst_count insts.now) number || not (is_set (inst_placed insts.now number))) Stray p }
{
    if insts::checks::unplaced(insts, number) {
        return Position::Stray;
    }
    p
}

// `p`, which is at this block; stray where it is absent.
fn at_block(blocks: &[u32], number: u32, p: Position) -> Position
    ensures { result ≡ cond (leb (block_count blocks.now) number) Stray p }
{
    if blocks.len() / block::WIDTH <= number as usize {
        return Position::Stray;
    }
    p
}

// Where a move stands by its kind: before or after an instruction, at the start or the end of a block. Stray, which is refused, for an absent or unplaced
// instruction, an absent block, and a kind over 3.
pub fn locate(blocks: &[u32], insts: &[u32], kind: u32, number: u32) -> Position
    ensures { result ≡ position_of (blocks_of blocks.now) (insts_of insts.now []) kind number }
{
    match kind {
        0 => at_inst(insts, number, Position::Early(number)),
        1 => at_inst(insts, number, Position::Late(number)),
        2 => at_block(blocks, number, Position::Start(Block(number))),
        3 => at_block(blocks, number, Position::End(Block(number))),
        _ => Position::Stray,
    }
}

// Whether a move of this kind is refused.
fn bad_move(blocks: &[u32], insts: &[u32], kind: u32, number: u32) -> bool
    ensures { result ≡ bad_move (blocks_of blocks.now) (insts_of insts.now []) kind number }
{
    match locate(blocks, insts, kind, number) {
        Position::Early(_) => false,
        Position::Late(_) => false,
        Position::Start(_) => false,
        Position::End(_) => false,
        Position::Stray => true,
    }
}

// Refusal 5: the first move that is refused, whatever the operands of instructions.
pub fn moves(blocks: &[u32], insts: &[u32], moves: &[u32]) -> Verdict
    ensures { result ≡ move_verdict (blocks_of blocks.now) (insts_of insts.now []) (moves_of moves.now) }
{
    let n = moves.len() / moving::WIDTH;
    for i in 0..n {
        if bad_move(
            blocks,
            insts,
            moves[moving::WIDTH * i],
            moves[moving::WIDTH * i + moving::NUMBER],
        ) {
            return Err(Refused(Refusal::Stray, i));
        }
    }
    Ok(())
}

// Whether live piece `i` is reversed, not wholly in the blocks, or of a register that is not numbered.
fn bad_piece(blocks: &[u32], v: u32, pieces: &[u32], i: usize) -> bool
    requires { (1 ≤ block_count blocks.now) × (i < piece_count pieces.now) }
    ensures { result ≡ bad_piece (blocks_of blocks.now) v (piece_at pieces.now i) }
{
    if area_checks::off_line(blocks, pieces, i) {
        return true;
    }
    v <= pieces[piece::WIDTH * i]
}

// Refusal 6: the first live piece that is refused.
pub fn pieces(blocks: &[u32], v: u32, pieces: &[u32]) -> Verdict
    requires { 1 ≤ block_count blocks.now }
    ensures { result ≡ piece_verdict (blocks_of blocks.now) v (pieces_of pieces.now) }
{
    let n = pieces.len() / piece::WIDTH;
    for i in 0..n {
        if bad_piece(blocks, v, pieces, i) {
            return Err(Refused(Refusal::Piece, i));
        }
    }
    Ok(())
}

// Refusal 6: the first assignment of a register that is not numbered.
pub fn assigned(v: u32, assigned: &[u32]) -> Verdict
    ensures { result ≡ assigned_verdict v (assigned_of assigned.now) }
{
    insts::checks::below(assigned, assigned::WIDTH, 0, wide(v), Refusal::Piece)
}
