// Where a move stands, and the points either side of it.
#![tactic(auto)]

ghost use Rattle.std.specs.Prelude.{◌≡◌, [], ◌+◌, ◌-◌, ◌*◌, ◌≤◌, ◌<◌, min, length};
ghost use Rattle.graph.specs.Line.{blocks_of, Sound};
ghost use Rattle.graph.specs.Inner.Work.{Table};
ghost use Rattle.carrying.specs.Insts.{insts_of};
ghost use Rattle.move_points.specs.Inner.{position_at};
ghost use Rattle.words.specs.Widths.{block_count};

use spill_checks::Position;
use words::widths::{block, inst};

// The point of a move by its kind. The table of places stands from `table` on.
pub fn position(
    blocks: &[u32],
    insts: &[u32],
    work: &[u64],
    table: usize,
    kind: u32,
    number: u32,
) -> Option<u32>
    requires { Sound (blocks_of blocks.now) × Table (blocks_of blocks.now) table work.now × (table + block_count blocks.now ≤ length work.now) }
    ensures { result ≡ position_at (blocks_of blocks.now) (insts_of insts.now []) kind number }
{
    match spill_checks::locate(blocks, insts, kind, number) {
        Position::Early(i) => Some(insts[inst::WIDTH * i as usize + inst::EARLY]),
        Position::Late(i) => Some(insts[inst::WIDTH * i as usize + inst::LATE]),
        Position::Start(b) => Some(
            blocks[block::WIDTH * edge_rows::place_of(work, table, b).0 + block::START],
        ),
        Position::End(b) => Some(
            blocks[block::WIDTH * edge_rows::place_of(work, table, b).0 + block::END],
        ),
        Position::Stray => None,
    }
}

// The point before `p`, or 0.
pub fn preceding(p: u32) -> u32
    ensures { result ≡ p - 1 }
{
    if p == 0 {
        return 0;
    }
    p - 1
}

// The point after `p`, at most `points`.
pub fn beyond(p: u32, points: u32) -> u32
    ensures { result ≡ min (p + 1) points }
{
    if p < points {
        return p + 1;
    }
    points
}
