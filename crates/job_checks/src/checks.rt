// Refusals 1 to 6 of a job, in linear time and without work space.
ghost use Rattle.std.specs.Prelude.{◌≡◌, [], ℕ, ◌/◌, ◌≤◌};
ghost use Rattle.insts.specs.Rows.{AddsUp};
ghost use Rattle.job_space.specs.Rows.{lent_rows};
ghost use Rattle.job_checks.specs.Job.{other_counts, count_verdict};
ghost use Rattle.job_checks.specs.Inner.{place_verdict, stray_verdict, live_verdict, placed_verdict};
ghost use Rattle.words.specs.Widths.{block_count};

use refusals::Verdict;
use words::widths::{assigned, block, edge, moving, piece, range};

// Refusal 1 of the groups that carrying is not lent, by their lengths.
fn others(
    edges: usize,
    slots: usize,
    pieces: usize,
    assigned: usize,
    moves: usize,
    areas: usize,
) -> Verdict
    ensures { result ≡ other_counts edges slots pieces assigned moves areas }
{
    let a = insts::counts::rows(edges, edge::WIDTH, 16384);
    let b = insts::counts::most(slots, 2048);
    let c = insts::counts::rows(pieces, piece::WIDTH, 65536);
    let d = insts::counts::rows(assigned, assigned::WIDTH, 65536);
    let e = insts::counts::rows(moves, moving::WIDTH, 65536);
    let f = insts::counts::rows(areas, range::WIDTH, 65536);
    let f = refusals::earlier(e, f);
    let f = refusals::earlier(d, f);
    let f = refusals::earlier(c, f);
    let f = refusals::earlier(b, f);
    refusals::earlier(a, f)
}

// Refusal 1; the area list is given by its length.
pub fn counts(
    v: u32,
    blocks: &[u32],
    edges: &[u32],
    insts: &[u32],
    operands: &[u32],
    crossings: &[u32],
    locals: &[u32],
    slots: &[u32],
    addresses: &[u32],
    ends: &[u32],
    pieces: &[u32],
    assigned: &[u32],
    moves: &[u32],
    areas: usize,
) -> Verdict
    ensures { (points : ℕ) → result ≡ count_verdict (lent_rows points v blocks edges insts operands crossings locals slots addresses ends pieces assigned moves) areas }
{
    let a = carry_checks::checks::counts(
        v, blocks, insts, operands, crossings, locals, addresses, ends,
    );
    let b = others(
        edges.len(),
        slots.len(),
        pieces.len(),
        assigned.len(),
        moves.len(),
        areas,
    );
    refusals::earlier(a, b)
}

// Refusals 2, 3 and 4 of the blocks, the edges and the instructions.
fn located(
    points: u32,
    v: u32,
    blocks: &[u32],
    edges: &[u32],
    insts: &[u32],
    operands: &[u32],
) -> Verdict
    requires { (1 ≤ block_count blocks.now) × (block_count blocks.now ≤ 4096) × AddsUp insts.now operands.now × (v ≤ 65535) }
    ensures { result ≡ place_verdict points v blocks.now edges.now insts.now operands.now }
{
    line_checks::line(blocks, points)?;
    let a = line_checks::edge(edges, blocks.len() / block::WIDTH);
    let b = insts::checks::inst(blocks, v, insts, operands);
    refusals::earlier(a, b)
}

// Refusal 5 of the addresses, the ends and the moves, whatever the operands.
fn stray(blocks: &[u32], insts: &[u32], addresses: &[u32], ends: &[u32], moves: &[u32]) -> Verdict
    ensures { result ≡ stray_verdict blocks.now insts.now [] addresses.now ends.now moves.now }
{
    let a = carry_checks::checks::stray(insts, addresses, ends);
    let b = spill_checks::moves(blocks, insts, moves);
    refusals::earlier(a, b)
}

// Refusal 6 of the live pieces and the assignments.
fn live(v: u32, blocks: &[u32], pieces: &[u32], assigned: &[u32]) -> Verdict
    requires { 1 ≤ block_count blocks.now }
    ensures { result ≡ live_verdict v blocks.now pieces.now assigned.now }
{
    let a = spill_checks::pieces(blocks, v, pieces);
    let b = spill_checks::assigned(v, assigned);
    refusals::earlier(a, b)
}

// Refusals 2 to 6 of records whose counts are within their limits, by number and then in the job text's order.
pub fn placed(
    points: u32,
    v: u32,
    blocks: &[u32],
    edges: &[u32],
    insts: &[u32],
    operands: &[u32],
    crossings: &[u32],
    addresses: &[u32],
    ends: &[u32],
    pieces: &[u32],
    assigned: &[u32],
    moves: &[u32],
) -> Verdict
    requires { (1 ≤ block_count blocks.now) × (block_count blocks.now ≤ 4096) × AddsUp insts.now operands.now × (v ≤ 65535) }
    ensures { result ≡ placed_verdict points v blocks.now edges.now insts.now operands.now crossings.now
        addresses.now ends.now pieces.now assigned.now moves.now }
{
    located(points, v, blocks, edges, insts, operands)?;
    let crossed = insts::checks::crossing(v, crossings);
    let astray = stray(blocks, insts, addresses, ends, moves);
    let outside = live(v, blocks, pieces, assigned);
    refusals::earlier(crossed, refusals::earlier(astray, outside))
}
