// The areas of locals whose touches and ends are lent by themselves.
#![tactic(auto)]

ghost use Rattle.area_entries.specs.Entry.{LocalAreas};

use refusals::Answer;
use words::widths::{block, edge, range, stop, touch};

// The area of each local by its kind (0 unfollowed, 1 plain, 2 ending, as `reach` answers them): from its touches (rows local, start, end) and, of an ending one,
// its ends (rows local, point). An unfollowed local has no area. Its rows, and those whose local is past the end, count for nobody. Areas come back as rows of start
// and end, items as rows of present, first and count, one a local; the answer is the number of ranges.
// Refuses lengths that are no whole rows or over their limits (1), blocks out of line (2), an edge naming no block (3), a kind over 2 (4), a touch that is reversed or not
// wholly in the blocks, whoever's it is (6), an item list under the locals or a work space under W = 8 × (blocks + edges + locals + touches + ends + blocks × ⌈locals/64⌉ +
// ranges of the area list) (7), and more ranges than the area list holds (9).
pub fn local_areas(
    blocks: &[u32],
    edges: &[u32],
    points: u32,
    kinds: &[u32],
    touches: &[u32],
    ends: &[u32],
    areas: &mut [u32],
    items: &mut [u32],
    work: &mut [u64],
) -> Answer
    ensures { LocalAreas blocks.now edges.now points kinds.now touches.now ends.now
        areas.old items.old work.old result areas.new items.new work.new }
{
    area_checks::refusal(
        blocks,
        edges,
        points,
        kinds,
        touches,
        ends.len(),
        areas.len(),
        items.len(),
        work.len(),
    )?;
    let w = area_checks::needed(area_layout::Sizes {
        blocks: blocks.len() / block::WIDTH,
        edges: edges.len() / edge::WIDTH,
        locals: kinds.len(),
        touches: touches.len() / touch::WIDTH,
        ends: ends.len() / stop::WIDTH,
        room: areas.len() / range::WIDTH,
    });
    let n = lent_areas::solve(blocks, edges, kinds, touches, ends, work, areas.len());
    let r = item_lists::list(n, areas, items, work, kinds.len());
    words::clear(work, w);
    r
}
