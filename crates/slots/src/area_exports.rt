// Exported: the areas of items.
ghost use Rattle.job_space.specs.Rows.{lent_rows};
ghost use Rattle.std.specs.Prelude.{◌≡◌};
ghost use Rattle.area_layout.specs.Layout.{space_for};
ghost use Rattle.slots.specs.Exports.{ItemAreasCoded, LocalAreasCoded};

// `item_areas::item_areas`.
pub fn slots_item_areas(
    points: u32,
    v: u32,
    blocks: &[u32],
    edges: &[u32],
    insts: &[u32],
    operands: &[u32],
    crossings: &[u32],
    locals: &[u32],
    slots: &[u32],
    addresses: &[u32],
    ends: &[u32],
    pieces: &[u32],
    assigned: &[u32],
    moves: &[u32],
    areas: &mut [u32],
    items: &mut [u32],
    work: &mut [u64],
) -> u64
    ensures { ItemAreasCoded (lent_rows points v blocks edges insts operands crossings locals slots addresses ends pieces assigned moves)
        areas.old items.old work.old result areas.new items.new work.new }
{
    codes::answer(item_areas::item_areas(
        points, v, blocks, edges, insts, operands, crossings, locals, slots, addresses, ends,
        pieces, assigned, moves, areas, items, work,
    ))
}

// `area_entries::local_areas`.
pub fn slots_local_areas(
    blocks: &[u32],
    edges: &[u32],
    points: u32,
    kinds: &[u32],
    touches: &[u32],
    ends: &[u32],
    areas: &mut [u32],
    items: &mut [u32],
    work: &mut [u64],
) -> u64
    ensures { LocalAreasCoded blocks.now edges.now points kinds.now touches.now ends.now
        areas.old items.old work.old result areas.new items.new work.new }
{
    codes::answer(area_entries::local_areas(
        blocks, edges, points, kinds, touches, ends, areas, items, work,
    ))
}

// W of `local_areas`, by the numbers of records and of ranges of the area list. That of `item_areas` is the whole job's.
pub fn slots_area_words(
    blocks: u32,
    edges: u32,
    locals: u32,
    touches: u32,
    ends: u32,
    ranges: u32,
) -> u64
    ensures { result ≡ space_for (record { blocks = blocks; edges = edges; locals = locals; touches = touches; ends = ends; room = ranges }) }
{
    area_checks::words(blocks, edges, locals, touches, ends, ranges)
}
