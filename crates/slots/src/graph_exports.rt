// Exported: the components of a graph, and an order of its places.
ghost use Rattle.std.specs.Prelude.{◌≡◌};
ghost use Rattle.part_codes.specs.Codes.{graph_words};
ghost use Rattle.slots.specs.Exports.{ComponentsCoded, SettlingCoded};

// `components::components`.
pub fn slots_components(
    blocks: &[u32],
    edges: &[u32],
    points: u32,
    which: &mut [u32],
    work: &mut [u64],
) -> u64
    ensures { ComponentsCoded blocks.now edges.now points which.old work.old result which.new work.new }
{
    codes::answer(components::components(blocks, edges, points, which, work))
}

// `spread::settling`.
pub fn slots_settling(
    blocks: &[u32],
    edges: &[u32],
    points: u32,
    order: &mut [u32],
    work: &mut [u64],
) -> u64
    ensures { SettlingCoded blocks.now edges.now points order.old work.old result order.new work.new }
{
    codes::verdict(spread::settling(blocks, edges, points, order, work))
}

// W of the entries over a graph, by the numbers of blocks, of edges and of words to a row (none for components and settling).
pub fn slots_graph_words(blocks: u32, edges: u32, words: u32) -> u64
    ensures { result ≡ graph_words blocks edges words }
{
    part_codes::graph_words(blocks, edges, words)
}
