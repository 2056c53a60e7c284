// Where the regions that carrying uses stand in the work space.
ghost use Rattle.std.specs.Prelude.{◌≡◌, ◌+◌, ◌/◌, ◌≤◌};
ghost use Rattle.reach.specs.Inner.{Laid};
ghost use Rattle.carry_checks.specs.Inner.{used_of};
ghost use Rattle.words.specs.Regions.{row_words};

use reach::Lay;
use words::wide;

// The regions one after another, of `w` words a row of bits, `i` instructions, `o` operands, `l` locals and `a` addresses.
pub fn layout(v: u32, i: usize, o: usize, l: usize, a: usize) -> Lay
    requires { (i ≤ 65536) × (o ≤ 262144) × (l ≤ 2048) × (a ≤ 65536) × (v ≤ 65535) }
    ensures { Laid result v i o l a (used_of (row_words v) i o l a) × (result.queue + i ≡ used_of (row_words v) i o l a) }
{
    let w = (wide(v) + 63) / 64;
    let defs = w + w + w;
    let firsts = defs + i;
    let edges = firsts + i;
    let heads = edges + o;
    let nexts = heads + l;
    let ended = nexts + a;
    Lay {
        escapes: 0,
        dead: w,
        seen: w + w,
        defs: defs,
        firsts: firsts,
        edges: edges,
        heads: heads,
        nexts: nexts,
        ended: ended,
        queue: ended + l,
    }
}
