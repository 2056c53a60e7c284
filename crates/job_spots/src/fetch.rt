// One local of a job at a time: followed, and its touches and ends put into the work space.
ghost use Rattle.std.specs.Prelude.{◌≡◌, ◌<◌};
ghost use Rattle.job_spots.specs.Inner.{is_unfollowed, Ready, FetchedAny};

use crate::{JobLocal, Places};
use carrying::Kind;
use follow::Sizes;
use reach::Lay;
use spots::Spots;

// Whether a local is not followed.
pub fn unfollowed(k: Kind) -> bool
    ensures { result ≡ is_unfollowed k }
{
    match k {
        Kind::Unfollowed => true,
        Kind::Plain => false,
        Kind::Ending => false,
    }
}

// Follows a local, and puts its touches and its ends where they go; of an unfollowed local there are none.
pub fn fetch(
    insts: &[u32],
    addresses: &[u32],
    ends: &[u32],
    pieces: &[u32],
    work: &mut [u64],
    lay: Lay,
    p: Places,
    z: Sizes,
    local: usize,
) -> JobLocal
    requires { Ready insts.now addresses.now ends.now pieces.now lay p z work.old × (local < z.locals) }
    ensures { FetchedAny insts.now addresses.now ends.now pieces.now lay p z local work.old work.new result }
{
    let f = follow::walks::follow(insts, addresses, work, lay, z, local, false);
    let k = f.kind;
    if unfollowed(k) {
        return JobLocal {
            kind: k,
            spots: Spots {
                at: p.at,
                count: 0,
                ends: p.ends,
                stops: 0,
            },
        };
    }
    let count = crate::touches(
        insts, addresses, pieces, work, lay, p.keys, f.count, local, p.at,
    );
    let stops = crate::ends(insts, ends, work, p.heads, p.nexts, local, p.ends);
    JobLocal {
        kind: k,
        spots: Spots {
            at: p.at,
            count: count,
            ends: p.ends,
            stops: stops,
        },
    }
}
