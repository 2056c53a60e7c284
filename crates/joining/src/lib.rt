// One piece: its ends by the two bits of its block, and put on to the pieces before it.
#![tactic(auto)]

ghost use Rattle.std.specs.Prelude.{◌≡◌, cond, ◌+◌, ◌<◌, length};
ghost use Rattle.ranges.specs.Points.{range};
ghost use Rattle.ranges.specs.Inner.{unpack};
ghost use Rattle.joining.specs.Inner.{JoinedIn};

// Puts a range to the k ranges from `at` on: the last is lengthened where the new one starts at its end plus 1, else it is appended.
pub fn join(work: &mut [u64], at: usize, k: usize, x: u64) -> usize
    requires { at + k < length work.old }
    ensures { JoinedIn work.old work.new at k result x }
{
    if 0 < k {
        let i = at + k - 1;
        let last = work[i];
        let end = packed::end_of(last);
        let start = packed::start_of(x);
        if start as u64 == end as u64 + 1 {
            let first = packed::start_of(last);
            let e = packed::end_of(x);
            work[i] = packed::pack(first, e);
            return k;
        }
    }
    work[at + k] = x;
    k + 1
}

// The span of a block, from its top by the written bit and to its bottom by the read one.
pub fn lengthened(x: u64, top: u32, bottom: u32, written: bool, read: bool) -> u64
    ensures { unpack result ≡ range (cond written top (unpack x).start) (cond read bottom (unpack x).end) }
{
    let first = if written { top } else { packed::start_of(x) };
    let last = if read { bottom } else { packed::end_of(x) };
    packed::pack(first, last)
}
