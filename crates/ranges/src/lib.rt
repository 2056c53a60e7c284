// Ranges of points: document 01, "Ranges". The definitions and laws of lists of ranges stand here; `columns` and `packed` compute with them.
#![tactic(auto)]

ghost use Rattle.std.specs.Prelude.{◌≡◌};
ghost use Rattle.ranges.specs.Points.{range, overlaps};

// A range of points, both ends included.
#[derive(Clone, Copy)]
pub struct Range {
    pub start: u32,
    pub end: u32,
}

// Whether two ranges overlap: each starts no later than the other ends. Refuses nothing.
pub fn overlaps(start: u32, end: u32, other_start: u32, other_end: u32) -> bool
    ensures { result ≡ overlaps (range start end) (range other_start other_end) }
{
    start <= other_end && other_start <= end
}
