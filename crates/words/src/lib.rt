// Lent numbers: regions of one list, searching.
#![tactic(auto)]

mod numbers; // numbers.rt: numbers of 32 bits
mod regions; // regions.rt: fill, clear and copy
mod search; // search.rt: binary search
pub mod widths; // widths.rt: rows by name

pub use numbers::{HALF, wide};
pub use regions::{clear, copy, copy_from, copy_u32, fill, narrow};
pub use search::{at_most_in_rows, below, gallop};
