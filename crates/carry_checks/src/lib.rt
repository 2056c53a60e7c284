// What the entries of carrying, and those of a whole job, check of the code that is lent, and where the regions of carrying stand.
#![tactic(auto)]

pub mod checks; // checks.rt: refusals 1, 2, 4, 5 and 7, and W
pub mod layout; // layout.rt: the regions of the work space
