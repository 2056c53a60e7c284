// Which registers carry a local's address, and what becomes of the local.
#![tactic(auto)]

// Whether a local's address can be followed, and what its area comes from.
#[derive(Clone, Copy)]
pub enum Kind {
    Unfollowed,
    Plain,
    Ending,
}
