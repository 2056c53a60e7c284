// The lowest fitting cell for each item.
#![tactic(auto)]

// What a fitting is asked to keep to: how many probes it may make.
#[derive(Clone, Copy)]
pub struct Terms {
    pub budget: u32,
}
