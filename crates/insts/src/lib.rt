// Instructions, crossings, addresses and ends as they are lent: refusals 1, 4 and 5 about them.
#![tactic(auto)]

pub mod checks; // checks.rt: refusals 4 and 5
pub mod counts; // counts.rt: refusal 1
