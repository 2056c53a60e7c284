// A job's records as they are lent: refusals 1 to 6 about them.
#![tactic(auto)]

pub mod checks; // checks.rt
