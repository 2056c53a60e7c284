// The indexes of refusals and the counts of answers that are exported in one number: each is below 2 to the 32.
#![tactic(auto)]
