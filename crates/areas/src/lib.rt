// The points that an item is wanted at.
#![tactic(auto)]
