// Demand 3: reads through an accepted plan are as with private bytes.
#![tactic(auto)]
