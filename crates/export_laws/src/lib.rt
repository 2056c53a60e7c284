// What follows from the promises of the exported functions: demand 3 of the exported job, and what a caller reads in a code.
#![tactic(auto)]
