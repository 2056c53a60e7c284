// The area list as rows, and number 9: definitions and laws.
#![tactic(auto)]
