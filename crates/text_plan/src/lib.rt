// A plan as text: lines into a lent list; the text of a plan, or of a refusal.
#![tactic(auto)]

pub mod plan_text; // plan_text.rt: the text of a plan or of a refusal
pub mod printing; // printing.rt: lines of text, decimal numbers
