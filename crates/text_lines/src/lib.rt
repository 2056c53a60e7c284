// A job's text into the reader's lists: one line; the records of lines; a whole text, in pieces.
#![tactic(auto)]

pub mod job_rows; // job_rows.rt: lines are taken one after another
pub mod lines; // lines.rt: the group and the fields of a line
pub mod text; // text.rt: a text, read byte by byte through a line buffer
