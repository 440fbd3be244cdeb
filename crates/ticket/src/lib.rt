// A ticket's text, parsed: the ticket, or its first wrong line.
#![tactic(auto)]

pub mod lines;
mod value;
