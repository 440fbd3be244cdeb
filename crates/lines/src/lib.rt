// The lines of a report, each by itself: how many bytes it takes, and the line put into a lent slice.
#![tactic(auto)]

pub mod numbers;
pub mod words;
