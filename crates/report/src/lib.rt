// The report: twelve lines put into a lent room from a column that the caller names.
#![tactic(auto)]

mod report;

pub use report::{report_len, write_report};
