// The calls: load, judge and ticket on slices that the host lends, and the same handed back as floats.
#![tactic(auto)]

mod figures;
mod lent;
mod outcome;

pub use figures::{TicketAnswer, judge_figures, line_of, load_figures, ticket_figures};
pub use lent::{judge_call, load_call, ticket_call};
pub use outcome::ticket_outcome;
