// A standard accepted, a test specimen judged by it, and what both hand back as floats. A reading comes here as its
// place on the grid.
#![tactic(auto)]

pub mod accept;
pub mod figures;
pub mod judge;
