// Whites, readings of a colour, X, Y, Z to the grid, and the refusals' numbers.
#![tactic(auto)]

pub mod conversion;
pub mod placed;
pub mod refusal;
pub mod white;
