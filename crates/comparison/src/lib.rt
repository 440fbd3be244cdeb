// Lines 1, 2 and 8 of the step sheet at 20 binary places, and with the semi-axes the whole of it.
#![tactic(auto)]

mod comparison;
mod differences;
mod shift;

pub use comparison::comparison_of;
