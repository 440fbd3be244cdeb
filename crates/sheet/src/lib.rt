// The step sheet, SCOPE 6, at 20 binary places: what it is worked from, what it gives, and the sums and the rule that
// its lines share.
#![tactic(auto)]

pub mod comparison;
pub mod differences;
pub mod formula;
pub mod products;
pub mod scaled;
pub mod semi_axes;
pub mod settings;
pub mod shift;
pub mod verdict;
