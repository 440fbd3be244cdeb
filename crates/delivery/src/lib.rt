// A delivery with no standard: its mean colour, each cone's DE from it, and the farthest cone.
#![tactic(auto)]

mod farthest;
mod mean;
mod sorted;

pub use sorted::{Sorted, sort};
