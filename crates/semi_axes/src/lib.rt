// Lines 1 and 3 to 7 of the step sheet at 20 binary places: a colour's chroma, and the semi-axes of a reference.
#![tactic(auto)]

mod chroma;
mod hue;
mod semi_axes;

pub use chroma::chroma_of;
pub use semi_axes::semi_axes_of;
