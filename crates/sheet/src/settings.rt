// What differences are worked out and judged by, and the ranges of those numbers.
ghost use Rattle.std.specs.Prelude.{◌≡◌};
ghost use Rattle.sheet.specs.Settings.{is_factor, is_tolerance};

use crate::formula::Formula;
use colour::white::White;

// Formula and white, and l, c and the tolerance in thousandths, as a load or a ticket gives them.
#[derive(Clone, Copy)]
pub struct Settings {
    pub formula: Formula,
    pub white: White,
    pub l: u64,
    pub c: u64,
    pub tolerance: u64,
}

// Whether l, or c, lies in its range.
#[tactic(auto, unfolding(crate::specs::Settings::within))]
pub fn is_factor(l: u64) -> bool
    ensures { result ≡ is_factor l }
{
    (500..=10000).contains(&l)
}

// Whether a tolerance lies in its range, which has a lower end of its own.
#[tactic(auto, unfolding(crate::specs::Settings::within))]
pub fn is_tolerance(t: u64) -> bool
    ensures { result ≡ is_tolerance t }
{
    (100..=10000).contains(&t)
}
