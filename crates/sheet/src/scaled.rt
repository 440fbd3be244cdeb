// Differences and tolerances on the scale of their formula. Each scale has a type of its own, so that a tolerance fits
// only its own formula's difference.
ghost use Rattle.std.specs.Prelude.{◌≡◌, ◌^◌, ◌≤◌, ◌<◌};
ghost use Rattle.sheet.specs.Sheet.{on_scale, difference_on, tolerance_on, verdict_on};

use crate::formula::Formula;
use crate::verdict::{Verdict, compare};
use reading::grid::Grid;

// Thousandths of a grid unit: a difference in whole units and a tolerance in whole thousandths are both exact in these.
#[derive(Clone, Copy, Debug, PartialEq, Eq)]
pub struct Cielab(pub u64);

#[derive(Clone, Copy, Debug, PartialEq, Eq)]
pub struct Cie94(pub u64);

#[derive(Clone, Copy, Debug, PartialEq, Eq)]
pub struct Cmc(pub u64);

// On one of the three scales, where the formula is known only when it is met.
#[derive(Clone, Copy, Debug, PartialEq, Eq)]
pub enum Scaled {
    Cielab(Cielab),
    Cie94(Cie94),
    Cmc(Cmc),
}

impl Scaled {
    fn on(formula: Formula, x: u64) -> Scaled
        ensures { result ≡ on_scale formula x }
    {
        match formula {
            Formula::CIELAB => Scaled::Cielab(Cielab(x)),
            Formula::CIE94 => Scaled::Cie94(Cie94(x)),
            Formula::CMC => Scaled::Cmc(Cmc(x)),
        }
    }

    // A DE in grid units.
    pub fn difference(formula: Formula, de: u64) -> Scaled
        requires { de < 2 ^ 32 }
        ensures { result ≡ difference_on formula de }
    {
        Scaled::on(formula, 1000 * de)
    }

    // A tolerance in thousandths.
    pub fn tolerance(formula: Formula, thousandths: u64) -> Scaled
        requires { thousandths ≤ 10000 }
        ensures { result ≡ tolerance_on 20 formula thousandths }
    {
        Scaled::on(formula, thousandths * Grid::UNITS_IN_ONE)
    }

    // The verdict on a DE by a tolerance: one of another formula's scale accepts nothing.
    #[tactic(auto, unfolding(crate::specs::Sheet::verdict_on))]
    pub fn verdict(self, tolerance: Scaled) -> Verdict
        ensures { result ≡ verdict_on 20 tolerance self }
    {
        match (self, tolerance) {
            (Scaled::Cielab(de), Scaled::Cielab(t)) => compare(t.0, de.0),
            (Scaled::Cie94(de), Scaled::Cie94(t)) => compare(t.0, de.0),
            (Scaled::Cmc(de), Scaled::Cmc(t)) => compare(t.0, de.0),
            _ => Verdict::Fail,
        }
    }
}
