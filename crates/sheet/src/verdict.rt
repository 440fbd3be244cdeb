// SCOPE 6.4: the verdict.
ghost use Rattle.std.specs.Prelude.{◌≡◌};
ghost use Rattle.sheet.specs.Sheet.{compared};

use reading::grid::Grid;

#[derive(Clone, Copy, Debug, PartialEq, Eq)]
pub enum Verdict {
    Near,
    Pass,
    Fail,
}

// 0.002 on every scale, in thousandths of a grid unit.
const NEAR: u64 = 2 * Grid::UNITS_IN_ONE;

#[tactic(auto, unfolding(crate::specs::Sheet::compared))]
pub(crate) fn compare(tolerance: u64, de: u64) -> Verdict
    ensures { result ≡ compared 20 tolerance de }
{
    if tolerance.abs_diff(de) <= NEAR {
        Verdict::Near
    } else if de < tolerance {
        Verdict::Pass
    } else {
        Verdict::Fail
    }
}
