// Lines 3 and 4, and the semi-axes of each formula.
ghost use Rattle.std.specs.Prelude.{◌≡◌, ◌*◌, ◌^◌, ◌≤◌, ◌<◌};
ghost use Rattle.colour.specs.Conversion.{at_places};
ghost use Rattle.colour.specs.Conversion.Ranges.{OnGrid};
ghost use Rattle.sheet.specs.Sheet.{semi_axis_l, semi_axis_c, semi_axes_cielab, semi_axes_cie94, semi_axes_cmc, semi_axes};

use crate::chroma::Point;
use colour::conversion::GridColour;
use reading::grid::Grid;
use rounding::fraction::fraction;
use rounding::signed::magnitude;
use sheet::formula::Formula;
use sheet::semi_axes::SemiAxes;

// Line 3. L* is at most 120, so the numerator fits 64 bits.
#[tactic(auto, unfolding(sheet::specs::Sheet::semi_axis_l))]
fn semi_axis_l(l: u64) -> u64
    requires { l ≤ 120 * 2 ^ 20 }
    ensures { result ≡ semi_axis_l 20 l }
{
    if l < 16 * Grid::UNITS_IN_ONE {
        return 511 * Grid::UNITS_IN_ONE / 1000;
    }
    40975 * l * Grid::UNITS_IN_ONE / (1000000 * Grid::UNITS_IN_ONE + 17650 * l)
}

// Line 4. Its numerator at 20 places has 67 bits, so the places come by long division.
#[tactic(auto, unfolding(sheet::specs::Sheet::semi_axis_c))]
fn semi_axis_c(c: u64) -> u64
    requires { c < 2 ^ 29 }
    ensures is { result ≡ semi_axis_c 20 c }
    ensures small { result ≤ 2 ^ 23 }
{
    let d = 10000 * Grid::UNITS_IN_ONE + 131 * c;
    fraction(638 * c * 1000 + d * 638, d * 1000, 20)
}

#[tactic(auto, unfolding(sheet::specs::Sheet::semi_axes_cielab))]
fn semi_axes_cielab(p: Point) -> SemiAxes
    ensures { result ≡ semi_axes_cielab 20 p.a p.b }
{
    SemiAxes {
        C: p.C,
        SL: Grid::UNITS_IN_ONE,
        SC: Grid::UNITS_IN_ONE,
        SH: Grid::UNITS_IN_ONE,
    }
}

#[tactic(auto, unfolding(sheet::specs::Sheet::semi_axes_cie94, sheet::specs::Sheet::semi_axis_c94, sheet::specs::Sheet::semi_axis_h94))]
fn semi_axes_cie94(p: Point) -> SemiAxes
    ensures { result ≡ semi_axes_cie94 20 p.a p.b }
{
    SemiAxes {
        C: p.C,
        SL: Grid::UNITS_IN_ONE,
        SC: (1000 * Grid::UNITS_IN_ONE + 45 * p.C) / 1000,
        SH: (1000 * Grid::UNITS_IN_ONE + 15 * p.C) / 1000,
    }
}

#[tactic(auto, unfolding(sheet::specs::Sheet::semi_axes_cmc))]
fn semi_axes_cmc(l: u64, p: Point) -> SemiAxes
    requires { l ≤ 120 * 2 ^ 20 }
    ensures { result ≡ semi_axes_cmc 20 l p.a p.b }
{
    let sc = semi_axis_c(p.C);
    SemiAxes {
        C: p.C,
        SL: semi_axis_l(l),
        SC: sc,
        SH: p.hue_semi_axis(sc),
    }
}

// The chroma and the semi-axes of a reference, each formula's by lines of its own.
pub fn semi_axes_of(formula: Formula, r: GridColour) -> SemiAxes
    requires { OnGrid r }
    ensures { result ≡ semi_axes 20 formula (at_places 20 r) }
{
    let p = Point::of(r);
    match formula {
        Formula::CIELAB => semi_axes_cielab(p),
        Formula::CIE94 => semi_axes_cie94(p),
        Formula::CMC => semi_axes_cmc(magnitude(r.L.0), p),
    }
}
