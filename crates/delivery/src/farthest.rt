// SCOPE 13.3: each cone's DE from the mean, and the farthest cone.
ghost use Rattle.std.specs.Prelude.{◌≡◌, ◌^◌, ◌<◌, pos, length};
ghost use Rattle.reading.specs.Grid.{value_of};
ghost use Rattle.sheet.specs.Ranges.{InRange};
ghost use Rattle.cones.specs.Cones.{colours_in};
ghost use Rattle.delivery.specs.Farthest.{farther_of};
ghost use Rattle.delivery.specs.Delivery.{difference_from, differences_from};
ghost use Rattle.delivery.specs.Room.{Room, Figures};

use colour::conversion::GridColour;
use colour::white::White;
use comparison::comparison_of;
use cones::Cones;
use reading::grid::Grid;
use sheet::formula::Formula;

// The farthest cone so far: its DE in units, and its number.
#[derive(Clone, Copy)]
pub struct Far {
    pub most: u64,
    pub at: u32,
}

// The farther of the two; of two that are as far, the one before.
#[tactic(auto, unfolding(crate::specs::Farthest::farther_of))]
fn farther(f: Far, d: u64, i: u32) -> Far
    ensures { result ≡ farther_of f d i }
{
    if f.most < d {
        Far { most: d, at: i }
    } else {
        f
    }
}

// The DE of a cone, with the mean as reference.
#[tactic(auto, unfolding(crate::specs::Delivery::difference_from, sheet::specs::Sheet::comparison))]
fn difference_from(l: u64, c: u64, mean: GridColour, cone: GridColour) -> u64
    requires { InRange l c mean cone }
    ensures { result ≡ difference_from l c mean cone }
{
    comparison_of(Formula::CMC, l, c, mean, cone).differences.DE
}

// It as a float. By way of a signed number: of an unsigned zero a processor that rounds downwards makes -0.0.
fn figure_of(d: u64) -> f64
    requires { d < 2 ^ 32 }
    ensures { result ≡ value_of (pos d) }
{
    Grid::of_units(d as i64).value()
}

// One entry a cone from the start of `de`, the rest kept; and the farthest.
pub(crate) fn write_differences(
    white: White,
    l: u64,
    c: u64,
    mean: GridColour,
    cones: &Cones<'_>,
    de: &mut [f64],
) -> Far
    requires { Room l c mean (length cones.now) (colours_in white cones.now) de.old }
    ensures { Figures (differences_from l c mean (colours_in white cones.now)) de.old result
        de.new }
{
    let mut far = Far { most: 0, at: 0 };
    for (i, entry) in de[..cones.len()].iter_mut().enumerate() {
        let d = difference_from(l, c, mean, cones.colour(white, i));
        *entry = figure_of(d);
        far = farther(far, d, i as u32);
    }
    far
}
