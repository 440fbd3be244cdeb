// SCOPE 13.2: the mean colour of a delivery, or its first refusal.
ghost use Rattle.std.specs.Prelude.{◌≡◌, ◌≤◌, length};
ghost use Rattle.cones.specs.Cones.{cones_in};
ghost use Rattle.delivery.specs.Sums.{Adds, with_colour, summed, Shares, mean_of_sums};

use colour::conversion::GridColour;
use colour::placed::place;
use colour::refusal::Refusal;
use colour::white::White;
use cones::Cones;
use reading::grid::Grid;
use rounding::nearest::mean_of;

// The sums of L*, a* and b*, in units of the grid.
#[derive(Clone, Copy)]
pub struct Sums {
    pub L: i64,
    pub a: i64,
    pub b: i64,
}

// A refusal, and the cone that it is of.
#[derive(Clone, Copy, Debug, PartialEq, Eq)]
pub struct RefusedCone {
    pub refusal: Refusal,
    pub cone: u32,
}

// The sums with one cone more.
fn with_colour(s: Sums, c: GridColour) -> Sums
    requires { Adds s c }
    ensures { result ≡ with_colour s c }
{
    Sums {
        L: s.L + c.L.0,
        a: s.a + c.a.0,
        b: s.b + c.b.0,
    }
}

// Each cone in turn is added, or refuses the delivery.
pub(crate) fn sum_of(white: White, cones: &Cones<'_>) -> Result<Sums, RefusedCone>
    requires { length cones.now ≤ 256 }
    ensures { result ≡ summed (cones_in white cones.now) }
{
    let mut sums = Sums { L: 0, a: 0, b: 0 };
    for i in 0..cones.len() {
        let colour = place(cones.reading(i), white).map_err(|refusal| RefusedCone {
            refusal,
            cone: i as u32,
        })?;
        sums = with_colour(sums, colour);
    }
    Ok(sums)
}

// The mean colour of n cones.
pub(crate) fn mean_colour(s: Sums, n: u64) -> GridColour
    requires { Shares s n }
    ensures { result ≡ mean_of_sums s n }
{
    GridColour {
        L: Grid(mean_of(s.L, n)),
        a: Grid(mean_of(s.a, n)),
        b: Grid(mean_of(s.b, n)),
    }
}
