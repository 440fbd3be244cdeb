// A reading's place on the grid, or why it is refused.
ghost use Rattle.std.specs.Prelude.{◌≡◌};
ghost use Rattle.colour.specs.Placed.{is_not_finite, fault, take, accepted, converted, place_xyz, place_lab, place_by};
ghost use Rattle.colour.specs.Placed.{in_space};
ghost use Rattle.colour.specs.Placed.Ranges.{Millionths, XyzWithin};

use crate::conversion::{GridColour, grid_colour};
use crate::refusal::Refusal;
use crate::white::{TristimulusValues, White};
use reading::decimal::Decimal;
use reading::grid::Grid;
use reading::number::Number;
use reading::quantity::{Quantity, ReadError, Units};
use rounding::signed::magnitude;

// What three numbers are: tristimulus values, or coordinates L*, a*, b*.
#[derive(Clone, Copy, Debug, PartialEq, Eq)]
pub enum Space {
    Xyz,
    Lab,
}

// Tristimulus values, or coordinates L*, a*, b*.
#[derive(Clone, Copy)]
pub enum Values<N> {
    Xyz(N, N, N),
    Lab(N, N, N),
}

// As an instrument gives them.
pub type Reading = Values<f64>;

// As a ticket writes them.
pub type Written = Values<Decimal>;

// Where a reading lies, or why it is refused.
pub type Placed = Result<GridColour, Refusal>;

impl<N: Copy> Values<N> {
    // Three numbers of a space.
    pub fn of(space: Space, x: N, y: N, z: N) -> Values<N>
        ensures { result ≡ in_space space x y z }
    {
        match space {
            Space::Xyz => Values::Xyz(x, y, z),
            Space::Lab => Values::Lab(x, y, z),
        }
    }
}

fn is_not_finite(u: Units) -> bool
    ensures { result ≡ is_not_finite u }
{
    u == Err(ReadError::NotFinite)
}

// What refuses three readings of which one has no units: three, and no array, since each is of a quantity of its own.
fn fault_of(u: Units, v: Units, w: Units) -> Refusal
    ensures { result ≡ fault u v w }
{
    if is_not_finite(u) || is_not_finite(v) || is_not_finite(w) {
        Refusal::NotANumber
    } else {
        Refusal::OutOfRange
    }
}

// A converted colour, unless a* or b* lies beyond 256.
#[tactic(auto, unfolding(crate::specs::Placed::accepted))]
fn accepted_colour(c: GridColour) -> Placed
    ensures { result ≡ accepted c }
{
    if c.a.is_opponent() && c.b.is_opponent() {
        Ok(c)
    } else {
        Err(Refusal::Beyond256)
    }
}

// X, Y, Z in millionths, converted.
fn converted_colour(x: i64, y: i64, z: i64, white: White) -> GridColour
    requires { Millionths x y z }
    ensures { result ≡ converted white x y z }
{
    let c = TristimulusValues {
        X: magnitude(x),
        Y: magnitude(y),
        Z: magnitude(z),
    };
    grid_colour(c, white.tristimulus())
}

// X, Y, Z as they were read.
#[tactic(auto, unfolding(crate::specs::Placed::take))]
fn place_xyz(u: Units, v: Units, w: Units, white: White) -> Placed
    requires { XyzWithin u v w }
    ensures { result ≡ take u v w (place_xyz white) }
{
    match (u, v, w) {
        (Ok(x), Ok(y), Ok(z)) => accepted_colour(converted_colour(x, y, z, white)),
        _ => Err(fault_of(u, v, w)),
    }
}

// L*, a*, b* as they were read. By itself: they are not converted, and no colour of theirs lies beyond 256.
#[tactic(auto, unfolding(crate::specs::Placed::take))]
fn place_lab(u: Units, v: Units, w: Units) -> Placed
    ensures { result ≡ take u v w place_lab }
{
    match (u, v, w) {
        (Ok(l), Ok(a), Ok(b)) => Ok(GridColour {
            L: Grid(l),
            a: Grid(a),
            b: Grid(b),
        }),
        _ => Err(fault_of(u, v, w)),
    }
}

// Where a reading, or a written one, lies on the grid.
#[tactic(auto, unfolding(crate::specs::Placed::place_by))]
pub fn place<N: Number>(r: Values<N>, white: White) -> Placed
    ensures { result ≡ place_by N.units white r }
{
    match r {
        Values::Xyz(x, y, z) => {
            let u = x.units(Quantity::Tristimulus);
            let v = y.units(Quantity::Tristimulus);
            let w = z.units(Quantity::Tristimulus);
            place_xyz(u, v, w, white)
        }
        Values::Lab(l, a, b) => {
            let u = l.units(Quantity::Lightness);
            let v = a.units(Quantity::Opponent);
            let w = b.units(Quantity::Opponent);
            place_lab(u, v, w)
        }
    }
}
