// SCOPE 5, from X, Y, Z to the grid by the constants of BS 6923: the lines of specs/Conversion.antt at 20 places.
ghost use Rattle.std.specs.Prelude.{◌≡◌, pos, ◌-ℤ◌, ◌*ℤ◌};
ghost use Rattle.colour.specs.Conversion.{bs6923, above_cut, f_high, f_low, f, lightness, convert, grid_colour};
ghost use Rattle.colour.specs.Conversion.{on_grid};
ghost use Rattle.colour.specs.Conversion.Ranges.{Against, Measured, Opposed};

use crate::white::TristimulusValues;
use reading::grid::Grid;
use rounding::fraction::fraction;
use rounding::roots::cube_root;
use rounding::signed::{less, product};

// A colour in units of the grid. Not every one lies on it: `is_on_grid` answers for any, so no invariant says so.
#[derive(Clone, Copy)]
pub struct GridColour {
    pub L: Grid,
    pub a: Grid,
    pub b: Grid,
}

impl GridColour {
    // Whether L*, a* and b* lie in their ranges.
    #[tactic(auto, unfolding(crate::specs::Conversion::on_grid))]
    pub fn is_on_grid(self) -> bool
        ensures { result ≡ on_grid self }
    {
        self.L.is_lightness() && self.a.is_opponent() && self.b.is_opponent()
    }
}

// X, Y or Z of a specimen, and the white's own: their ratio is X/Xn of the paper.
#[derive(Clone, Copy)]
struct Ratio {
    x: u64,
    w: u64,
    ghost against: { Against x w },
}

impl Ratio {
    #[tactic(auto, unfolding(crate::specs::Conversion::above_cut))]
    fn is_above_cut(self) -> bool
        ensures { result ≡ above_cut bs6923 self.x self.w }
    {
        8856 * self.w < self.x * 1000000
    }

    // f above the cut.
    #[tactic(auto, unfolding(crate::specs::Conversion::f_high))]
    fn f_high(self) -> u64
        ensures { result ≡ f_high 20 self.x self.w }
    {
        cube_root(fraction(self.x, self.w, 60))
    }

    // f up to the cut.
    #[tactic(auto, unfolding(crate::specs::Conversion::f_low))]
    fn f_low(self) -> u64
        ensures { result ≡ f_low 20 bs6923 self.x self.w }
    {
        let p = 7787 * self.x;
        let d = 1000 * self.w;
        fraction(p * 116 + d * 16, d * 116, 20)
    }

    #[tactic(auto, unfolding(crate::specs::Conversion::f))]
    fn f(self) -> u64
        ensures { result ≡ f 20 bs6923 self.x self.w }
    {
        if self.is_above_cut() {
            self.f_high()
        } else {
            self.f_low()
        }
    }

    // L* of Y, where fy is its f.
    #[tactic(auto, using(crate::proofs::Theorems::Conversion::Laws::f_lt, crate::proofs::Theorems::Conversion::Laws::le_f), unfolding(crate::specs::Conversion::lightness))]
    fn lightness(self, fy: u64) -> u64
        requires { fy ≡ f 20 bs6923 self.x self.w }
        ensures { result ≡ lightness 20 bs6923 self.x self.w }
    {
        let above = self.is_above_cut();
        if above {
            116 * fy - 16 * Grid::UNITS_IN_ONE
        } else {
            fraction(9033 * self.x, 10 * self.w, 20)
        }
    }
}

// a* or b*: k is 500 or 200.
fn opponent_of(k: i64, p: u64, q: u64) -> i64
    requires { Opposed k p q }
    ensures { result ≡ k *ℤ (pos p -ℤ pos q) }
{
    product(k, less(p as i64, q as i64))
}

// X, Y, Z against a white, on the grid.
#[tactic(auto, using(crate::proofs::Theorems::Conversion::Laws::f_lt))]
pub(crate) fn grid_colour(c: TristimulusValues, white: TristimulusValues) -> GridColour
    requires { Measured c white }
    ensures { result ≡ grid_colour (convert 20 bs6923 white c) }
{
    let x = Ratio { x: c.X, w: white.X };
    let y = Ratio { x: c.Y, w: white.Y };
    let z = Ratio { x: c.Z, w: white.Z };
    let fx = x.f();
    let fy = y.f();
    let fz = z.f();
    GridColour {
        L: Grid(y.lightness(fy) as i64),
        a: Grid(opponent_of(500, fx, fy)),
        b: Grid(opponent_of(200, fy, fz)),
    }
}
