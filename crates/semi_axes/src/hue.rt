// Lines 5 to 7: SH.
ghost use Rattle.std.specs.Prelude.{◌≡◌, ◌*◌, ◌^◌, ◌≤◌, ◌<◌};
ghost use Rattle.sheet.specs.Sheet.{hue_q, hue_w, hue_f, second_form, hue_m, hue_t, hue_p, hue_g, semi_axis_h, hue_semi_axis};
ghost use Rattle.semi_axes.specs.Ranges.{HueParts};

use crate::chroma::Point;
use reading::grid::Grid;
use rounding::fraction::fraction;
use rounding::roots::square_root;
use rounding::signed::magnitude;
use sheet::products::{less_products, plus_products, squares};

// One in the units of Q and W, of which 2^13 make it.
const COARSE_ONE: u64 = Grid::UNITS_IN_ONE / 128;

// Line 5: W, in units of 2^-13, in which 1900 and the square of Q fit 64 bits together.
#[tactic(auto, unfolding(sheet::specs::Sheet::hue_w))]
fn hue_w(q: u64) -> u64
    requires { q ≤ 2 ^ 30 }
    ensures is { result ≡ hue_w 20 q }
    ensures some { 0 < result }
{
    square_root(q * q + 1900 * (COARSE_ONE * COARSE_ONE))
}

// Line 7: P and G on the way to SH.
#[tactic(auto, unfolding(sheet::specs::Sheet::hue_p, sheet::specs::Sheet::hue_g, sheet::specs::Sheet::semi_axis_h))]
fn semi_axis_h(sc: u64, f: u64, t: u64) -> u64
    requires { HueParts sc f t }
    ensures { result ≡ semi_axis_h 20 sc (hue_g 20 (hue_p 20 f t) f) }
{
    let p = f * t / Grid::UNITS_IN_ONE;
    let g = p + Grid::UNITS_IN_ONE - f;
    sc * g / Grid::UNITS_IN_ONE
}

impl Point {
    // Line 5: Q, in the units of W.
    #[tactic(auto, unfolding(sheet::specs::Sheet::hue_q))]
    fn hue_q(self) -> u64
        ensures is { result ≡ hue_q 20 self.a self.b }
        ensures small { result ≤ 2 ^ 30 }
    {
        squares(self.a, self.b) / (128 * Grid::UNITS_IN_ONE)
    }

    // Line 5: F, in grid units again.
    #[tactic(auto, unfolding(sheet::specs::Sheet::hue_f))]
    fn hue_f(self) -> u64
        ensures is { result ≡ hue_f 20 (hue_q 20 self.a self.b) (hue_w 20 (hue_q 20 self.a self.b)) }
        ensures small { result ≤ 2 ^ 20 }
    {
        let q = self.hue_q();
        q * Grid::UNITS_IN_ONE / hue_w(q)
    }

    // Whether T takes its second form: one half-plane would span 180 degrees, and the sector spans 181.
    #[tactic(auto, unfolding(sheet::specs::Sheet::second_form))]
    fn second_form(self) -> bool
        ensures { result ≡ second_form self.a self.b }
    {
        plus_products(27563736, self.a, 96126170, self.b) < 0
            || plus_products(25881905, self.a, 96592583, self.b) < 0
    }

    // Line 6: the magnitude in T, in units of 10^-8.
    #[tactic(auto, unfolding(sheet::specs::Sheet::hue_m))]
    fn hue_m(self, second: bool) -> u64
        ensures is { result ≡ hue_m second self.a self.b }
        ensures most { result ≤ 139272848 * self.C }
    {
        if second {
            magnitude(plus_products(97814760, self.a, 20791169, self.b))
        } else {
            magnitude(less_products(81915204, self.a, 57357644, self.b))
        }
    }

    // Line 6 of a colour that is not neutral: T. Its numerator at 20 places does not fit 64 bits, so the places come by
    // long division.
    #[tactic(auto, unfolding(sheet::specs::Sheet::hue_t))]
    fn hue_t(self) -> u64
        requires { 0 < self.C }
        ensures is { result ≡ hue_t 20 (second_form self.a self.b) (hue_m (second_form self.a self.b) self.a self.b) self.C }
        ensures small { result ≤ 2 ^ 20 }
    {
        let second = self.second_form();
        let m = self.hue_m(second);
        let c = self.C;
        if second {
            fraction(560000000 * c + 2 * m, 1000000000 * c, 20)
        } else {
            fraction(360000000 * c + 4 * m, 1000000000 * c, 20)
        }
    }

    // SH, or SC if a = b = 0: the chroma is 0 only there.
    pub(crate) fn hue_semi_axis(self, sc: u64) -> u64
        requires { sc ≤ 2 ^ 23 }
        ensures { result ≡ hue_semi_axis 20 self.a self.b self.C sc }
    {
        if self.C == 0 {
            return sc;
        }
        semi_axis_h(sc, self.hue_f(), self.hue_t())
    }
}
