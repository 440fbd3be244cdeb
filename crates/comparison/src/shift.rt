// Lines 1 and 2: test minus reference.
ghost use Rattle.std.specs.Prelude.{◌≡◌, ◌^◌, ◌≤◌, ◌<◌};
ghost use Rattle.rounding.specs.Signed.{∣◌∣};
ghost use Rattle.colour.specs.Conversion.{at_places};
ghost use Rattle.colour.specs.Conversion.Ranges.{OnGrid};
ghost use Rattle.sheet.specs.Sheet.{chroma_of, distance², change, cross_of, dot_of, hue_change, shift};

use colour::conversion::GridColour;
use rounding::roots::square_root;
use rounding::signed::{less, magnitude, with_sign};
use sheet::products::{less_products, plus_products, squares};
use sheet::shift::{Shift, same_hue};

// A colour of the grid with its chroma.
#[derive(Clone, Copy)]
pub(crate) struct WithChroma {
    pub(crate) colour: GridColour,
    pub(crate) C: u64,
    ghost on_grid: { OnGrid colour },
    ghost is_chroma: { C ≡ chroma_of (at_places 20 colour) },
}

// Line 2: the cross x and the dot y.
#[derive(Clone, Copy)]
pub(crate) struct Turn {
    pub(crate) x: i64,
    pub(crate) y: i64,
}

fn change_of(r: u64, t: u64) -> i64
    requires { (r < 2 ^ 60) × (t < 2 ^ 60) }
    ensures { result ≡ change r t }
{
    less(t as i64, r as i64)
}

// ΔH of D², ΔC and the turn.
#[tactic(auto, unfolding(sheet::specs::Sheet::hue_change))]
fn hue_change(d2: u64, dc: i64, turn: Turn) -> i64
    requires { ∣ dc ∣ ≤ 2 ^ 31 }
    ensures { result ≡ hue_change d2 dc turn.x turn.y }
{
    if same_hue(turn.x, turn.y) {
        return 0;
    }
    let m = magnitude(dc);
    let c2 = m * m;
    if d2 < c2 {
        return 0;
    }
    with_sign(turn.x < 0, square_root(d2 - c2))
}

impl WithChroma {
    // D² from this colour to another, exact: both squares and their sum fit 64 bits.
    fn distance_squared(self, t: WithChroma) -> u64
        ensures { result ≡ distance² self.colour.a.0 self.colour.b.0 t.colour.a.0 t.colour.b.0 }
    {
        let r = self.colour;
        let t = t.colour;
        squares(less(t.a.0, r.a.0), less(t.b.0, r.b.0))
    }

    // The turn from this colour to another.
    #[tactic(auto, unfolding(sheet::specs::Sheet::cross, sheet::specs::Sheet::dot))]
    pub(crate) fn turn_to(self, t: WithChroma) -> Turn
        ensures cross { result.x ≡ cross_of self.colour t.colour }
        ensures dot { result.y ≡ dot_of self.colour t.colour }
    {
        let r = self.colour;
        let t = t.colour;
        Turn {
            x: less_products(r.a.0, t.b.0, t.a.0, r.b.0),
            y: plus_products(r.a.0, t.a.0, r.b.0, t.b.0),
        }
    }

    // Lines 1 and 2, where the turn is at hand.
    #[tactic(auto, unfolding(sheet::specs::Sheet::shift))]
    pub(crate) fn shift_to(self, t: WithChroma, turn: Turn) -> Shift
        requires cross { turn.x ≡ cross_of self.colour t.colour }
        requires dot { turn.y ≡ dot_of self.colour t.colour }
        ensures { result ≡ shift (at_places 20 self.colour) (at_places 20 t.colour) }
    {
        let dl = change_of(magnitude(self.colour.L.0), magnitude(t.colour.L.0));
        let dc = change_of(self.C, t.C);
        let dh = hue_change(self.distance_squared(t), dc, turn);
        Shift {
            L: dl,
            C: dc,
            H: dh,
        }
    }
}
