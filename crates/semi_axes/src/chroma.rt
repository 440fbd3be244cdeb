// Line 1 of one colour.
ghost use Rattle.std.specs.Prelude.{◌≡◌, ◌^◌, ◌≤◌, ◌<◌};
ghost use Rattle.rounding.specs.Signed.{∣◌∣};
ghost use Rattle.colour.specs.Conversion.{at_places};
ghost use Rattle.colour.specs.Conversion.Ranges.{OnGrid};
ghost use Rattle.sheet.specs.Sheet.{chroma, chroma_of};

use colour::conversion::GridColour;
use rounding::roots::square_root;
use sheet::products::squares;

// A point of the a*b* plane of the grid, with its chroma, worked out once.
#[derive(Clone, Copy)]
pub(crate) struct Point {
    pub(crate) a: i64,
    pub(crate) b: i64,
    pub(crate) C: u64,
    ghost a_on_grid: { ∣ a ∣ ≤ 2 ^ 28 },
    ghost b_on_grid: { ∣ b ∣ ≤ 2 ^ 28 },
    ghost is_chroma: { C ≡ chroma a b },
    ghost C_small: { C < 2 ^ 29 },
}

impl Point {
    // Where a colour of the grid stands.
    pub(crate) fn of(c: GridColour) -> Point
        requires { OnGrid c }
        ensures a { result.a ≡ c.a.0 }
        ensures b { result.b ≡ c.b.0 }
    {
        let a = c.a.0;
        let b = c.b.0;
        Point {
            a,
            b,
            C: square_root(squares(a, b)),
        }
    }
}

pub fn chroma_of(c: GridColour) -> u64
    requires { OnGrid c }
    ensures { result ≡ chroma_of (at_places 20 c) }
{
    Point::of(c).C
}
