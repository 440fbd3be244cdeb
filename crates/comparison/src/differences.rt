// Line 8.
ghost use Rattle.std.specs.Prelude.{◌≡◌, ◌^◌, ◌≤◌};
ghost use Rattle.rounding.specs.Signed.{∣◌∣};
ghost use Rattle.sheet.specs.Settings.{Factor};
ghost use Rattle.sheet.specs.Ranges.{SemiAxis, SemiAxesInRange, Moved, Components};
ghost use Rattle.sheet.specs.Sheet.{component, component_h, total, differences};

use reading::grid::Grid;
use rounding::roots::square_root;
use rounding::signed::{magnitude, quotient};
use sheet::differences::Differences;
use sheet::products::squares;
use sheet::semi_axes::SemiAxes;
use sheet::shift::Shift;

// DL of l, SL and ΔL, and DC of c, SC and ΔC.
#[tactic(auto, unfolding(sheet::specs::Sheet::component))]
fn component_of(l: u64, s: u64, z: i64) -> i64
    requires { (Factor l) × (SemiAxis s) × (∣ z ∣ ≤ 2 ^ 29) }
    ensures { result ≡ component 20 l s z }
{
    quotient(1000 * Grid::UNITS_IN_ONE, z, l * s)
}

// DH of SH and ΔH, which goes by no factor.
#[tactic(auto, unfolding(sheet::specs::Sheet::component_h))]
fn component_h(s: u64, z: i64) -> i64
    requires { (SemiAxis s) × (∣ z ∣ ≤ 2 ^ 30) }
    ensures { result ≡ component_h 20 s z }
{
    quotient(Grid::UNITS_IN_ONE, z, s)
}

#[tactic(auto, unfolding(sheet::specs::Sheet::total))]
fn total_of(dl: i64, dc: i64, dh: i64) -> u64
    requires { Components dl dc dh }
    ensures { result ≡ total dl dc dh }
{
    let m = magnitude(dh);
    square_root(squares(dl, dc) + m * m)
}

#[tactic(auto, unfolding(sheet::specs::Sheet::differences))]
pub(crate) fn differences_of(l: u64, c: u64, s: SemiAxes, z: Shift) -> Differences
    requires { (Factor l) × (Factor c) × (SemiAxesInRange s) × (Moved z) }
    ensures { result ≡ differences 20 l c s z }
{
    let dl = component_of(l, s.SL, z.L);
    let dc = component_of(c, s.SC, z.C);
    let dh = component_h(s.SH, z.H);
    let de = total_of(dl, dc, dh);
    Differences {
        DL: dl,
        DC: dc,
        DH: dh,
        DE: de,
    }
}
