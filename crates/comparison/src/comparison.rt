// The whole sheet.
ghost use Rattle.std.specs.Prelude.{◌≡◌};
ghost use Rattle.sheet.specs.Ranges.{InRange};
ghost use Rattle.sheet.specs.Sheet.{comparison};

use crate::differences::differences_of;
use crate::shift::WithChroma;
use colour::conversion::GridColour;
use semi_axes::{chroma_of, semi_axes_of};
use sheet::comparison::Comparison;
use sheet::formula::Formula;
use sheet::scaled::Scaled;

// Each chroma, the cross and the dot are worked out once. l and c stand by themselves, as in CMC(l:c).
pub fn comparison_of(formula: Formula, l: u64, c: u64, r: GridColour, t: GridColour) -> Comparison
    requires { InRange l c r t }
    ensures { result ≡ comparison 20 formula l c r t }
{
    let s = semi_axes_of(formula, r);
    let reference = WithChroma { colour: r, C: s.C };
    let specimen = WithChroma {
        colour: t,
        C: chroma_of(t),
    };
    let turn = reference.turn_to(specimen);
    let z = reference.shift_to(specimen, turn);
    let lf = formula.factor(l);
    let cf = formula.factor(c);
    let d = differences_of(lf, cf, s, z);
    let scaled = Scaled::difference(formula, d.DE);
    Comparison {
        C: specimen.C,
        shift: z,
        cross: turn.x,
        dot: turn.y,
        differences: d,
        scaled: scaled,
    }
}
