// Judges a test specimen by a standard.
ghost use Rattle.std.specs.Prelude.{◌≡◌};
ghost use Rattle.standard.specs.Judgement.{Judgeable, Specimen, judgement_of, outcome};

use crate::accept::Standard;
use colour::conversion::GridColour;
use colour::placed::Placed;
use colour::refusal::Refusal;
use comparison::comparison_of;
use names::{Chroma, Hue, Lightness, chroma_name, hue_name, is_withheld, lightness_name};
use sheet::comparison::Comparison;
use sheet::scaled::Scaled;
use sheet::verdict::Verdict;

// All that a judgement finds, with the standard that it goes by.
#[derive(Clone, Copy)]
pub struct Judgement {
    pub standard: Standard,
    pub test: GridColour,
    pub comparison: Comparison,
    pub lightness: Lightness,
    pub chroma: Chroma,
    pub hue: Hue,
    pub verdict: Verdict,
    // Whether a report withholds DC, DH and their names.
    pub withheld: bool,
}

// What a test specimen comes to.
pub type Outcome = Result<Judgement, Refusal>;

// The sheet, the names and the verdict: the semi-axes are worked out anew from the standard.
fn judgement_of(s: Standard, t: GridColour) -> Judgement
    requires { Specimen s t }
    ensures { result ≡ judgement_of s t }
{
    let by = s.settings;
    let r = s.colour;
    let found = comparison_of(by.formula, by.l, by.c, r, t);
    let tolerance = Scaled::tolerance(by.formula, by.tolerance);
    Judgement {
        standard: s,
        test: t,
        comparison: found,
        lightness: lightness_name(found.shift.L),
        chroma: chroma_name(found.shift.C),
        hue: hue_name(found.cross, found.dot, r.a.0, r.b.0),
        verdict: found.scaled.verdict(tolerance),
        withheld: is_withheld(by.formula, r, t),
    }
}

// The judgement, or the test specimen's refusal.
#[tactic(auto, unfolding(crate::specs::Judgement::outcome))]
pub fn judge(s: Standard, test: Placed) -> Outcome
    requires { Judgeable s test }
    ensures { result ≡ outcome s test }
{
    Ok(judgement_of(s, test?))
}
