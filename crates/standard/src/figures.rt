// What a load and a judgement hand back as floats: the refusal's number or 0, and the figures, all 0.0 on a refusal. A
// number beside figures, and no Result: so C takes it, and `specs/Figures.antt` has the zeros.
ghost use Rattle.std.specs.Prelude.{◌≡◌};
ghost use Rattle.colour.specs.Conversion.Ranges.{OnGrid};
ghost use Rattle.standard.specs.Acceptance.{ValidIn};
ghost use Rattle.standard.specs.Figures.{reference_figures, reference_answer, specimen_figures, specimen_answer};

use crate::accept::{Acceptance, Standard};
use crate::judge::Outcome;
use colour::conversion::GridColour;
use names::{Chroma, Hue, Lightness};
use reading::grid::{Grid, value_of};
use semi_axes::semi_axes_of;
use sheet::differences::Differences;
use sheet::verdict::Verdict;

// The reference's.
#[derive(Clone, Copy)]
pub struct ReferenceFigures {
    pub L: f64,
    pub a: f64,
    pub b: f64,
    pub C: f64,
    pub SL: f64,
    pub SC: f64,
    pub SH: f64,
}

#[derive(Clone, Copy)]
pub struct ReferenceAnswer {
    pub number: u32,
    pub figures: ReferenceFigures,
}

// The test specimen's.
#[derive(Clone, Copy)]
pub struct SpecimenFigures {
    pub L: f64,
    pub a: f64,
    pub b: f64,
    pub C: f64,
    pub DL: f64,
    pub DC: f64,
    pub DH: f64,
    pub DE: f64,
}

#[derive(Clone, Copy)]
pub struct Names {
    pub lightness: Lightness,
    pub chroma: Chroma,
    pub hue: Hue,
    pub verdict: Verdict,
}

#[derive(Clone, Copy)]
pub struct SpecimenAnswer {
    pub number: u32,
    pub figures: SpecimenFigures,
    pub names: Option<Names>,
}

#[tactic(auto, unfolding(crate::specs::Figures::reference_figures))]
fn reference_figures(s: Standard) -> ReferenceFigures
    requires { OnGrid s.colour }
    ensures { result ≡ reference_figures s }
{
    let colour = s.colour;
    let axes = semi_axes_of(s.settings.formula, colour);
    ReferenceFigures {
        L: colour.L.value(),
        a: colour.a.value(),
        b: colour.b.value(),
        C: value_of(axes.C),
        SL: value_of(axes.SL),
        SC: value_of(axes.SC),
        SH: value_of(axes.SH),
    }
}

// The answer of a load.
#[tactic(auto, unfolding(crate::specs::Figures::reference_answer))]
pub fn reference_answer(a: Acceptance) -> ReferenceAnswer
    requires { ValidIn a }
    ensures { result ≡ reference_answer a }
{
    match a {
        Err(refusal) => ReferenceAnswer {
            number: u32::from(refusal),
            figures: ReferenceFigures {
                L: 0.0,
                a: 0.0,
                b: 0.0,
                C: 0.0,
                SL: 0.0,
                SC: 0.0,
                SH: 0.0,
            },
        },
        Ok(s) => ReferenceAnswer {
            number: 0,
            figures: reference_figures(s),
        },
    }
}

#[tactic(auto, unfolding(crate::specs::Figures::specimen_figures))]
fn specimen_figures(test: GridColour, c: u64, d: Differences) -> SpecimenFigures
    ensures { result ≡ specimen_figures test c d }
{
    SpecimenFigures {
        L: test.L.value(),
        a: test.a.value(),
        b: test.b.value(),
        C: value_of(c),
        DL: Grid(d.DL).value(),
        DC: Grid(d.DC).value(),
        DH: Grid(d.DH).value(),
        DE: value_of(d.DE),
    }
}

// The answer of a judgement or a ticket.
#[tactic(auto, unfolding(crate::specs::Figures::specimen_answer))]
pub fn specimen_answer(o: Outcome) -> SpecimenAnswer
    ensures { result ≡ specimen_answer o }
{
    match o {
        Err(refusal) => SpecimenAnswer {
            number: u32::from(refusal),
            figures: SpecimenFigures {
                L: 0.0,
                a: 0.0,
                b: 0.0,
                C: 0.0,
                DL: 0.0,
                DC: 0.0,
                DH: 0.0,
                DE: 0.0,
            },
            names: None,
        },
        Ok(j) => SpecimenAnswer {
            number: 0,
            figures: specimen_figures(j.test, j.comparison.C, j.comparison.differences),
            names: Some(Names {
                lightness: j.lightness,
                chroma: j.chroma,
                hue: j.hue,
                verdict: j.verdict,
            }),
        },
    }
}
