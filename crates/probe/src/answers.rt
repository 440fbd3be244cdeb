// What load, judge and ticket hand back, as C takes it: figures as doubles, names and the verdict as numbers. A load
// and a judgement stand twice, as in libshade.a.
ghost use Rattle.std.specs.Prelude.{◌≡◌};
ghost use Rattle.colour.specs.declared.placed.Values.TheVariants.{Xyz, Lab};
ghost use Rattle.standard.specs.Acceptance.{settings_by, settings_of};
ghost use Rattle.standard.specs.Figures.{reference_answer, specimen_answer};
ghost use Rattle.ticket.specs.Ticket.{ticket_of};
ghost use Rattle.station.specs.Record.{decode};
ghost use Rattle.calls.specs.Outcome.{loaded, judged_by};
ghost use Rattle.calls.specs.Line.{ticket_answer};
ghost use Rattle.probe.specs.Answers.{lightness_number, chroma_number, axis_number, hue_number, bracket_number};
ghost use Rattle.probe.specs.Answers.{verdict_number, words_of, reference_of, specimen_of};

use calls::{judge_figures, load_figures, ticket_figures};
use colour::placed::Reading;
use names::{Axis, Chroma, Hue, Lightness};
use sheet::verdict::Verdict;
use standard::accept::LoadNumbers;
use standard::figures::{Names, SpecimenAnswer};

// A load's answer: its refusal number or 0, then the reference's figures.
#[repr(C)]
#[derive(Clone, Copy)]
pub struct Reference {
    pub number: u32,
    pub lightness: f64,
    pub a: f64,
    pub b: f64,
    pub c: f64,
    pub sl: f64,
    pub sc: f64,
    pub sh: f64,
}

// Names and the verdict, each counted from 1 in the order of SCOPE 6.4 and 7; 0 is none.
#[repr(C)]
#[derive(Clone, Copy)]
pub struct Words {
    pub lightness: u32,
    pub chroma: u32,
    pub hue: u32,
    pub bracket: u32,
    pub verdict: u32,
}

// A judgement's or a ticket's: the test specimen's figures, its names and the verdict.
#[repr(C)]
#[derive(Clone, Copy)]
pub struct Specimen {
    pub number: u32,
    pub lightness: f64,
    pub a: f64,
    pub b: f64,
    pub c: f64,
    pub dl: f64,
    pub dc: f64,
    pub dh: f64,
    pub de: f64,
    pub words: Words,
}

// By hand: `From` for a number would have to stand in `names`, and the product numbers no name.
fn lightness_number(x: Lightness) -> u32
    ensures { result ≡ lightness_number x }
{
    match x {
        Lightness::Lighter => 1,
        Lightness::Darker => 2,
        Lightness::Equal => 3,
    }
}

fn chroma_number(x: Chroma) -> u32
    ensures { result ≡ chroma_number x }
{
    match x {
        Chroma::More => 1,
        Chroma::Less => 2,
        Chroma::Equal => 3,
    }
}

fn axis_number(x: Axis) -> u32
    ensures { result ≡ axis_number x }
{
    match x {
        Axis::Redder => 1,
        Axis::Yellower => 2,
        Axis::Greener => 3,
        Axis::Bluer => 4,
    }
}

fn hue_number(x: Hue) -> u32
    ensures { result ≡ hue_number x }
{
    match x {
        Hue::Towards(name, _) => axis_number(name),
        Hue::Equal => 5,
    }
}

// Equal in hue has no bracket.
fn bracket_number(x: Hue) -> u32
    ensures { result ≡ bracket_number x }
{
    match x {
        Hue::Towards(_, bracket) => axis_number(bracket),
        Hue::Equal => 0,
    }
}

fn verdict_number(x: Verdict) -> u32
    ensures { result ≡ verdict_number x }
{
    match x {
        Verdict::Near => 1,
        Verdict::Pass => 2,
        Verdict::Fail => 3,
    }
}

#[tactic(auto, unfolding(crate::specs::Answers::words_of))]
fn words_of(n: Option<Names>) -> Words
    ensures { result ≡ words_of n }
{
    match n {
        None => Words {
            lightness: 0,
            chroma: 0,
            hue: 0,
            bracket: 0,
            verdict: 0,
        },
        Some(names) => Words {
            lightness: lightness_number(names.lightness),
            chroma: chroma_number(names.chroma),
            hue: hue_number(names.hue),
            bracket: bracket_number(names.hue),
            verdict: verdict_number(names.verdict),
        },
    }
}

#[tactic(auto, unfolding(crate::specs::Answers::specimen_of))]
fn specimen_of(x: SpecimenAnswer) -> Specimen
    ensures { result ≡ specimen_of x }
{
    let names = x.names;
    let words = words_of(names);
    Specimen {
        number: x.number,
        lightness: x.figures.L,
        a: x.figures.a,
        b: x.figures.b,
        c: x.figures.C,
        dl: x.figures.DL,
        dc: x.figures.DC,
        dh: x.figures.DH,
        de: x.figures.DE,
        words,
    }
}

#[tactic(auto, unfolding(crate::specs::Answers::reference_of))]
fn load_answer(n: LoadNumbers, r: Reading) -> Reference
    ensures { result ≡ reference_of (reference_answer (loaded (settings_by n) r)) }
{
    let x = load_figures(n, r);
    Reference {
        number: x.number,
        lightness: x.figures.L,
        a: x.figures.a,
        b: x.figures.b,
        c: x.figures.C,
        sl: x.figures.SL,
        sc: x.figures.SC,
        sh: x.figures.SH,
    }
}

fn judge_answer(station: &[u8], r: Reading) -> Specimen
    ensures { result ≡ specimen_of (specimen_answer (judged_by (decode station.now) r)) }
{
    specimen_of(judge_figures(station, r))
}

#[unsafe(no_mangle)]
pub extern "C" fn probe_load_xyz(
    formula: u32,
    white: u32,
    l: u32,
    c: u32,
    tolerance: u32,
    x: f64,
    y: f64,
    z: f64,
) -> Reference
    ensures { result ≡ reference_of (reference_answer (loaded (settings_of formula white l c tolerance) (Xyz x y z))) }
{
    let n = LoadNumbers {
        formula,
        white,
        l,
        c,
        tolerance,
    };
    load_answer(n, Reading::Xyz(x, y, z))
}

#[unsafe(no_mangle)]
pub extern "C" fn probe_load_lab(
    formula: u32,
    white: u32,
    l: u32,
    c: u32,
    tolerance: u32,
    lightness: f64,
    a: f64,
    b: f64,
) -> Reference
    ensures { result ≡ reference_of (reference_answer (loaded (settings_of formula white l c tolerance)
        (Lab lightness a b))) }
{
    let n = LoadNumbers {
        formula,
        white,
        l,
        c,
        tolerance,
    };
    load_answer(n, Reading::Lab(lightness, a, b))
}

#[unsafe(no_mangle)]
pub extern "C" fn probe_judge_xyz(station: &[u8], x: f64, y: f64, z: f64) -> Specimen
    ensures { result ≡ specimen_of (specimen_answer (judged_by (decode station.now) (Xyz x y z))) }
{
    judge_answer(station, Reading::Xyz(x, y, z))
}

#[unsafe(no_mangle)]
pub extern "C" fn probe_judge_lab(station: &[u8], lightness: f64, a: f64, b: f64) -> Specimen
    ensures { result ≡ specimen_of (specimen_answer (judged_by (decode station.now) (Lab lightness a b))) }
{
    judge_answer(station, Reading::Lab(lightness, a, b))
}

#[unsafe(no_mangle)]
pub extern "C" fn probe_ticket(text: &[u8]) -> Specimen
    ensures { result ≡ specimen_of (ticket_answer (ticket_of text.now)).answer }
{
    let x = ticket_figures(text);
    let answer = x.answer;
    specimen_of(answer)
}

// The line that a ticket's answer carries.
#[unsafe(no_mangle)]
pub extern "C" fn probe_ticket_line(text: &[u8]) -> u32
    ensures { result ≡ (ticket_answer (ticket_of text.now)).line }
{
    let x = ticket_figures(text);
    x.line
}
