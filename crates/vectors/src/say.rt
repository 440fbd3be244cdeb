// What is printed.
use crate::tables::Paper;
use lines::numbers::{figure_of, signed_figure};
use names::{Axis, Chroma, Hue};
use reading::grid::Grid;
use sheet::differences::Differences;
use std::fmt;
use text::decimal::Shown;

// A figure of grid units, as a report has it.
#[derive(Clone, Copy)]
struct Figure(Shown);

impl fmt::Display for Figure {
    fn fmt<W: fmt::Write>(&self, f: &mut fmt::Formatter<W>) -> fmt::Result {
        let sign = if self.0.minus { "-" } else { "" };
        write!(f, "{sign}{}.{:04}", self.0.whole, self.0.units % 10000)
    }
}

// Whether m grid units are within 0.01 of the paper's ten-thousandths.
fn is_near(m: u64, paper: u64) -> bool {
    let ours = u128::from(m) * 10000;
    let theirs = u128::from(paper) * u128::from(Grid::UNITS_IN_ONE);
    ours.abs_diff(theirs) <= 100 * u128::from(Grid::UNITS_IN_ONE)
}

// The same of a figure with a sign, which has to be the paper's.
fn agrees(z: i64, paper: i64) -> bool {
    z.is_negative() == paper.is_negative() && is_near(z.unsigned_abs(), paper.unsigned_abs())
}

fn verdict(agreed: bool) -> &'static str {
    if agreed { "within 0.01" } else { "DIFFERS" }
}

// Four figures, and whether each is the paper's to 0.01 and with its sign.
#[derive(Clone, Copy)]
pub(crate) struct Figures {
    pub differences: Differences,
    pub paper: Paper,
}

impl Figures {
    fn agree(&self) -> bool {
        let d = self.differences;
        let paper = self.paper;
        agrees(d.DL, paper.DL)
            && agrees(d.DC, paper.DC)
            && agrees(d.DH, paper.DH)
            && is_near(d.DE, paper.DE)
    }
}

impl fmt::Display for Figures {
    fn fmt<W: fmt::Write>(&self, f: &mut fmt::Formatter<W>) -> fmt::Result {
        let d = self.differences;
        let dl = Figure(signed_figure(d.DL));
        let dc = Figure(signed_figure(d.DC));
        let dh = Figure(signed_figure(d.DH));
        let de = Figure(figure_of(false, d.DE));
        write!(
            f,
            "DL {dl}  DC {dc}  DH {dh}  DE {de}  {}",
            verdict(self.agree())
        )
    }
}

// DH and DE, and whether DE is the paper's to 0.01.
#[derive(Clone, Copy)]
pub(crate) struct Total {
    pub differences: Differences,
    pub paper: u64,
}

impl fmt::Display for Total {
    fn fmt<W: fmt::Write>(&self, f: &mut fmt::Formatter<W>) -> fmt::Result {
        let d = self.differences;
        let dh = Figure(signed_figure(d.DH));
        let de = Figure(figure_of(false, d.DE));
        write!(
            f,
            "DH {dh}  DE {de}  {}",
            verdict(is_near(d.DE, self.paper))
        )
    }
}

fn chroma_words(chroma: Chroma) -> &'static str {
    match chroma {
        Chroma::More => "more chroma",
        Chroma::Less => "less chroma",
        Chroma::Equal => "equal in chroma",
    }
}

// As text: the words of a report are bytes.
fn axis_word(axis: Axis) -> &'static str {
    match axis {
        Axis::Redder => "redder",
        Axis::Yellower => "yellower",
        Axis::Greener => "greener",
        Axis::Bluer => "bluer",
    }
}

// The names of the shift in chroma and hue.
#[derive(Clone, Copy)]
pub(crate) struct Words {
    pub chroma: Chroma,
    pub hue: Hue,
}

impl fmt::Display for Words {
    fn fmt<W: fmt::Write>(&self, f: &mut fmt::Formatter<W>) -> fmt::Result {
        let chroma = chroma_words(self.chroma);
        match self.hue {
            Hue::Equal => write!(f, "{chroma}, equal in hue"),
            Hue::Towards(first, next) => {
                write!(f, "{chroma}, {}({})", axis_word(first), axis_word(next))
            }
        }
    }
}

// What was found, or that two readings were not both placed.
#[derive(Clone, Copy)]
pub(crate) struct OrRefused<T>(pub Option<T>);

impl<T: fmt::Display> fmt::Display for OrRefused<T> {
    fn fmt<W: fmt::Write>(&self, f: &mut fmt::Formatter<W>) -> fmt::Result {
        match &self.0 {
            Some(found) => write!(f, "{found}"),
            None => f.write_str("REFUSED"),
        }
    }
}
