// Outside vectors, run and compared: Table 2 of BS 6923, the example of document 002, and the five statements of its
// Figure 1.
#![tactic(auto)]

mod say;
mod tables;

ghost use Rattle.std.specs.Prelude.{IfSome};
ghost use Rattle.colour.specs.Conversion.Ranges.{OnGrid};

use colour::conversion::GridColour;
use colour::placed::{Written, place};
use colour::white::White;
use comparison::comparison_of;
use names::{chroma_name, hue_name};
use reading::decimal::Decimal;
use say::{Figures, OrRefused, Total, Words};
use sheet::differences::Differences;
use sheet::formula::Formula;
use std::io;
use tables::{FIGURE_1, TABLE_2};

// What the sheet and the names say of two colours.
#[derive(Clone, Copy)]
struct Found {
    differences: Differences,
    words: Words,
}

// A reading's place on the grid, by D65/10.
fn placed(reading: Written) -> Option<GridColour>
    ensures { IfSome result OnGrid }
{
    place(reading, White::D65Ten).ok()
}

// Two colours, with l = c = 1.
fn find(formula: Formula, reference: Written, test: Written) -> Option<Found> {
    let r = placed(reference)?;
    let t = placed(test)?;
    let all = comparison_of(formula, 1000, 1000, r, t);
    Some(Found {
        differences: all.differences,
        words: Words {
            chroma: chroma_name(all.shift.C),
            hue: hue_name(all.cross, all.dot, r.a.0, r.b.0),
        },
    })
}

fn millionths(m: u64) -> Decimal {
    Decimal {
        below: false,
        millionths: m,
    }
}

fn hundredths(z: i32) -> Decimal {
    Decimal {
        below: z.is_negative(),
        millionths: u64::from(z.unsigned_abs()) * 10000,
    }
}

// X, Y, Z in millionths.
fn xyz([x, y, z]: [u64; 3]) -> Written {
    Written::Xyz(millionths(x), millionths(y), millionths(z))
}

// L*, a*, b* in hundredths.
fn lab(l: i32, (a, b): (i32, i32)) -> Written {
    Written::Lab(hundredths(l), hundredths(a), hundredths(b))
}

fn table_2(rt: &impl Print) -> io::Result<()> {
    for (i, pair) in TABLE_2.iter().enumerate() {
        let found = find(Formula::CMC, xyz(pair.reference), xyz(pair.test));
        let figures = OrRefused(found.map(|x| Figures {
            differences: x.differences,
            paper: pair.paper,
        }));
        println!(rt; "Table 2, pair {}  {figures}", i + 1)?;
    }
    Ok(())
}

// Figure 1, at L* = 50.
fn figure_1(rt: &impl Print) -> io::Result<()> {
    for (i, place) in FIGURE_1.iter().enumerate() {
        let found = find(
            Formula::CMC,
            lab(5000, place.reference),
            lab(5000, place.test),
        );
        let words = OrRefused(found.map(|x| x.words));
        println!(rt; "Figure 1, statement {}  {words}", i + 1)?;
    }
    Ok(())
}

// Document 002: CIELAB 1.81, minus in hue, greener(yellower).
fn document_002(rt: &impl Print) -> io::Result<()> {
    let found = find(
        Formula::CIELAB,
        lab(5368, (-920, -3656)),
        lab(5490, (-1002, -3550)),
    );
    let total = OrRefused(found.map(|x| Total {
        differences: x.differences,
        paper: 18100,
    }));
    let words = OrRefused(found.map(|x| x.words));
    println!(rt; "Document 002  {total}")?;
    println!(rt; "Document 002  {words}")
}

fn main(rt: HostRuntime) -> io::Result<()> {
    table_2(&rt)?;
    document_002(&rt)?;
    figure_1(&rt)
}
