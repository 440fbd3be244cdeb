// SCOPE 7: how the test specimen differs from the reference, in words, and where a report withholds them.
#![tactic(auto)]

ghost use Rattle.std.specs.Prelude.{◌≡◌, true, false};
ghost use Rattle.names.specs.Names.{lightness_name, chroma_name, first_met, next_met, hue_named, achromatic};
ghost use Rattle.names.specs.Names.{withheld_by};

use colour::conversion::GridColour;
use reading::grid::Grid;
use rounding::signed::magnitude;
use sheet::formula::Formula;
use sheet::shift::same_hue;
use std::cmp::Ordering;

#[derive(Clone, Copy, Debug, PartialEq, Eq)]
pub enum Lightness {
    Lighter,
    Darker,
    Equal,
}

#[derive(Clone, Copy, Debug, PartialEq, Eq)]
pub enum Chroma {
    More,
    Less,
    Equal,
}

// The four axes of hue, at 0, 90, 180 and 270 degrees.
#[derive(Clone, Copy, Debug, PartialEq, Eq)]
pub enum Axis {
    Redder,
    Yellower,
    Greener,
    Bluer,
}

#[derive(Clone, Copy, Debug, PartialEq, Eq)]
pub enum Hue {
    Equal,
    // The name, and the bracket.
    Towards(Axis, Axis),
}

// By the sign of ΔL.
pub fn lightness_name(dl: i64) -> Lightness
    ensures { result ≡ lightness_name dl }
{
    match dl.cmp(&0) {
        Ordering::Less => Lightness::Darker,
        Ordering::Equal => Lightness::Equal,
        Ordering::Greater => Lightness::Lighter,
    }
}

// By the sign of ΔC, which has words of its own.
pub fn chroma_name(dc: i64) -> Chroma
    ensures { result ≡ chroma_name dc }
{
    match dc.cmp(&0) {
        Ordering::Less => Chroma::Less,
        Ordering::Equal => Chroma::Equal,
        Ordering::Greater => Chroma::More,
    }
}

// The first axis that an anticlockwise turn from (a, b) meets, by the quarter that (a, b) lies in.
// By tests: in a match on the signs of a and b, some arms of the proof would have no name of their own.
#[tactic(auto, using(crate::proofs::Quarters::quarters))]
fn first_anticlockwise(a: i64, b: i64) -> Axis
    ensures { result ≡ first_met false a b }
{
    if 0 < b {
        if 0 < a { Axis::Yellower } else { Axis::Greener }
    } else if a < 0 {
        Axis::Bluer
    } else if b < 0 {
        Axis::Redder
    } else {
        Axis::Yellower
    }
}

// The first that a clockwise turn meets.
#[tactic(auto, using(crate::proofs::Quarters::quarters))]
fn first_clockwise(a: i64, b: i64) -> Axis
    ensures { result ≡ first_met true a b }
{
    if 0 < b {
        if a < 0 { Axis::Yellower } else { Axis::Redder }
    } else if 0 < a {
        Axis::Bluer
    } else if b < 0 {
        Axis::Greener
    } else {
        Axis::Yellower
    }
}

// The first that a turn meets.
fn first_axis(clockwise: bool, a: i64, b: i64) -> Axis
    ensures { result ≡ first_met clockwise a b }
{
    if clockwise {
        first_clockwise(a, b)
    } else {
        first_anticlockwise(a, b)
    }
}

// The axis that a turn meets after this one.
#[tactic(auto, unfolding(crate::specs::Names::first_met, crate::specs::Names::met, sheet::specs::Sheet::cross, sheet::specs::Sheet::dot))]
fn next_axis(clockwise: bool, axis: Axis) -> Axis
    ensures { result ≡ next_met clockwise axis }
{
    match (clockwise, axis) {
        (false, Axis::Redder) | (true, Axis::Greener) => Axis::Yellower,
        (false, Axis::Yellower) | (true, Axis::Bluer) => Axis::Greener,
        (false, Axis::Greener) | (true, Axis::Redder) => Axis::Bluer,
        (false, Axis::Bluer) | (true, Axis::Yellower) => Axis::Redder,
    }
}

// The hue's name and its bracket, from the cross, the dot and the reference's a and b.
#[tactic(auto, unfolding(crate::specs::Names::hue_named))]
pub fn hue_name(cross: i64, dot: i64, a: i64, b: i64) -> Hue
    ensures { result ≡ hue_named cross dot a b }
{
    if same_hue(cross, dot) {
        return Hue::Equal;
    }
    let clockwise = cross < 0;
    let first = first_axis(clockwise, a, b);
    Hue::Towards(first, next_axis(clockwise, first))
}

// 4 in grid units, and its square.
const FOUR: u64 = 4 * Grid::UNITS_IN_ONE;

const SIXTEEN: u64 = FOUR * FOUR;

// Whether a specimen has a² + b² at most 16: neither is then beyond 4.
#[tactic(auto, unfolding(crate::specs::Names::achromatic))]
fn is_achromatic(x: GridColour) -> bool
    ensures { result ≡ achromatic x }
{
    let a = magnitude(x.a.0);
    let b = magnitude(x.b.0);
    a <= FOUR && b <= FOUR && a * a + b * b <= SIXTEEN
}

// Whether a report withholds DC, DH and their names: under CMC, where either specimen is achromatic.
pub fn is_withheld(formula: Formula, r: GridColour, t: GridColour) -> bool
    ensures { result ≡ withheld_by formula r t }
{
    match formula {
        Formula::CIELAB | Formula::CIE94 => false,
        Formula::CMC => is_achromatic(r) || is_achromatic(t),
    }
}
