// SCOPE 13: the whole call.
ghost use Rattle.std.specs.Prelude.{◌≡◌, ◌&&◌, cond, leb, Some, None};
ghost use Rattle.sheet.specs.Settings.{within};
ghost use Rattle.colour.specs.Refusal.{number_of_refusal};
ghost use Rattle.cones.specs.Cones.{readings_of};
ghost use Rattle.delivery.specs.Sorted.{refused_with, is_shaped, are_factors, ReadIn, Sorts, SortsIn};

use crate::farthest::write_differences;
use crate::mean::{mean_colour, sum_of};
use colour::placed::Space;
use colour::refusal::Refusal;
use colour::white::White;
use cones::Cones;
use sheet::settings::is_factor;

// What a sort hands back, as C takes it: its refusal's number or 0, the refused cone, the mean's L*, a*, b*, the
// farthest cone and the count.
#[repr(C)]
#[derive(Clone, Copy)]
pub struct Sorted {
    pub number: u32,
    pub cone: u32,
    pub lightness: f64,
    pub a: f64,
    pub b: f64,
    pub farthest: u32,
    pub cones: u32,
}

// A refusal, with the cone that it is of.
fn refused(refusal: Refusal, cone: u32) -> Sorted
    ensures { result ≡ refused_with (number_of_refusal refusal) cone }
{
    Sorted {
        number: u32::from(refusal),
        cone,
        lightness: 0.0,
        a: 0.0,
        b: 0.0,
        farthest: 0,
        cones: 0,
    }
}

// Whether n is 2 to 256, and a result has room for as many.
#[tactic(auto, unfolding(sheet::specs::Settings::within))]
fn is_counted(n: usize, room: usize) -> bool
    ensures { result ≡ within 2 256 n && leb n room }
{
    2 <= n && n <= 256 && n <= room
}

// The cones, if there are 2 to 256 of them, as many in each slice, and a result has room for each.
fn shaped<'a>(
    space: Space,
    xs: &'a [f64],
    ys: &'a [f64],
    zs: &'a [f64],
    room: usize,
) -> Option<Cones<'a>>
    ensures { result
        ≡ cond (is_shaped xs.now ys.now zs.now room) (Some (readings_of space xs.now ys.now zs.now)) None }
{
    let cones = Cones::of(space, xs, ys, zs)?;
    if is_counted(cones.len(), room) {
        Some(cones)
    } else {
        None
    }
}

// Whether l and c lie in their range.
#[tactic(auto, unfolding(crate::specs::Sorted::are_factors))]
fn are_factors(l: u64, c: u64) -> bool
    ensures { result ≡ are_factors l c }
{
    is_factor(l) && is_factor(c)
}

// Each cone in turn, then the mean, then each cone against it. Nothing is written until every cone is accepted.
fn sort_in(white: White, l: u64, c: u64, cones: &Cones<'_>, de: &mut [f64]) -> Sorted
    requires { ReadIn l c cones.now de.old }
    ensures { SortsIn white l c cones.now de.old result de.new }
{
    match sum_of(white, cones) {
        Err(e) => refused(e.refusal, e.cone),
        Ok(sums) => {
            let n = cones.len();
            let mean = mean_colour(sums, n as u64);
            let far = write_differences(white, l, c, mean, cones, de);
            Sorted {
                number: 0,
                cone: 0,
                lightness: mean.L.value(),
                a: mean.a.value(),
                b: mean.b.value(),
                farthest: far.at,
                cones: n as u32,
            }
        }
    }
}

// Sorts a delivery: 11, 2, 3, then each cone in turn. The slices by themselves, as C lends them: within, three of them
// are `Cones`.
pub fn sort(
    space: Space,
    white: u32,
    l: u32,
    c: u32,
    xs: &[f64],
    ys: &[f64],
    zs: &[f64],
    de: &mut [f64],
) -> Sorted
    ensures { Sorts space white l c xs.now ys.now zs.now de.old result
        de.new }
{
    let Some(cones) = shaped(space, xs, ys, zs, de.len()) else {
        return refused(Refusal::Count, 0);
    };
    let white = match White::try_from(white) {
        Ok(white) => white,
        Err(refusal) => return refused(refusal, 0),
    };
    let l = u64::from(l);
    let c = u64::from(c);
    if !are_factors(l, c) {
        return refused(Refusal::Factor, 0);
    }
    sort_in(white, l, c, &cones, de)
}
