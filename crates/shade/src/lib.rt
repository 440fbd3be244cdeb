// The C entries of libshade.a, one call each. include/shade.h says the same for C. A load, a judgement and a sort stand
// twice: C has no type that is either X, Y, Z or L*, a*, b*.
#![tactic(auto)]

ghost use Rattle.std.specs.Prelude.{◌≡◌};
ghost use Rattle.shade.specs.Version.{version};
ghost use Rattle.colour.specs.declared.placed.Values.TheVariants.{Xyz, Lab};
ghost use Rattle.calls.specs.Calls.{Gives, load_call, judge_call, ticket_call};
ghost use Rattle.calls.specs.Runs.{AsFresh};
ghost use Rattle.colour.specs.declared.placed.Space.TheVariants as Space;
ghost use Rattle.delivery.specs.Sorted.{Sorts};

use calls::{judge_call, load_call, ticket_call};
use colour::placed::{Reading, Space};
use colour::refusal::number_of;
use delivery::{Sorted, sort};
use standard::accept::LoadNumbers;

#[unsafe(no_mangle)]
pub extern "C" fn shade_load_xyz(
    station: &mut [u8],
    formula: u32,
    white: u32,
    l: u32,
    c: u32,
    tolerance: u32,
    x: f64,
    y: f64,
    z: f64,
) -> u32
    ensures { Gives (load_call station.old formula white l c tolerance (Xyz x y z)) result station.new }
{
    let n = LoadNumbers {
        formula,
        white,
        l,
        c,
        tolerance,
    };
    number_of(load_call(station, n, Reading::Xyz(x, y, z)))
}

#[unsafe(no_mangle)]
pub extern "C" fn shade_load_lab(
    station: &mut [u8],
    formula: u32,
    white: u32,
    l: u32,
    c: u32,
    tolerance: u32,
    lightness: f64,
    a: f64,
    b: f64,
) -> u32
    ensures { Gives (load_call station.old formula white l c tolerance (Lab lightness a b)) result
        station.new }
{
    let n = LoadNumbers {
        formula,
        white,
        l,
        c,
        tolerance,
    };
    number_of(load_call(station, n, Reading::Lab(lightness, a, b)))
}

#[unsafe(no_mangle)]
pub extern "C" fn shade_judge_xyz(
    station: &[u8],
    x: f64,
    y: f64,
    z: f64,
    room: &mut [u8],
    column: usize,
) -> u32
    ensures gives { Gives (judge_call station.now (Xyz x y z) room.old column) result room.new }
    ensures run { AsFresh station.now (Xyz x y z) room.old column result room.new }
{
    number_of(judge_call(station, Reading::Xyz(x, y, z), room, column))
}

#[unsafe(no_mangle)]
pub extern "C" fn shade_judge_lab(
    station: &[u8],
    lightness: f64,
    a: f64,
    b: f64,
    room: &mut [u8],
    column: usize,
) -> u32
    ensures gives { Gives (judge_call station.now (Lab lightness a b) room.old column) result
        room.new }
    ensures run { AsFresh station.now (Lab lightness a b) room.old column result room.new }
{
    number_of(judge_call(station, Reading::Lab(lightness, a, b), room, column))
}

#[unsafe(no_mangle)]
pub extern "C" fn shade_ticket(text: &[u8], room: &mut [u8], column: usize) -> u32
    ensures { Gives (ticket_call text.now room.old column) result room.new }
{
    number_of(ticket_call(text, room, column))
}

#[unsafe(no_mangle)]
pub extern "C" fn shade_sort_xyz(
    white: u32,
    l: u32,
    c: u32,
    x: &[f64],
    y: &[f64],
    z: &[f64],
    de: &mut [f64],
) -> Sorted
    ensures { Sorts Space.Xyz white l c x.now y.now z.now de.old result
        de.new }
{
    sort(Space::Xyz, white, l, c, x, y, z, de)
}

#[unsafe(no_mangle)]
pub extern "C" fn shade_sort_lab(
    white: u32,
    l: u32,
    c: u32,
    lightness: &[f64],
    a: &[f64],
    b: &[f64],
    de: &mut [f64],
) -> Sorted
    ensures { Sorts Space.Lab white l c lightness.now a.now b.now de.old result
        de.new }
{
    sort(Space::Lab, white, l, c, lightness, a, b, de)
}

const MAJOR: u32 = 1;

const MINOR: u32 = 5;

// SHADE_VERSION of the header that this library was made with.
#[unsafe(no_mangle)]
pub extern "C" fn shade_version() -> u32
    ensures { result ≡ version }
{
    100 * MAJOR + MINOR
}
