// The lowest crates: roots, one number read or handed back, one colour placed, for C by two entries.
ghost use Rattle.std.specs.Prelude.{◌≡◌};
ghost use Rattle.rounding.specs.Root.{root_of};
ghost use Rattle.reading.specs.Reading.{float_units, decimal_units};
ghost use Rattle.reading.specs.Grid.{value_of};
ghost use Rattle.colour.specs.declared.placed.Values.TheVariants.{Xyz, Lab};
ghost use Rattle.colour.specs.White.{white_numbered};
ghost use Rattle.probe.specs.Ground.{quantity_of, decimal_of, answer, units_answer, colour_stored, placed_answer};
ghost use Rattle.probe.specs.Ground.{numbered_answer};

use colour::conversion::GridColour;
use colour::placed::{Placed, Reading, place};
use colour::refusal::Refusal;
use colour::white::White;
use reading::decimal::Decimal;
use reading::grid::Grid;
use reading::quantity::{Quantity, ReadError, Units};

#[unsafe(no_mangle)]
pub extern "C" fn probe_square_root(x: u64) -> u64
    ensures { result ≡ root_of 2 x }
{
    rounding::roots::square_root(x)
}

#[unsafe(no_mangle)]
pub extern "C" fn probe_cube_root(x: u64) -> u64
    ensures { result ≡ root_of 3 x }
{
    rounding::roots::cube_root(x)
}

// By the number that C gives, of which none is refused.
fn quantity_of(n: u32) -> Quantity
    ensures { result ≡ quantity_of n }
{
    match n {
        1 => Quantity::Tristimulus,
        2 => Quantity::Lightness,
        _ => Quantity::Opponent,
    }
}

// The units into the first place of `out`, if it has one; the number of a refusal leaves it.
fn store_units(u: Units, out: &mut [i64]) -> u32
    ensures { answer result out.new ≡ units_answer u out.old }
{
    match u {
        Ok(z) => {
            if let Some(first) = out.first_mut() {
                *first = z;
            }
            0
        }
        Err(ReadError::NotFinite) => u32::from(Refusal::NotANumber),
        Err(ReadError::OutOfRange) => u32::from(Refusal::OutOfRange),
    }
}

// A float's units. Quantity 1 is X, Y or Z, 2 is L*, any other a* or b*.
#[unsafe(no_mangle)]
pub extern "C" fn probe_units(quantity: u32, x: f64, out: &mut [i64]) -> u32
    ensures { answer result out.new ≡ units_answer (float_units (quantity_of quantity) x) out.old }
{
    store_units(reading::float::float_units(quantity_of(quantity), x), out)
}

// A decimal's units; it is below zero unless `below` is 0.
#[unsafe(no_mangle)]
pub extern "C" fn probe_decimal(quantity: u32, below: u32, millionths: u64, out: &mut [i64]) -> u32
    ensures { answer result out.new ≡ units_answer (decimal_units (quantity_of quantity) (decimal_of below millionths))
        out.old }
{
    let d = Decimal {
        below: below != 0,
        millionths,
    };
    store_units(
        reading::decimal::decimal_units(quantity_of(quantity), d),
        out,
    )
}

// Grid units as a float.
#[unsafe(no_mangle)]
pub extern "C" fn probe_value(units: i64) -> f64
    ensures { result ≡ value_of units }
{
    Grid(units).value()
}

// The grid units of L*, a*, b* into an `out` of three places, and into no other.
fn store_colour(c: GridColour, out: &mut [i64])
    ensures { out.new ≡ colour_stored c out.old }
{
    if out.len() == 3 {
        out[0] = c.L.0;
        out[1] = c.a.0;
        out[2] = c.b.0;
    }
}

// A colour's grid units; the number of a refusal leaves `out`.
fn store_place(p: Placed, out: &mut [i64]) -> u32
    ensures { answer result out.new ≡ placed_answer p out.old }
{
    match p {
        Ok(c) => {
            store_colour(c, out);
            0
        }
        Err(e) => u32::from(e),
    }
}

// A reading against the white of a number, or 2 where there is none.
fn place_numbered(white: u32, r: Reading, out: &mut [i64]) -> u32
    ensures { answer result out.new ≡ numbered_answer (white_numbered white) r out.old }
{
    match White::try_from(white) {
        Ok(w) => store_place(place(r, w), out),
        Err(refusal) => u32::from(refusal),
    }
}

// Where X, Y, Z lie on the grid.
#[unsafe(no_mangle)]
pub extern "C" fn probe_place_xyz(white: u32, x: f64, y: f64, z: f64, out: &mut [i64]) -> u32
    ensures { answer result out.new ≡ numbered_answer (white_numbered white) (Xyz x y z) out.old }
{
    place_numbered(white, Reading::Xyz(x, y, z), out)
}

// Where L*, a*, b* lie on the grid.
#[unsafe(no_mangle)]
pub extern "C" fn probe_place_lab(white: u32, l: f64, a: f64, b: f64, out: &mut [i64]) -> u32
    ensures { answer result out.new ≡ numbered_answer (white_numbered white) (Lab l a b) out.old }
{
    place_numbered(white, Reading::Lab(l, a, b), out)
}
