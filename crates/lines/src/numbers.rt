// The lines that say a number.
ghost use Rattle.std.specs.Prelude.{◌≡◌, false, ◌≤◌, length};
ghost use Rattle.text.specs.Decimal.{decimal_text};
ghost use Rattle.text.specs.Put.{Room, Puts, line};
ghost use Rattle.lines.specs.Lines.{thousandths, figure, signed_figure, unless_withheld};

use crate::words::put_line;
use reading::grid::Grid;
use rounding::signed::magnitude;
use text::decimal::{Shown, decimal_len, put_decimal};
use text::put::put;

// m thousandths with three decimals.
pub fn thousandths_of(m: u64) -> Shown
    ensures { result ≡ thousandths m }
{
    Shown {
        places: 3,
        minus: false,
        whole: m / 1000,
        units: m,
    }
}

// m units of 2^-20 with four decimals, the nearest. The whole ones are taken off first, so that no product passes 64
// bits.
pub fn figure_of(below: bool, m: u64) -> Shown
    ensures { result ≡ figure below m }
{
    let rest = m % Grid::UNITS_IN_ONE * 10000;
    let units = m / Grid::UNITS_IN_ONE * 10000
        + (rest + Grid::UNITS_IN_ONE / 2) / Grid::UNITS_IN_ONE;
    Shown {
        places: 4,
        minus: below && 0 < units,
        whole: units / 10000,
        units,
    }
}

// z units of 2^-20.
pub fn signed_figure(z: i64) -> Shown
    ensures { result ≡ signed_figure z }
{
    figure_of(z < 0, magnitude(z))
}

// Each kind's length has a bound that names no `Shown`: by it the report's sums fit.
pub fn thousandths_len(m: u64) -> usize
    ensures { (result ≡ length (decimal_text (thousandths m))) × (result ≤ 25) }
{
    decimal_len(thousandths_of(m))
}

pub fn figure_len(m: u64) -> usize
    ensures { (result ≡ length (decimal_text (figure false m))) × (result ≤ 26) }
{
    decimal_len(figure_of(false, m))
}

pub fn signed_len(z: i64) -> usize
    ensures { (result ≡ length (decimal_text (signed_figure z))) × (result ≤ 26) }
{
    decimal_len(signed_figure(z))
}

pub fn put_number(dst: &mut [u8], at: usize, key: &[u8], d: Shown) -> usize
    requires { Room dst.old at (line key.now (decimal_text d)) }
    ensures { Puts dst.old at (line key.now (decimal_text d)) result dst.new }
{
    let after_key = put(dst, at, key);
    let after_number = put_decimal(dst, after_key, d);
    put(dst, after_number, b"\n")
}

// DC= and DH=. Taken into its callers, where the key is known: it is a few stores there.
#[inline(always)]
pub fn put_chromatic(dst: &mut [u8], at: usize, withheld: bool, key: &[u8], d: Shown) -> usize
    requires { Room dst.old at (line key.now (unless_withheld withheld (decimal_text d))) }
    ensures { Puts dst.old at (line key.now (unless_withheld withheld (decimal_text d))) result
        dst.new }
{
    if withheld {
        return put_line(dst, at, key, b"withheld");
    }
    put_number(dst, at, key, d)
}
