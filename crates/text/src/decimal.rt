// Whole numbers and decimals put into a lent slice, and their lengths. No `Display`: they are bytes, and there is no
// formatter.
ghost use Rattle.std.specs.Prelude.{◌≡◌, ◌+◌, ◌≤◌, length};
ghost use Rattle.text.specs.Put.{Room, Puts};
ghost use Rattle.text.specs.Decimal.{whole_text, last_digits, minus_sign, decimal_text};

use crate::put::put;

// A decimal as it is shown: its magnitude in units of 10^-places and in whole ones, and whether a minus stands before
// it, which its whole ones alone cannot say.
#[derive(Clone, Copy)]
pub struct Shown {
    pub places: u32,
    pub minus: bool,
    pub whole: u64,
    pub units: u64,
}

// How many digits n has. Most have one, and need no logarithm.
pub fn whole_len(n: u64) -> usize
    ensures { (result ≡ length (whole_text n)) × (result ≤ 20) }
{
    if n < 10 { 1 } else { n.ilog10() as usize + 1 }
}

// Puts the last k digits of n, from the last one back.
fn put_digits(dst: &mut [u8], at: usize, k: usize, n: u64) -> usize
    requires { Room dst.old at (last_digits k n) }
    ensures { Puts dst.old at (last_digits k n) result dst.new }
{
    let mut left = n;
    for j in (0..k).rev() {
        dst[at + j] = b'0' + (left % 10) as u8;
        left /= 10;
    }
    at + k
}

// Puts a whole number: of one digit, which most have, without a loop.
pub fn put_whole(dst: &mut [u8], at: usize, n: u64) -> usize
    requires { Room dst.old at (whole_text n) }
    ensures { Puts dst.old at (whole_text n) result dst.new }
{
    if n < 10 {
        dst[at] = b'0' + n as u8;
        at + 1
    } else {
        put_digits(dst, at, whole_len(n), n)
    }
}

fn put_minus(dst: &mut [u8], at: usize, shows: bool) -> usize
    requires { Room dst.old at (minus_sign shows) }
    ensures { Puts dst.old at (minus_sign shows) result dst.new }
{
    if shows { put(dst, at, b"-") } else { at }
}

// How many bytes a decimal takes.
pub fn decimal_len(d: Shown) -> usize
    ensures { (result ≡ length (decimal_text d)) × (result ≤ 22 + d.places) }
{
    let unsigned = whole_len(d.whole) + 1 + d.places as usize;
    if d.minus { 1 + unsigned } else { unsigned }
}

// Puts a decimal.
pub fn put_decimal(dst: &mut [u8], at: usize, d: Shown) -> usize
    requires { Room dst.old at (decimal_text d) }
    ensures { Puts dst.old at (decimal_text d) result dst.new }
{
    let after_minus = put_minus(dst, at, d.minus);
    let after_whole = put_whole(dst, after_minus, d.whole);
    let after_point = put(dst, after_whole, b".");
    put_digits(dst, after_point, d.places as usize, d.units)
}
