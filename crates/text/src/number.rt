// Numbers in decimal digits.
ghost use Rattle.std.specs.Prelude.{◌≡◌, ◌≤◌, ◌^◌, length};
ghost use Rattle.text.specs.Number.{numeral, digits_of, fraction_of, decimal_of, thousandths_of, signed_of};
ghost use Rattle.text.specs.Number.Laws.{Sizes, Unsigned};

use crate::bytes::{find, part_after, part_before};
use reading::decimal::Decimal;

// The number whose digits are s, if they are digits.
fn value_of_digits(s: &[u8]) -> Option<u64>
    requires { length s.now ≤ 6 }
    ensures { result ≡ numeral 0 s.now }
{
    let mut v: u64 = 0;
    for &b in s {
        if !b.is_ascii_digit() {
            return None;
        }
        v = v * 10 + u64::from(b - b'0');
    }
    Some(v)
}

// 1 to most digits.
fn digits(s: &[u8], most: usize) -> Option<u64>
    requires { most ≤ 6 }
    ensures { result ≡ digits_of most s.now }
{
    if !(1..=most).contains(&s.len()) {
        return None;
    }
    value_of_digits(s)
}

fn power(n: usize) -> u64
    requires { n ≤ 6 }
    ensures { result ≡ 10 ^ n }
{
    10_u64.pow(n as u32)
}

// What stands after the point, if there is one, in units of the last of the places.
fn fraction(s: &[u8], places: usize) -> Option<u64>
    requires { places ≤ 6 }
    ensures { result ≡ fraction_of places s.now }
{
    if find(s, b'.') == s.len() {
        return Some(0);
    }
    let t = part_after(s, b'.');
    let d = digits(t, places)?;
    Some(d * power(places - t.len()))
}

// 1 to whole digits, then perhaps a point and 1 to places digits, in units of the last of the places.
fn decimal(s: &[u8], whole: usize, places: usize) -> Option<u64>
    requires { Sizes whole places }
    ensures { result ≡ decimal_of whole places s.now }
{
    let x = digits(part_before(s, b'.'), whole)?;
    let y = fraction(s, places)?;
    Some(x * power(places) + y)
}

// The number of a line l, c or tol, in thousandths.
pub fn thousandths(s: &[u8]) -> Option<u64>
    ensures { result ≡ thousandths_of s.now }
{
    decimal(s, 2, 3)
}

// Whether a minus stands before, and what is left without it, both of which a `Decimal` has.
fn without_minus(s: &[u8]) -> (bool, &[u8])
    ensures { Unsigned s.now result.0 result.1.now }
{
    match s.strip_prefix(b"-") {
        Some(rest) => (true, rest),
        None => (false, s),
    }
}

// A number of a line ref or test.
pub fn signed(s: &[u8]) -> Option<Decimal>
    ensures { result ≡ signed_of s.now }
{
    let (below, unsigned) = without_minus(s);
    let millionths = decimal(unsigned, 3, 6)?;
    Some(Decimal { below, millionths })
}
