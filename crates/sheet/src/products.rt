// Two products, added or one less the other, and two squares, as the sheet's lines have them. Bounds are those of the
// grid: |a|, |b| are at most 2^28, and the sheet's constants below 2^27.
ghost use Rattle.std.specs.Prelude.{◌≡◌, ◌+◌, ◌^◌, ◌+ℤ◌, ◌-ℤ◌, ◌*ℤ◌};
ghost use Rattle.rounding.specs.Signed.{square};
ghost use Rattle.sheet.specs.Ranges.{Both, Four};

use rounding::signed::magnitude;

pub fn plus_products(p: i64, q: i64, r: i64, s: i64) -> i64
    requires { Four (2 ^ 28) p q r s }
    ensures { result ≡ p *ℤ q +ℤ r *ℤ s }
{
    p * q + r * s
}

pub fn less_products(p: i64, q: i64, r: i64, s: i64) -> i64
    requires { Four (2 ^ 28) p q r s }
    ensures { result ≡ p *ℤ q -ℤ r *ℤ s }
{
    p * q - r * s
}

pub fn squares(x: i64, y: i64) -> u64
    requires { Both (2 ^ 31) x y }
    ensures { result ≡ square x + square y }
{
    let p = magnitude(x);
    let q = magnitude(y);
    p * p + q * q
}
