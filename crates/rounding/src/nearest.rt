// A fraction, and a mean, to the nearest whole number.
ghost use Rattle.std.specs.Prelude.{◌≡◌, ◌+◌, ◌^◌, ◌<◌};
ghost use Rattle.rounding.specs.Signed.{∣◌∣};
ghost use Rattle.rounding.specs.Nearest.{rounded};
ghost use Rattle.rounding.specs.Mean.{mean_of};

use crate::signed::{magnitude, with_sign};

// num / den or, if `below`, -num / den, to the nearest, a tie away from zero.
pub fn rounded(below: bool, num: u64, den: u64) -> i64
    requires { (0 < den) × (num + den < 2 ^ 63) }
    ensures { result ≡ rounded below num den }
{
    with_sign(below, (num + den / 2) / den)
}

// The mean of n numbers of this sum.
pub fn mean_of(sum: i64, n: u64) -> i64
    requires { (0 < n) × (∣ sum ∣ + n < 2 ^ 63) }
    ensures { result ≡ mean_of sum n }
{
    rounded(sum < 0, magnitude(sum), n)
}
