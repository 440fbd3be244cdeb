// SCOPE 7.4: the hue angle of a colour, in whole degrees.
#![tactic(auto)]

mod cosine;
mod sine;

ghost use Rattle.std.specs.Prelude.{◌≡◌, ◌≤◌};
ghost use Rattle.angle.specs.Angle.{quadrant, hue_angle, reached_ahead, degrees_ahead};
ghost use Rattle.angle.specs.Ranges.{IsTable, Ahead, OnPlane};

use cosine::COSINE;
use rounding::signed::magnitude;
use sine::SINE;

// The quadrant that (a, b) stands in, from 0 to 3, each with the axis that it starts from: a number, for it counts
// turns of 90 degrees. (0, 0) stands in none, and has 3.
#[tactic(auto, unfolding(crate::specs::Angle::quadrant))]
fn quadrant_of(a: i64, b: i64) -> u32
    ensures { result ≡ quadrant a b }
{
    if 0 < a {
        return if b < 0 { 3 } else { 0 };
    }
    if 0 < b {
        return 1;
    }
    if a < 0 { 2 } else { 3 }
}

// The two tables, lent: not one of pairs, for `IsTable` has the rule of a sine's and of a cosine's.
#[derive(Clone, Copy)]
struct Table<'a> {
    sine: &'a [u32],
    cosine: &'a [u32],
    ghost is_table: { IsTable sine.now cosine.now },
}

// A point of the first quadrant, near enough for its products with the tables to fit 64 bits.
#[derive(Clone, Copy)]
struct Point {
    x: u64,
    y: u64,
    ghost ahead: { Ahead x y },
}

impl Point {
    // Whether it has reached or passed the direction of k degrees: their cross is not negative.
    fn has_reached(self, table: Table, k: u32) -> bool
        requires { k ≤ 90 }
        ensures { result ≡ reached_ahead self.x self.y k }
    {
        let at = k as usize;
        table.sine[at] as u64 * self.x <= table.cosine[at] as u64 * self.y
    }

    // The whole degrees that it has reached or passed: seven binary digits, from the highest.
    fn search(self, table: Table) -> u32
        ensures { result ≡ degrees_ahead self.x self.y }
    {
        let mut degrees: u32 = 0;
        for left in (0..7u32).rev() {
            let next = degrees + (1 << left);
            if next < 90 && self.has_reached(table, next) {
                degrees = next;
            }
        }
        degrees
    }

    // The same, by the table. A const array is written out wherever it is read, so it is read once, and lent to the
    // search.
    fn degrees(self) -> u32
        ensures { result ≡ degrees_ahead self.x self.y }
    {
        self.search(Table {
            sine: &SINE,
            cosine: &COSINE,
        })
    }
}

// The greatest whole degree, from 0 to 359, that (a, b) has reached or passed in turning anticlockwise from +a*.
pub fn hue_angle(a: i64, b: i64) -> u32
    requires { OnPlane a b }
    ensures { result ≡ hue_angle a b }
{
    let x = magnitude(a);
    let y = magnitude(b);
    if x + y == 0 {
        return 0;
    }
    let q = quadrant_of(a, b);
    if q % 2 == 0 {
        return 90 * q + Point { x, y }.degrees();
    }
    90 * q + Point { x: y, y: x }.degrees()
}
