// The cones of a delivery: three slices of one length, each cone the reading of one entry of each.
#![tactic(auto)]

ghost use Rattle.std.specs.Prelude.{◌≡◌, ◌<◌, cond, length, get_or, Some, None};
ghost use Rattle.cones.specs.Zip.{is_even};
ghost use Rattle.cones.specs.Cones.{readings_of, no_reading, colours_in, no_colour};

use colour::conversion::GridColour;
use colour::placed::{Reading, Space, Values, place};
use colour::white::White;
use std::marker::Model;

// To a clause they are the list of their readings.
#[derive(Drop)]
pub struct Cones<'a> {
    space: Space,
    xs: &'a [f64],
    ys: &'a [f64],
    zs: &'a [f64],
}

impl<'a> Model for Cones<'a> {
    ghost use Rattle.std.specs.Prelude.{List};
    ghost use Rattle.colour.specs.Placed.{Reading};

    ghost Value = { List Reading };

    ghost use Rattle.cones.specs.Zip.{Even};
    ghost use Rattle.cones.specs.Cones.{readings_of};

    ghost view = { λ c. readings_of c.space c.xs.now c.ys.now c.zs.now };

    ghost invariant = { λ c. Even c.xs.now c.ys.now c.zs.now };
}

impl<'a> Cones<'a> {
    // None where the three are not of one length.
    #[tactic(auto, unfolding(crate::specs::Zip::is_even))]
    pub fn of(space: Space, xs: &'a [f64], ys: &'a [f64], zs: &'a [f64]) -> Option<Cones<'a>>
        ensures { result
            ≡ cond (is_even xs.now ys.now zs.now) (Some (readings_of space xs.now ys.now zs.now)) None }
    {
        if ys.len() == xs.len() && zs.len() == xs.len() {
            Some(Cones { space, xs, ys, zs })
        } else {
            None
        }
    }

    #[tactic(auto, using(crate::specs::Zip::zip_length))]
    pub fn len(&self) -> usize
        ensures { result ≡ length self.now }
    {
        self.xs.len()
    }

    // The reading of cone i.
    #[tactic(auto, using(crate::specs::Zip::zip_length))]
    pub fn reading(&self, i: usize) -> Reading
        requires { i < length self.now }
        ensures { result ≡ get_or self.now i no_reading }
    {
        Values::of(self.space, self.xs[i], self.ys[i], self.zs[i])
    }

    // The colour of cone i, where no cone is refused.
    pub fn colour(&self, white: White, i: usize) -> GridColour
        requires { i < length (colours_in white self.now) }
        ensures { result ≡ get_or (colours_in white self.now) i no_colour }
    {
        place(self.reading(i), white).unwrap()
    }
}
