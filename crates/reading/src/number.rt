// A number as it is read: a float, or a decimal.
ghost use Rattle.std.specs.Prelude.{◌≡◌, IfOk};
ghost use Rattle.reading.specs.Reading.{Units, Within, range_of, float_units, decimal_units};
ghost use Rattle.reading.specs.declared.quantity.Quantity.{Quantity};

use crate::decimal::{Decimal, decimal_units};
use crate::float::float_units;
use crate::quantity::{Quantity, Units};

pub trait Number: Copy {
    ghost units: { Quantity → Self → Units };

    // The number in the quantity's units, which lie within its range.
    fn units(self, q: Quantity) -> Units
        ensures value { result ≡ units q self }
        ensures within { IfOk result (Within (range_of q)) };
}

impl Number for f64 {
    ghost units = { float_units };

    fn units(self, q: Quantity) -> Units {
        float_units(q, self)
    }
}

impl Number for Decimal {
    ghost units = { decimal_units };

    fn units(self, q: Quantity) -> Units {
        decimal_units(q, self)
    }
}
