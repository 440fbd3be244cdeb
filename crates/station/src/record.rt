// The station's slice: formula 1 byte, white 1, l 2, c 2, tolerance 2, L* 4, a* 4, b* 4, the least byte first.
ghost use Rattle.std.specs.Prelude.{◌≡◌};
ghost use Rattle.reading.specs.Grid.{grid_of};
ghost use Rattle.station.specs.Record.{of_twos, twos_of, four, record_of, encode, settings_in, colour_in, placed};

use colour::conversion::GridColour;
use colour::placed::Placed;
use colour::refusal::Refusal;
use reading::grid::Grid;
use sheet::settings::Settings;
use standard::accept::{LoadNumbers, Standard, settings_of};

// The bytes of a record's numbers: of a longer number only so many bytes as it has there. Eight numbers by themselves: in
// this order they are written once.
fn record_of(
    formula: u32,
    white: u32,
    l: u64,
    c: u64,
    tolerance: u64,
    lightness: i64,
    a: i64,
    b: i64,
) -> [u8; 20]
    ensures { result ≡ record_of formula white l c tolerance (twos_of lightness) (twos_of a) (twos_of b) }
{
    let [formula, ..] = formula.to_le_bytes();
    let [white, ..] = white.to_le_bytes();
    let [l0, l1, ..] = l.to_le_bytes();
    let [c0, c1, ..] = c.to_le_bytes();
    let [t0, t1, ..] = tolerance.to_le_bytes();
    let [x0, x1, x2, x3, ..] = lightness.to_le_bytes();
    let [a0, a1, a2, a3, ..] = a.to_le_bytes();
    let [b0, b1, b2, b3, ..] = b.to_le_bytes();
    [
        formula, white, l0, l1, c0, c1, t0, t1, x0, x1, x2, x3, a0, a1, a2, a3, b0, b1, b2, b3,
    ]
}

// A standard as bytes.
#[tactic(auto, unfolding(crate::specs::Record::encode))]
pub(crate) fn bytes_of(s: Standard) -> [u8; 20]
    ensures { result ≡ encode s }
{
    let settings = s.settings;
    let colour = s.colour;
    record_of(
        u32::from(settings.formula),
        u32::from(settings.white),
        settings.l,
        settings.c,
        settings.tolerance,
        colour.L.0,
        colour.a.0,
        colour.b.0,
    )
}

// The settings that stand in 20 bytes.
#[tactic(auto, unfolding(crate::specs::Record::two))]
pub(crate) fn settings_at(bytes: &[u8; 20]) -> Result<Settings, Refusal>
    ensures { result ≡ settings_in bytes.now }
{
    let [formula, white, l0, l1, c0, c1, t0, t1, ..] = *bytes;
    settings_of(LoadNumbers {
        formula: u32::from(formula),
        white: u32::from(white),
        l: u32::from(u16::from_le_bytes([l0, l1])),
        c: u32::from(u16::from_le_bytes([c0, c1])),
        tolerance: u32::from(u16::from_le_bytes([t0, t1])),
    })
}

// The reading that four bytes hold, in grid units.
#[tactic(auto, unfolding(crate::specs::Record::four, crate::specs::Record::of_twos))]
fn grid_in(bytes: [u8; 4]) -> Grid
    ensures { result ≡ grid_of (of_twos (four bytes 0)) }
{
    Grid::of_units(i64::from(i32::from_le_bytes(bytes)))
}

// The colour that stands in 20 bytes, if it lies on the grid.
#[tactic(auto, unfolding(crate::specs::Record::four, crate::specs::Record::placed))]
pub(crate) fn colour_at(bytes: &[u8; 20]) -> Placed
    ensures { result ≡ placed (colour_in bytes.now) }
{
    let [.., x0, x1, x2, x3, a0, a1, a2, a3, b0, b1, b2, b3] = *bytes;
    let colour = GridColour {
        L: grid_in([x0, x1, x2, x3]),
        a: grid_in([a0, a1, a2, a3]),
        b: grid_in([b0, b1, b2, b3]),
    };
    if colour.is_on_grid() {
        Ok(colour)
    } else {
        Err(Refusal::OutOfRange)
    }
}
