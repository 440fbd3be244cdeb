// Lines 1 and 3 to 7.

// What the sheet takes from the reference alone: its chroma and the three semi-axes, in units of 2^-20.
#[derive(Clone, Copy, Debug, PartialEq, Eq)]
pub struct SemiAxes {
    pub C: u64,
    pub SL: u64,
    pub SC: u64,
    pub SH: u64,
}
