// The whole sheet.
use crate::differences::Differences;
use crate::scaled::Scaled;
use crate::shift::Shift;

// All that the sheet finds of a test specimen: its chroma, the shift from the reference with the cross and the dot that
// it turns on, line 8, and DE on its formula's own scale.
#[derive(Clone, Copy, Debug, PartialEq, Eq)]
pub struct Comparison {
    pub C: u64,
    pub shift: Shift,
    pub cross: i64,
    pub dot: i64,
    pub differences: Differences,
    pub scaled: Scaled,
}
