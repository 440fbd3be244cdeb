// Line 8.

// DL, DC, DH and DE, in units of 2^-20.
#[derive(Clone, Copy, Debug, PartialEq, Eq)]
pub struct Differences {
    pub DL: i64,
    pub DC: i64,
    pub DH: i64,
    pub DE: u64,
}
