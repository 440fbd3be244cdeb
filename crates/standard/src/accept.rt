// Accepts a standard: settings and a reference.
ghost use Rattle.std.specs.Prelude.{◌≡◌};
ghost use Rattle.colour.specs.Refusal.{refusal_of};
ghost use Rattle.standard.specs.Refusals.{refusal};
ghost use Rattle.standard.specs.Acceptance.{settings_by, range_faults, acceptance};

use colour::conversion::GridColour;
use colour::placed::Placed;
use colour::refusal::Refusal;
use colour::white::White;
use sheet::formula::Formula;
use sheet::settings::{Settings, is_factor, is_tolerance};

// What judgements go by, the reference on the grid. Nothing that is worked out from these is kept, so that nothing kept
// can be stale. No invariant says what `accept` tested: a station's slice is filled with any.
#[derive(Clone, Copy)]
pub struct Standard {
    pub settings: Settings,
    pub colour: GridColour,
}

// What a load takes beside its reference: the numbers of a formula and of a white, and l, c and the tolerance in
// thousandths.
#[derive(Clone, Copy, Debug, PartialEq, Eq)]
pub struct LoadNumbers {
    pub formula: u32,
    pub white: u32,
    pub l: u32,
    pub c: u32,
    pub tolerance: u32,
}

// What settings and a reference come to.
pub type Acceptance = Result<Standard, Refusal>;

// The settings that the numbers of a formula and of a white name: 1, then 2, where there is no such formula or white.
#[tactic(auto, unfolding(crate::specs::Acceptance::settings_of))]
pub fn settings_of(n: LoadNumbers) -> Result<Settings, Refusal>
    ensures { result ≡ settings_by n }
{
    Ok(Settings {
        formula: Formula::try_from(n.formula)?,
        white: White::try_from(n.white)?,
        l: u64::from(n.l),
        c: u64::from(n.c),
        tolerance: u64::from(n.tolerance),
    })
}

// 3 for l, then 3 for c, then 4.
fn check_ranges(s: Settings) -> Result<(), Refusal>
    ensures { refusal_of result ≡ refusal (range_faults s.l s.c s.tolerance) }
{
    if !is_factor(s.l) || !is_factor(s.c) {
        return Err(Refusal::Factor);
    }
    if !is_tolerance(s.tolerance) {
        return Err(Refusal::Tolerance);
    }
    Ok(())
}

// The standard, or the first refusal: that of a range, then the reference's.
pub fn accept(s: Settings, reference: Placed) -> Acceptance
    ensures { result ≡ acceptance s reference }
{
    check_ranges(s)?;
    Ok(Standard {
        settings: s,
        colour: reference?,
    })
}
