// Lines 1 and 2.
ghost use Rattle.std.specs.Prelude.{◌≡◌};
ghost use Rattle.sheet.specs.Sheet.{same_hue};

// ΔL, ΔC and ΔH, in units of 2^-20.
#[derive(Clone, Copy, Debug, PartialEq, Eq)]
pub struct Shift {
    pub L: i64,
    pub C: i64,
    pub H: i64,
}

// Whether the cross x is 0 and the dot y not negative.
#[tactic(auto, unfolding(crate::specs::Sheet::same_hue))]
pub fn same_hue(x: i64, y: i64) -> bool
    ensures { result ≡ same_hue x y }
{
    x == 0 && 0 <= y
}
