// The three formulas.
ghost use Rattle.std.specs.Prelude.{◌≡◌, ok_or};
ghost use Rattle.colour.specs.declared.refusal.Refusal.TheVariants.{Formula as Refused};
ghost use Rattle.sheet.specs.Settings.{number_of_formula, formula_numbered};
ghost use Rattle.sheet.specs.Sheet.{factor_under};

use colour::refusal::Refusal;

#[derive(Clone, Copy, Debug, PartialEq, Eq)]
pub enum Formula {
    CIELAB,
    CIE94,
    CMC,
}

impl Formula {
    // l or c as the formula takes it.
    pub fn factor(self, l: u64) -> u64
        ensures { result ≡ factor_under self l }
    {
        match self {
            Formula::CIELAB => 1000,
            Formula::CIE94 => l,
            Formula::CMC => l,
        }
    }
}

// By which a load names the formula.
impl From<Formula> for u32 {
    ghost from_gives = { λ f n. n ≡ number_of_formula f };

    fn from(f: Formula) -> u32 {
        match f {
            Formula::CIELAB => 1,
            Formula::CIE94 => 2,
            Formula::CMC => 3,
        }
    }
}

// The formula of a number.
impl TryFrom<u32> for Formula {
    type Error = Refusal;

    ghost try_from_gives = { λ n r. r ≡ ok_or (formula_numbered n) Refused };

    #[tactic(auto, unfolding(crate::specs::Settings::formula_numbered))]
    fn try_from(n: u32) -> Result<Formula, Refusal> {
        match n {
            1 => Ok(Formula::CIELAB),
            2 => Ok(Formula::CIE94),
            3 => Ok(Formula::CMC),
            _ => Err(Refusal::Formula),
        }
    }
}
