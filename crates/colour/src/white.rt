// The whites of BS 6923, Table 1.
ghost use Rattle.std.specs.Prelude.{◌≡◌, ok_or};
ghost use Rattle.colour.specs.White.{white_of, number_of_white, white_numbered};
ghost use Rattle.colour.specs.declared.refusal.Refusal.TheVariants.{White as Refused};

use crate::refusal::Refusal;

// Tristimulus values, of a specimen or of a white, in millionths.
#[derive(Clone, Copy)]
pub struct TristimulusValues {
    pub X: u64,
    pub Y: u64,
    pub Z: u64,
}

// An illuminant with its observer, of 10 or of 2 degrees.
#[derive(Clone, Copy, Debug, PartialEq, Eq)]
pub enum White {
    D65Ten,
    D65Two,
    CTen,
    CTwo,
}

impl White {
    // The white's own tristimulus values.
    #[tactic(auto, unfolding(crate::specs::White::white_of))]
    pub fn tristimulus(self) -> TristimulusValues
        ensures { result ≡ white_of self }
    {
        match self {
            White::D65Ten => TristimulusValues {
                X: 94811000,
                Y: 100000000,
                Z: 107304000,
            },
            White::D65Two => TristimulusValues {
                X: 95047000,
                Y: 100000000,
                Z: 108883000,
            },
            White::CTen => TristimulusValues {
                X: 97285000,
                Y: 100000000,
                Z: 116145000,
            },
            White::CTwo => TristimulusValues {
                X: 98074000,
                Y: 100000000,
                Z: 118232000,
            },
        }
    }
}

// By which a load names the white.
impl From<White> for u32 {
    ghost from_gives = { λ w n. n ≡ number_of_white w };

    fn from(w: White) -> u32 {
        match w {
            White::D65Ten => 1,
            White::D65Two => 2,
            White::CTen => 3,
            White::CTwo => 4,
        }
    }
}

// The white of a number.
impl TryFrom<u32> for White {
    type Error = Refusal;

    ghost try_from_gives = { λ n r. r ≡ ok_or (white_numbered n) Refused };

    #[tactic(auto, unfolding(crate::specs::White::white_numbered))]
    fn try_from(n: u32) -> Result<White, Refusal> {
        match n {
            1 => Ok(White::D65Ten),
            2 => Ok(White::D65Two),
            3 => Ok(White::CTen),
            4 => Ok(White::CTwo),
            _ => Err(Refusal::White),
        }
    }
}
