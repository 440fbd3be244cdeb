// Why a call is refused, with the names and the numbers of include/shade.h.
ghost use Rattle.std.specs.Prelude.{◌≡◌};
ghost use Rattle.colour.specs.Refusal.{number_of_refusal, refusal_of};

#[derive(Clone, Copy, Debug, PartialEq, Eq)]
pub enum Refusal {
    Formula,
    White,
    Factor,
    Tolerance,
    NotANumber,
    OutOfRange,
    Ticket,
    Beyond256,
    NoStandard,
    Length,
    Count,
}

// By which a call names it.
impl From<Refusal> for u32 {
    ghost from_gives = { λ e n. n ≡ number_of_refusal e };

    fn from(e: Refusal) -> u32 {
        match e {
            Refusal::Formula => 1,
            Refusal::White => 2,
            Refusal::Factor => 3,
            Refusal::Tolerance => 4,
            Refusal::NotANumber => 5,
            Refusal::OutOfRange => 6,
            Refusal::Ticket => 7,
            Refusal::Beyond256 => 8,
            Refusal::NoStandard => 9,
            Refusal::Length => 10,
            Refusal::Count => 11,
        }
    }
}

// The number that a call answers: its refusal's, or 0.
pub fn number_of<T: Copy>(r: Result<T, Refusal>) -> u32
    ensures { result ≡ refusal_of r }
{
    match r {
        Ok(_) => 0,
        Err(e) => u32::from(e),
    }
}
