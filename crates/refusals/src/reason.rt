// Why a call is refused, and the number that stands for it outside.
ghost use Rattle.std.specs.Prelude.{◌≡◌};
ghost use Rattle.refusals.specs.declared.reason.Refusal.TheVariants.{Code};
ghost use Rattle.refusals.specs.Number.{number_of};

use codes::UnknownCode;
use std::error::Error;
use std::fmt;

// Why a call is refused. Its number is that of the exports and of a job's answer.
#[derive(Clone, Copy, Debug, PartialEq, Eq)]
pub enum Refusal {
    Code = 1,
    Prime = 2,
    OtherCode = 3,
    CellSize = 4,
    Length = 5,
    Outside = 6,
    ParityCell = 7,
    NewLength = 8,
    PlanNotAccepted = 9,
    NotRebuilt = 10,
    Undetermined = 11,
    Disagree = 12,
    NoJob = 13,
    DataColumns = 14,
    OtherPrime = 15,
}

impl From<Refusal> for usize {
    ghost from_gives = { λ refusal number. number ≡ number_of refusal };

    fn from(refusal: Refusal) -> usize {
        refusal as usize
    }
}

impl From<UnknownCode> for Refusal {
    ghost from_gives = { λ _ refusal. refusal ≡ Code };

    fn from(_unknown: UnknownCode) -> Refusal {
        Refusal::Code
    }
}

impl fmt::Display for Refusal {
    fn fmt<W: fmt::Write>(&self, f: &mut fmt::Formatter<W>) -> fmt::Result {
        f.write_str(match self {
            Refusal::Code => "no code has this number",
            Refusal::Prime => "p is not one of the ten primes",
            Refusal::DataColumns => "this number of data columns can't be",
            Refusal::OtherCode => "the call is for RDP alone",
            Refusal::OtherPrime => "no balanced plan is offered for this prime",
            Refusal::CellSize => "a cell has 1 to 4096 bytes",
            Refusal::Length => "the stripe or the spare is of another length",
            Refusal::Outside => "a row, a column or a cell is outside the stripe",
            Refusal::ParityCell => "a parity cell is not written",
            Refusal::NewLength => "the new bytes are not one cell",
            Refusal::PlanNotAccepted => "the plan is not accepted for this column",
            Refusal::NotRebuilt => "the row is not rebuilt yet",
            Refusal::Undetermined => "the survivors leave the lost cells open",
            Refusal::Disagree => "the survivors disagree",
            Refusal::NoJob => "the bytes are no job",
        })
    }
}

impl Error for Refusal {}
