// Why a job, a command or a call is refused.
ghost use Rattle.std.specs.Prelude.{◌≡◌};
ghost use Rattle.model.specs.Reasons.{number_of};

// The refusals of paper 01 and of the requests, in the order of their numbers. `include/covers.h` has the same names for C.
#[derive(Clone, Copy, Debug, PartialEq, Eq)]
pub enum Reason {
    TooLong,
    NoEnd,
    NoCommand,
    WrongPlace,
    NoOperands,
    WrongSizes,
    WrongVertex,
    WrongRow,
    MalformedTerm,
    OffCell,
    TooMany,
    UnheldCell,
    BytesAfterEnd,
    NoRoom,
    WrongCandidate,
    WrongPrices,
    TooManyProducts,
    MalformedBlock,
    MalformedRange,
}

impl Reason {
    // Its number.
    pub fn number(self) -> u8
        ensures { result ≡ number_of self }
    {
        match self {
            Reason::TooLong => 1,
            Reason::NoEnd => 2,
            Reason::NoCommand => 3,
            Reason::WrongPlace => 4,
            Reason::NoOperands => 5,
            Reason::WrongSizes => 6,
            Reason::WrongVertex => 7,
            Reason::WrongRow => 8,
            Reason::MalformedTerm => 9,
            Reason::OffCell => 10,
            Reason::TooMany => 11,
            Reason::UnheldCell => 12,
            Reason::BytesAfterEnd => 13,
            Reason::NoRoom => 14,
            Reason::WrongCandidate => 15,
            Reason::WrongPrices => 16,
            Reason::TooManyProducts => 17,
            Reason::MalformedBlock => 18,
            Reason::MalformedRange => 19,
        }
    }
}
