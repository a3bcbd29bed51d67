// The refusal numbers of document 01 and of the change requests, each by the reason that it stands for.
ghost use Rattle.std.specs.Prelude.{◌≡◌};
ghost use Rattle.paper.specs.Refusals.{number_of};

// Why an entry, a sheet or a number is refused.
#[derive(Clone, Copy, Debug, PartialEq, Eq)]
pub enum Refusal {
    Malformed,
    OutOfRange,
    NotNext,
    WrongMoment,
    WrongSeat,
    NotInTurn,
    NotAllowed,
    CardTwice,
    TooManyChips,
    CardsMissing,
    BadSheet,
    NoRoom,
    NotRight,
    SharesPool,
    NotStored,
    NotExact,
    Unpaid,
}

impl Refusal {
    // The paper's number for it.
    pub fn number(self) -> u8
        ensures { result ≡ number_of self }
    {
        match self {
            Refusal::Malformed => 1,
            Refusal::OutOfRange => 2,
            Refusal::NotNext => 3,
            Refusal::WrongMoment => 4,
            Refusal::WrongSeat => 5,
            Refusal::NotInTurn => 6,
            Refusal::NotAllowed => 7,
            Refusal::CardTwice => 8,
            Refusal::TooManyChips => 9,
            Refusal::CardsMissing => 10,
            Refusal::BadSheet => 11,
            Refusal::NoRoom => 12,
            Refusal::NotRight => 13,
            Refusal::SharesPool => 14,
            Refusal::NotStored => 15,
            Refusal::NotExact => 16,
            Refusal::Unpaid => 17,
        }
    }
}
