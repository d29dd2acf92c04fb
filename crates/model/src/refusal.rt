// Why a call is refused.
// Relies on nothing; every call answers with one, and printed lines and the answers for C have its number.
ghost use Rattle.std.specs.Prelude.{◌≡◌};
ghost use Rattle.model.specs.Told.{number};

// The numbers are the public document's. 17 is for a shown line that is too long, which no board has.
#[derive(Clone, Copy, PartialEq, Eq)]
pub enum Refusal {
    SheetTooLong = 1,
    LineTooLong = 2,
    BracketsTooDeep = 3,
    NoForm = 4,
    NoBoardLaid = 5,
    TooManySteps = 6,
    TooShort = 7,
    StationsOutOfRange = 8,
    IslandsOutOfRange = 9,
    WrongLength = 10,
    Unsound = 11,
    NoStation = 12,
    NotIdle = 13,
    StillIdle = 14,
    HasDecided = 15,
    IsSpent = 16,
    CollectUnderWay = 18,
    UnknownRound = 19,
    NamedTwice = 20,
    NoTape = 21,
    TwoStations = 22,
}

impl From<Refusal> for u8 {
    ghost from_gives = { λ refusal k. k ≡ number refusal };

    fn from(refusal: Refusal) -> u8 {
        refusal as u8
    }
}
