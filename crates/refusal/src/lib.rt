#![tactic(auto)]

ghost use Rattle.std.specs.Prelude.{◌≡◌};
ghost use Rattle.refusal.specs.Numbers.{number_of};

// Why a call was refused: the first of its questions that was answered no.
// Each case is named by what that no means; docs/RULES.md has the questions themselves.
#[derive(Clone, Copy, PartialEq, Eq, Debug)]
pub enum Refusal {
    ScheduleTooLong = 1,
    ListingFull = 2,
    UnknownLetter = 3,
    OperandsMissing = 4,
    UnknownPile = 5,
    StationCount = 6,
    LeaderOutOfRange = 7,
    TooFewRegisters = 8,
    RegistersInUse = 9,
    StationsDiffer = 10,
    NotAllAway = 11,
    TooLarge = 12,
    NoSuchRegister = 13,
    NoPile = 14,
    NoSuchStation = 15,
    Stopped = 16,
    AlreadyEntered = 17,
    NotEntered = 18,
    AlreadyAnswered = 19,
}

// The number of the question, which stands in the listing.
impl From<Refusal> for u8 {
    ghost from_gives = { λ refusal number. number ≡ number_of refusal };

    fn from(refusal: Refusal) -> u8 {
        refusal as u8
    }
}
