// Why a call is refused: one case for each rule that can be broken, with document 01's number, and one for any other number.
#![tactic(auto)]

ghost use Rattle.std.specs.Prelude.{◌≡◌};
ghost use Rattle.refusals.specs.Refusals.{number_of};

#[derive(Clone, Copy, PartialEq, Eq)]
pub enum Refusal {
    WrongPhase,
    TableFull,
    FrameOutOfRange,
    PeriodOutOfRange,
    BudgetOutOfRange,
    HoldAboveBudget,
    TestNotMet,
    NotInTable,
    NotNamed,
    NotUsed,
    HoldsLock,
    HoldsNone,
    ResourceClosed,
    ResourceLocked,
    NotIdle,
    ServerStopped,
    RunOutOfRange,
    PastClockEnd,
    NotWellFormed,
    BufferTooShort,
    // Meant for a number that no rule has. No call gives it: so that an `Answer` can be made with any number.
    Other(u8),
}

impl From<Refusal> for u8 {
    ghost from_gives = { λ refusal n. n ≡ number_of refusal };

    fn from(refusal: Refusal) -> u8 {
        match refusal {
            Refusal::WrongPhase => 1,
            Refusal::TableFull => 2,
            Refusal::FrameOutOfRange => 3,
            Refusal::PeriodOutOfRange => 4,
            Refusal::BudgetOutOfRange => 5,
            Refusal::HoldAboveBudget => 6,
            Refusal::TestNotMet => 7,
            Refusal::NotInTable => 8,
            Refusal::NotNamed => 9,
            Refusal::NotUsed => 10,
            Refusal::HoldsLock => 11,
            Refusal::HoldsNone => 12,
            Refusal::ResourceClosed => 13,
            Refusal::ResourceLocked => 14,
            Refusal::NotIdle => 15,
            Refusal::ServerStopped => 16,
            Refusal::RunOutOfRange => 17,
            Refusal::PastClockEnd => 18,
            Refusal::NotWellFormed => 19,
            Refusal::BufferTooShort => 23,
            Refusal::Other(number) => number,
        }
    }
}
