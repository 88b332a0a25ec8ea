// Two sorts of quantity, in whole ticks: an instant and a length.
// An instant's number is private: instants are made of the clock's begin, its end and lengths alone, so nobody can add two.
#![tactic(auto)]

ghost use Rattle.std.specs.Prelude.{◌≡◌};
ghost use Rattle.quantity.specs.Quantity.{at, ticks, later, since, less_portion, longer, shorter, length_of};
ghost use Rattle.quantity.specs.Quantity.{longest_period, largest_frame, clock_end, longest_run};

#[derive(Clone, Copy, PartialEq, Eq, PartialOrd, Ord)]
pub struct Instant(u64);

#[derive(Clone, Copy, PartialEq, Eq, PartialOrd, Ord)]
pub struct Length(pub u32);

impl Length {
    pub const NONE: Length = Length(0);

    pub const ONE: Length = Length(1);

    pub const LONGEST_PERIOD: Length = Length(1_000_000);

    pub const LARGEST_FRAME: Length = Length(1_000_000_000);

    pub const LONGEST_RUN: Length = Length(1_000_000);

    // The limits are those that the definitions name.
    pub fn longest_period() -> Length
        ensures { result ≡ ticks longest_period }
    {
        Self::LONGEST_PERIOD
    }

    pub fn largest_frame() -> Length
        ensures { result ≡ ticks largest_frame }
    {
        Self::LARGEST_FRAME
    }

    pub fn longest_run() -> Length
        ensures { result ≡ ticks longest_run }
    {
        Self::LONGEST_RUN
    }

    // The length of n ticks, or the longest there is: a caller's number is judged before it comes here.
    #[tactic(auto, unfolding(crate::specs::Quantity::length_of))]
    pub fn of(n: u64) -> Length
        ensures { result ≡ length_of n }
    {
        Length(u32::try_from(n).unwrap_or(u32::MAX))
    }

    // A length stays at its longest, which `+` would not say; an instant's `plus` is one line of its own too.
    #[tactic(auto, unfolding(crate::specs::Quantity::longer))]
    pub fn plus(self, other: Length) -> Length
        ensures { result ≡ longer self other }
    {
        Length(self.0.saturating_add(other.0))
    }

    #[tactic(auto, unfolding(crate::specs::Quantity::shorter))]
    pub fn less(self, other: Length) -> Length
        ensures { result ≡ shorter self other }
    {
        Length(self.0.saturating_sub(other.0))
    }
}

impl Instant {
    pub const BEGIN: Instant = Instant(0);

    pub const END: Instant = Instant(1_000_000_000_000);

    // The clock begins at 0 and ends where the definitions say.
    pub fn begin() -> Instant
        ensures { result ≡ at 0 }
    {
        Self::BEGIN
    }

    pub fn end() -> Instant
        ensures { result ≡ at clock_end }
    {
        Self::END
    }

    // It stays at the last instant, which `+` would not say.
    #[tactic(auto, unfolding(crate::specs::Quantity::later))]
    pub fn plus(self, l: Length) -> Instant
        ensures { result ≡ later self l }
    {
        Instant(self.0.saturating_add(u64::from(l.0)))
    }

    #[tactic(auto, unfolding(crate::specs::Quantity::since, crate::specs::Quantity::length_of))]
    pub fn since(self, other: Instant) -> Length
        ensures { result ≡ since self other }
    {
        Length::of(self.0.saturating_sub(other.0))
    }

    // This instant less floor(part * l / whole).
    #[tactic(auto, unfolding(crate::specs::Quantity::less_portion))]
    pub fn less_portion(self, l: Length, part: Length, whole: Length) -> Instant
        ensures { result ≡ less_portion self l part whole }
    {
        if whole == Length::NONE {
            return self;
        }
        let back = u64::from(part.0) * u64::from(l.0) / u64::from(whole.0);
        Instant(self.0.saturating_sub(back))
    }
}

// An instant's number, to be shown.
impl From<Instant> for u64 {
    ghost from_gives = { λ t n. n ≡ t.0 };

    fn from(instant: Instant) -> u64 {
        instant.0
    }
}
