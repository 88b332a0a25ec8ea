// Who runs.
ghost use Rattle.std.specs.Prelude.{◌≡◌, ℕ, ◌<◌, ◌%◌, Bool, eqb, Some};
ghost use Rattle.board.specs.Board.{clears, first, uses_in, ceiling_of, ceiling, may_go, named_by, named};
ghost use Rattle.board.specs.Steps.{keeps, Tests, user_ceiling, ceiling_step};

use crate::{Best, Board, Slot, lesser};
use quantity::{Instant, Length};
use timing::{Figures, State};

// Whether a server with period p may start below a ceiling.
fn clears(c: Option<Length>, p: Length) -> bool
    ensures { result ≡ clears p c }
{
    c.is_none_or(|c| p < c)
}

// Whether a server with these figures uses r.
fn uses(f: Figures, r: u8) -> bool
    ensures { result ≡ uses_in f r }
{
    f.is_present() && f.hold(r) != Length::NONE
}

// The period of a user of r, which is its ceiling if nobody else uses r.
#[tactic(auto, unfolding(crate::specs::Steps::user_ceiling))]
fn user_ceiling(f: Figures, r: u8) -> Option<Length>
    ensures { result ≡ user_ceiling f r }
{
    uses(f, r).then_some(f.period)
}

// The best so far, if there is one, stays before a server with deadline d in a later slot.
#[tactic(auto, unfolding(crate::specs::Steps::keeps))]
fn keeps(best: Option<Best>, d: Instant) -> bool
    ensures { result ≡ keeps best d }
{
    best.is_some_and(|b| b.deadline <= d)
}

impl Board {
    // The first by deadline, then by slot, of those whose state passes the test.
    #[tactic(auto, unfolding(crate::specs::Steps::better_of, crate::specs::Steps::best_of))]
    fn first<F: Fn(State) -> bool>(self, stands: F) -> Option<Slot>
        requires { F.IsAlwaysCallable stands }
        ensures { (started : Bool) → Tests (F.post stands) started → result ≡ first self started }
    {
        let mut best = None;
        for (slot, life) in self.lives.iter().enumerate() {
            if stands(life.state) && !keeps(best, life.deadline) {
                best = Some(Best {
                    slot,
                    deadline: life.deadline,
                });
            }
        }
        best.map(|best| Slot::new(best.slot))
    }

    // A resource's ceiling: the least period among servers that use it.
    #[tactic(auto, using(crate::proofs::Lowest::lowest_begin, crate::proofs::Lowest::lowest_next), unfolding(crate::specs::Board::ceiling_of, crate::specs::Steps::user_ceiling))]
    fn ceiling_of(self, r: u8) -> Option<Length>
        ensures { result ≡ ceiling_of self r }
    {
        let mut c = None;
        for f in self.table {
            c = lesser(c, user_ceiling(f, r));
        }
        c
    }

    // The ceiling with resource r counted, if the lowest bit says that it is locked; apart from the walk, in whose loop its proof did not close.
    #[tactic(auto, unfolding(crate::specs::Steps::ceiling_step))]
    fn ceiling_with(self, c: Option<Length>, bits: u8, r: u8) -> Option<Length>
        ensures { result ≡ ceiling_step self c (eqb (bits % 2) 1) r }
    {
        if bits & 1 == 1 {
            lesser(c, self.ceiling_of(r))
        } else {
            c
        }
    }

    // The board's ceiling: a walk over the bits of the locked number, until none is left.
    #[tactic(auto, using(crate::proofs::Lowest::half_left, resources::proofs::Laws::has_bit, crate::proofs::Lowest::lowest_next), unfolding(crate::specs::Board::lowest, crate::specs::Steps::ceiling_step))]
    fn ceiling(self) -> Option<Length>
        ensures { result ≡ ceiling self }
    {
        let mut bits = self.locked.0;
        let mut c = None;
        let mut r = 0;
        // The project's rule: the ceiling walks the set bits.
        while bits != 0 {
            c = self.ceiling_with(c, bits, r);
            bits >>= 1;
            r += 1;
        }
        c
    }

    // Whether the first of the ready servers is named, which stands in this slot: it is started, or no ceiling keeps it.
    #[tactic(auto, unfolding(crate::specs::Board::may_go))]
    fn may_go(self, slot: Slot) -> bool
        ensures { result ≡ may_go self slot }
    {
        self.life(slot).state.is_started() || clears(self.ceiling(), self.figures(slot).period)
    }

    // Who is named, where the first of the ready servers stands in this slot.
    #[tactic(auto, unfolding(crate::specs::Board::named_by))]
    fn named_by(self, slot: Slot) -> Option<Slot>
        ensures { result ≡ named_by self (Some slot) }
    {
        if self.may_go(slot) {
            Some(slot)
        } else {
            self.first(State::is_started)
        }
    }

    // Who is named, if anybody is.
    #[tactic(auto, unfolding(crate::specs::Board::named, crate::specs::Board::named_by))]
    pub(crate) fn named_slot(self) -> Option<Slot>
        ensures { result ≡ named self }
    {
        self.first(State::is_ready)
            .and_then(|slot| self.named_by(slot))
    }

    // The same, as a number.
    pub fn named(self) -> Option<usize>
        ensures is { result ≡ named self }
        ensures low { (s : ℕ) → result ≡ Some s → s < 16 }
    {
        self.named_slot().map(Slot::index)
    }
}
