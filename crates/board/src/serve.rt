// The calls of one server: arrive, done, lock, unlock.
// Between two checks each has a function of its own, as the definitions have (`done_in`, `lock_ready`, ..): so their matches of the state stand in each.
ghost use Rattle.std.specs.Prelude.{◌≡◌};
ghost use Rattle.timing.specs.declared.State.TheVariants.{Idle};
ghost use Rattle.timing.specs.Timing.{asked};
ghost use Rattle.board.specs.Board.{figures_at, life_at, named, is_slot};
ghost use Rattle.board.specs.Calls.{standing, answer_to, arrived_in, arrives, rested, done_with, done_ready, done_in, done_by, locked_by, locking, lock_free, lock_with, lock_ready, lock_in, locks, unlocking, unlock_with, unlock_ready, unlock_in, unlocks};

use crate::{Answer, Board, Outcome, Slot};
use quantity::Length;
use refusals::Refusal;
use resources::Set;
use timing::{Lock, Ruling, State};

// The rule's answer.
impl From<Ruling> for Answer {
    ghost from_gives = { λ ruling answer. answer ≡ answer_to ruling };

    fn from(ruling: Ruling) -> Answer {
        match ruling {
            Ruling::Done => Answer::Done(0),
            Ruling::Suspended(t) => Answer::Suspended(t),
            Ruling::Renewed => Answer::Renewed,
        }
    }
}

// The locked set after a rule: bit r is set where the lock is granted.
#[tactic(auto, unfolding(crate::specs::Calls::locked_by))]
fn locked_by(locked: Set, r: u8, ruling: Ruling) -> Set
    ensures { result ≡ locked_by locked r ruling }
{
    if matches!(ruling, Ruling::Done) {
        locked.insert(r)
    } else {
        locked
    }
}

impl Board {
    // The checks that the calls of a server share, and its slot where they pass.
    #[tactic(auto, unfolding(crate::specs::Calls::standing))]
    fn standing(self, number: u64) -> Result<Slot, Refusal>
        ensures { result ≡ standing self number }
    {
        if !self.running {
            return Err(Refusal::WrongPhase);
        }
        let slot = Slot::of(number).ok_or(Refusal::NotInTable)?;
        if !self.figures(slot).is_present() {
            return Err(Refusal::NotInTable);
        }
        if self.life(slot).state.is_stopped() {
            return Err(Refusal::ServerStopped);
        }
        Ok(slot)
    }

    // The idle server in a slot arrives.
    #[tactic(auto, unfolding(crate::specs::Calls::arrived_in))]
    fn arrive_idle(self, slot: Slot) -> Outcome
        ensures { result ≡ arrived_in Idle self slot }
    {
        let ruled = self.life(slot).arrive(self.figures(slot), self.clock);
        Outcome {
            board: self.with_life(slot, ruled.life),
            answer: Answer::from(ruled.ruling),
        }
    }

    #[tactic(auto, unfolding(crate::specs::Calls::arrived_in))]
    fn arrive_in(self, slot: Slot) -> Outcome
        ensures { result ≡ arrived_in (life_at self slot).state self slot }
    {
        match self.life(slot).state {
            State::Idle => self.arrive_idle(slot),
            _ => self.refuse(Refusal::NotIdle),
        }
    }

    #[tactic(auto, unfolding(crate::specs::Calls::arrives))]
    pub fn arrive(self, slot: u64) -> Outcome
        ensures { result ≡ arrives self slot }
    {
        match self.standing(slot) {
            Ok(slot) => self.arrive_in(slot),
            Err(why) => self.refuse(why),
        }
    }

    fn is_named(self, slot: Slot) -> bool
        ensures { result ≡ is_slot (named self) slot }
    {
        self.named() == Some(slot.index())
    }

    // The server in a slot becomes idle and keeps its budget and deadline.
    #[tactic(auto, unfolding(crate::specs::Calls::rested))]
    fn rest(self, slot: Slot) -> Outcome
        ensures { result ≡ rested self slot }
    {
        let idle = self.life(slot).in_state(State::Idle);
        Outcome {
            board: self.with_life(slot, idle),
            answer: Answer::Done(0),
        }
    }

    #[tactic(auto, unfolding(crate::specs::Calls::done_with))]
    fn done_with(self, lock: Lock, slot: Slot) -> Outcome
        ensures { result ≡ done_with lock self slot }
    {
        match lock {
            Lock::Free => self.rest(slot),
            Lock::On(..) => self.refuse(Refusal::HoldsLock),
        }
    }

    #[tactic(auto, unfolding(crate::specs::Calls::done_ready))]
    fn done_ready(self, lock: Lock, slot: Slot) -> Outcome
        ensures { result ≡ done_ready lock self slot }
    {
        if !self.is_named(slot) {
            return self.refuse(Refusal::NotNamed);
        }
        self.done_with(lock, slot)
    }

    #[tactic(auto, unfolding(crate::specs::Calls::done_in))]
    fn done_in(self, slot: Slot) -> Outcome
        ensures { result ≡ done_in (life_at self slot).state self slot }
    {
        match self.life(slot).state {
            State::Ready { lock, .. } => self.done_ready(lock, slot),
            State::Spent => self.rest(slot),
            _ => self.refuse(Refusal::NotNamed),
        }
    }

    #[tactic(auto, unfolding(crate::specs::Calls::done_by))]
    pub fn done(self, slot: u64) -> Outcome
        ensures { result ≡ done_by self slot }
    {
        match self.standing(slot) {
            Ok(slot) => self.done_in(slot),
            Err(why) => self.refuse(why),
        }
    }

    // The lock's budget rule, and the bit it sets.
    #[tactic(auto, unfolding(crate::specs::Calls::locking))]
    fn lock_by(self, slot: Slot, r: u8) -> Outcome
        ensures { result ≡ locking self slot r (asked (figures_at self slot) (life_at self slot) r self.clock) }
    {
        let ruled = self.life(slot).lock(self.figures(slot), r, self.clock);
        let locked = locked_by(self.locked, r, ruled.ruling);
        Outcome {
            board: self.with_sets(slot, ruled.life, locked, self.closed),
            answer: Answer::from(ruled.ruling),
        }
    }

    #[tactic(auto, using(timing::specs::Timing::Laws::hold_outside), unfolding(crate::specs::Calls::lock_free))]
    fn lock_free(self, slot: Slot, resource: u64) -> Outcome
        ensures { result ≡ lock_free self slot resource }
    {
        let Ok(r) = u8::try_from(resource) else {
            return self.refuse(Refusal::NotUsed);
        };
        if self.figures(slot).hold(r) == Length::NONE {
            return self.refuse(Refusal::NotUsed);
        }
        if self.closed.contains(r) {
            return self.refuse(Refusal::ResourceClosed);
        }
        if self.locked.contains(r) {
            return self.refuse(Refusal::ResourceLocked);
        }
        self.lock_by(slot, r)
    }

    #[tactic(auto, unfolding(crate::specs::Calls::lock_with))]
    fn lock_with(self, lock: Lock, slot: Slot, resource: u64) -> Outcome
        ensures { result ≡ lock_with lock self slot resource }
    {
        match lock {
            Lock::Free => self.lock_free(slot, resource),
            Lock::On(..) => self.refuse(Refusal::HoldsLock),
        }
    }

    #[tactic(auto, unfolding(crate::specs::Calls::lock_ready))]
    fn lock_ready(self, lock: Lock, slot: Slot, resource: u64) -> Outcome
        ensures { result ≡ lock_ready lock self slot resource }
    {
        if !self.is_named(slot) {
            return self.refuse(Refusal::NotNamed);
        }
        self.lock_with(lock, slot, resource)
    }

    #[tactic(auto, unfolding(crate::specs::Calls::lock_in))]
    fn lock_in(self, slot: Slot, resource: u64) -> Outcome
        ensures { result ≡ lock_in (life_at self slot).state self slot resource }
    {
        match self.life(slot).state {
            State::Ready { lock, .. } => self.lock_ready(lock, slot, resource),
            _ => self.refuse(Refusal::NotNamed),
        }
    }

    #[tactic(auto, unfolding(crate::specs::Calls::locks))]
    pub fn lock(self, slot: u64, resource: u64) -> Outcome
        ensures { result ≡ locks self slot resource }
    {
        match self.standing(slot) {
            Ok(slot) => self.lock_in(slot, resource),
            Err(why) => self.refuse(why),
        }
    }

    // The lock is given back, and the server may be spent.
    #[tactic(auto, unfolding(crate::specs::Calls::unlocking))]
    fn unlock_by(self, slot: Slot, started: bool, r: u8) -> Outcome
        ensures { result ≡ unlocking self slot started r }
    {
        let free = self.life(slot).in_state(State::Ready {
            started,
            lock: Lock::Free,
        });
        let life = free.settle(self.figures(slot), self.clock);
        let locked = self.locked.remove(r);
        Outcome {
            board: self.with_sets(slot, life, locked, self.closed),
            answer: Answer::Done(0),
        }
    }

    #[tactic(auto, unfolding(crate::specs::Calls::unlock_with))]
    fn unlock_with(self, started: bool, lock: Lock, slot: Slot) -> Outcome
        ensures { result ≡ unlock_with started lock self slot }
    {
        match lock {
            Lock::Free => self.refuse(Refusal::HoldsNone),
            Lock::On(r, _) => self.unlock_by(slot, started, r),
        }
    }

    #[tactic(auto, unfolding(crate::specs::Calls::unlock_ready))]
    fn unlock_ready(self, started: bool, lock: Lock, slot: Slot) -> Outcome
        ensures { result ≡ unlock_ready started lock self slot }
    {
        if !self.is_named(slot) {
            return self.refuse(Refusal::NotNamed);
        }
        self.unlock_with(started, lock, slot)
    }

    #[tactic(auto, unfolding(crate::specs::Calls::unlock_in))]
    fn unlock_in(self, slot: Slot) -> Outcome
        ensures { result ≡ unlock_in (life_at self slot).state self slot }
    {
        match self.life(slot).state {
            State::Ready { started, lock } => self.unlock_ready(started, lock, slot),
            _ => self.refuse(Refusal::NotNamed),
        }
    }

    #[tactic(auto, unfolding(crate::specs::Calls::unlocks))]
    pub fn unlock(self, slot: u64) -> Outcome
        ensures { result ≡ unlocks self slot }
    {
        match self.standing(slot) {
            Ok(slot) => self.unlock_in(slot),
            Err(why) => self.refuse(why),
        }
    }
}
