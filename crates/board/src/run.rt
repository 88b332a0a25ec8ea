// Running: a run is single ticks up to the first event; its loop changes one life and the clock.
ghost use Rattle.std.specs.Prelude.{◌≡◌, Some, None};
ghost use Rattle.terms.specs.Words.{list};
ghost use Rattle.board.specs.Board.{life_at, named};
ghost use Rattle.board.specs.Run.{any_due, woken_at, roused, reached_with, reached_in, goes_on, ran_from, passes, stopping, run_with, run_in, run_by, runs};
ghost use Rattle.board.specs.Steps.{wait_in, has_come, wait_of, ended_by, ran_to};

use crate::{Answer, Board, Outcome, Ran, Reason, Slot, lesser};
use quantity::{Instant, Length};
use refusals::Refusal;
use std::array::from_fn;
use timing::{Figures, Life, Lock, State};

// Whether an instant that somebody waits for has come.
fn has_come(wait: Option<Instant>, now: Instant) -> bool
    ensures { result ≡ has_come wait now }
{
    wait.is_some_and(|t| t <= now)
}

// What a server waits for.
fn wait_of(l: Life) -> Option<Instant>
    ensures { result ≡ wait_in l.state l }
{
    match l.state {
        State::Suspended(t) => Some(t),
        State::Spent => Some(l.deadline),
        _ => None,
    }
}

// The first instant that any server waits for.
#[tactic(auto, using(crate::proofs::Loop::wait_begin, crate::proofs::Loop::wait_next))]
fn first_wait(lives: [Life; 16]) -> Option<Instant>
    ensures { result ≡ wait_of lives 16 }
{
    let mut wait = None;
    for l in lives {
        wait = lesser(wait, wait_of(l));
    }
    wait
}

impl Reason {
    // The run goes on after the tick.
    fn goes_on(self) -> bool
        ensures { result ≡ goes_on self }
    {
        matches!(self, Reason::Whole)
    }
}

// Without a lock a tick that leaves no budget ends the run; with one, a tick at which the held count reaches the hold.
#[tactic(auto, unfolding(crate::specs::Run::reached_with))]
fn reach_with(lock: Lock, f: Figures, left: Length) -> Reason
    ensures { result ≡ reached_with lock f left }
{
    match lock {
        Lock::Free if left == Length::NONE => Reason::Changed,
        Lock::On(r, n) if f.hold(r) == n => Reason::Reached,
        _ => Reason::Whole,
    }
}

// What a tick ends, by the life after it.
fn reach(l: Life, f: Figures) -> Reason
    ensures { result ≡ reached_in l.state f l.left }
{
    match l.state {
        State::Ready { lock, .. } => reach_with(lock, f, l.left),
        _ => Reason::Whole,
    }
}

// Why a run ends with a tick, if it does: a replenishment is a change too.
#[tactic(auto, unfolding(crate::specs::Steps::ended_by))]
fn end_by(l: Life, f: Figures, wait: Option<Instant>, now: Instant) -> Reason
    ensures { result ≡ ended_by l f wait now }
{
    if has_come(wait, now) {
        Reason::Changed
    } else {
        reach(l, f)
    }
}

impl Board {
    // Whether somebody's instant has come.
    #[tactic(auto, unfolding(terms::specs::Words::some, crate::specs::Run::any_due))]
    fn any_due(self) -> bool
        ensures { result ≡ any_due self }
    {
        self.lives.iter().any(|l| l.is_due(self.clock))
    }

    // The lives with all whose instant has come replenished.
    fn woken(self) -> [Life; 16]
        ensures { result ≡ list (woken_at self) 16 }
    {
        from_fn(|i| self.lives[i].wake(self.table[i], self.clock))
    }

    // Servers whose instant has come are replenished.
    #[tactic(auto, unfolding(crate::specs::Run::roused))]
    fn rouse(self) -> Board
        ensures { result ≡ roused self }
    {
        if self.any_due() {
            Board {
                lives: self.woken(),
                ..self
            }
        } else {
            self
        }
    }

    // The end of a run: the tick that ended it replenishes whose instant has come; where no event did, nobody's has.
    #[tactic(auto, unfolding(crate::specs::Steps::ran_to))]
    fn end_run(self, ticks: u64, reason: Reason) -> Ran
        ensures { result ≡ ran_to self ticks reason }
    {
        let board = if reason.goes_on() { self } else { self.rouse() };
        Ran {
            board,
            ticks,
            reason,
        }
    }

    // Nobody is named: only the clock moves, until somebody's instant comes.
    fn pause(self, n: u64) -> Ran
        requires { named self ≡ None }
        ensures { result ≡ ran_from self 0 n }
    {
        let wait = first_wait(self.lives);
        let mut now = self.clock;
        let mut pauses = 0;
        let mut reason = Reason::Whole;
        // The form that the project's rule asks for: left by `break`, with the count of ticks and the reason.
        loop {
            if n <= pauses {
                break;
            }
            now = now.plus(Length::ONE);
            pauses += 1;
            if has_come(wait, now) {
                reason = Reason::Changed;
                break;
            }
        }
        Board { clock: now, ..self }.end_run(pauses, reason)
    }

    // A slot is named, and stays so: only its life and the clock change, until a tick ends the run.
    fn work(self, slot: Slot, n: u64) -> Ran
        requires { named self ≡ Some slot }
        ensures { result ≡ ran_from self 0 n }
    {
        let wait = first_wait(self.lives);
        let f = self.figures(slot);
        let mut life = self.life(slot);
        let mut now = self.clock;
        let mut ticks = 0;
        let mut reason = Reason::Whole;
        // The form that the project's rule asks for: left by `break`, with the count of ticks and the reason.
        loop {
            if n <= ticks {
                break;
            }
            now = now.plus(Length::ONE);
            let after = life.tick();
            reason = end_by(after, f, wait, now);
            life = after.settle(f, now);
            ticks += 1;
            if !reason.goes_on() {
                break;
            }
        }
        let b = self.with_life(slot, life);
        Board { clock: now, ..b }.end_run(ticks, reason)
    }

    // Ticks pass until there are n of them or one ends the run.
    fn advance(self, n: u64) -> Ran
        ensures { result ≡ ran_from self 0 n }
    {
        match self.named_slot() {
            None => self.pause(n),
            Some(slot) => self.work(slot, n),
        }
    }

    #[tactic(auto, unfolding(crate::specs::Run::passes))]
    fn pass(self, n: u64) -> Outcome
        ensures { result ≡ passes self n }
    {
        let ran = self.advance(n);
        Outcome {
            board: ran.board,
            answer: Answer::Done(ran.ticks),
        }
    }

    // An overholder is stopped, and its resource closed and unlocked.
    #[tactic(auto, unfolding(crate::specs::Run::stopping))]
    fn stop(self, slot: Slot, r: u8) -> Outcome
        ensures { result ≡ stopping self slot r }
    {
        let stopped = self.life(slot).in_state(State::Stopped);
        let locked = self.locked.remove(r);
        let closed = self.closed.insert(r);
        Outcome {
            board: self.with_sets(slot, stopped, locked, closed),
            answer: Answer::Overheld,
        }
    }

    #[tactic(auto, unfolding(crate::specs::Run::run_with))]
    fn run_with(self, lock: Lock, slot: Slot, n: u64) -> Outcome
        ensures { result ≡ run_with lock self slot n }
    {
        match lock {
            Lock::On(r, held) if self.figures(slot).hold(r) <= held => self.stop(slot, r),
            _ => self.pass(n),
        }
    }

    // As the definition `run_in` has it.
    #[tactic(auto, unfolding(crate::specs::Run::run_in))]
    fn run_in(self, slot: Slot, n: u64) -> Outcome
        ensures { result ≡ run_in (life_at self slot).state self slot n }
    {
        match self.life(slot).state {
            State::Ready { lock, .. } => self.run_with(lock, slot, n),
            _ => self.pass(n),
        }
    }

    #[tactic(auto, unfolding(crate::specs::Run::run_by))]
    fn run_by(self, n: u64) -> Outcome
        ensures { result ≡ run_by self (named self) n }
    {
        match self.named_slot() {
            None => self.pass(n),
            Some(slot) => self.run_in(slot, n),
        }
    }

    #[tactic(auto, using(crate::proofs::Ticks::past_end), unfolding(crate::specs::Run::runs))]
    pub fn run(self, n: u64) -> Outcome
        ensures { result ≡ runs self n }
    {
        if !self.running {
            return self.refuse(Refusal::WrongPhase);
        }
        if !(1..=u64::from(Length::LONGEST_RUN.0)).contains(&n) {
            return self.refuse(Refusal::RunOutOfRange);
        }
        let end = self.clock.plus(Length::of(n));
        if Instant::END < end {
            return self.refuse(Refusal::PastClockEnd);
        }
        self.run_by(n)
    }
}
