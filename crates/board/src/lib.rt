// The board: one processor, up to 16 servers, 8 shared resources and a clock in whole ticks.
#![tactic(auto)]

ghost use Rattle.std.specs.Prelude.{◌≡◌, ◌<◌, ltb};
ghost use Rattle.std.specs.Ordering.{is_lt};
ghost use Rattle.terms.specs.Words.{pick};
ghost use Rattle.board.specs.Board.{number_of, value_of, lesser, figures_at, life_at, with_life, with_sets};
ghost use Rattle.board.specs.Calls.{refuse};

mod calls;
mod name;
mod run;
mod serve;

use quantity::{Instant, Length};
use refusals::Refusal;
use resources::Set;
use std::marker::Model;
use timing::{Figures, Life};

#[derive(Clone, Copy)]
pub struct Board {
    // 0 where no frame is set yet (`commissioning`), as a period of 0 is no server: no mark beside it could disagree.
    pub frame: Length,
    // The phase itself, which theorems name (`answers_all`), not a flag for another value.
    pub running: bool,
    // Two arrays: admission and the sheet go by the table alone, and what was admitted never changes with a life.
    pub table: [Figures; 16],
    pub lives: [Life; 16],
    pub clock: Instant,
    pub locked: Set,
    pub closed: Set,
}

// What a call answers; `number` and `value` give document 01's numbers.
#[derive(Clone, Copy)]
pub enum Answer {
    Done(u64),
    Refused(Refusal),
    Suspended(Instant),
    Renewed,
    Overheld,
}

#[derive(Clone, Copy)]
pub struct Outcome {
    pub board: Board,
    pub answer: Answer,
}

// The best of the slots looked at so far, with its deadline.
#[derive(Clone, Copy)]
pub struct Best {
    // A number: with a Slot here the check does not cover the loop of `first`.
    slot: usize,
    deadline: Instant,
}

// Why a run ends: all its ticks have passed, a server was spent or replenished, a held count reached its hold.
#[derive(Clone, Copy)]
pub enum Reason {
    Whole,
    Changed,
    Reached,
}

// One tick, as the definition `ticked` says it: the board after it, and whether it ends a run.
#[derive(Clone, Copy)]
pub struct Ticked {
    pub board: Board,
    pub reason: Reason,
}

// A run: the board after it, the ticks that passed, and why it ended.
#[derive(Clone, Copy)]
pub struct Ran {
    pub board: Board,
    pub ticks: u64,
    pub reason: Reason,
}

// The lesser of two, where what is absent is the greatest.
fn lesser<T: Ord + Copy>(a: Option<T>, b: Option<T>) -> Option<T>
    ensures { result ≡ lesser (λ x y. is_lt (T.cmp x y)) a b }
{
    match (a, b) {
        (Some(x), Some(y)) => Some(x.min(y)),
        _ => a.or(b),
    }
}

impl Answer {
    pub fn number(self) -> u8
        ensures { result ≡ number_of self }
    {
        match self {
            Answer::Done(_) => 0,
            Answer::Refused(why) => u8::from(why),
            Answer::Suspended(_) => 20,
            Answer::Renewed => 21,
            Answer::Overheld => 22,
        }
    }

    // Where an answer says no more, document 01 gives it the value 0.
    pub fn value(self) -> u64
        ensures { result ≡ value_of self }
    {
        match self {
            Answer::Done(v) => v,
            Answer::Suspended(t) => u64::from(t),
            Answer::Refused(_) | Answer::Renewed | Answer::Overheld => 0,
        }
    }
}

// A slot of the table; a clause sees its number.
#[derive(Clone, Copy)]
struct Slot {
    index: usize,
}

impl Model for Slot {
    ghost use Rattle.std.specs.Prelude.{ℕ, ◌<◌};

    ghost Value = { ℕ };

    ghost view = { λ s. s.index };

    ghost invariant = { λ s. s.index < 16 };

    ghost inverse = { λ i. record { index = i } };
}

impl Slot {
    fn new(index: usize) -> Slot
        requires { index < 16 }
        ensures { result ≡ index }
    {
        Slot { index }
    }

    // The slot with that number, if there is one.
    fn of(number: u64) -> Option<Slot>
        ensures { result ≡ pick (ltb number 16) (Some number) None }
    {
        match usize::try_from(number) {
            Ok(index) if index < 16 => Some(Slot::new(index)),
            _ => None,
        }
    }

    // The bound is said once more, for the public `named`, whose callers see no Slot.
    fn index(self) -> usize
        ensures is { result ≡ self }
        ensures low { result < 16 }
    {
        self.index
    }
}

impl Board {
    // The board as it is, and the rule that was broken.
    fn refuse(self, why: Refusal) -> Outcome
        ensures { result ≡ refuse self why }
    {
        Outcome {
            board: self,
            answer: Answer::Refused(why),
        }
    }

    // What was admitted to a slot.
    fn figures(self, slot: Slot) -> Figures
        ensures { result ≡ figures_at self slot }
    {
        self.table[slot.index()]
    }

    fn life(self, slot: Slot) -> Life
        ensures { result ≡ life_at self slot }
    {
        self.lives[slot.index()]
    }

    // The board with another life in a slot.
    #[tactic(auto, unfolding(crate::specs::Board::with_life))]
    fn with_life(mut self, slot: Slot, life: Life) -> Board
        ensures { result ≡ with_life self slot life }
    {
        self.lives[slot.index()] = life;
        self
    }

    // The board with another life in a slot and other sets.
    #[tactic(auto, unfolding(crate::specs::Board::with_sets, crate::specs::Board::with_life))]
    fn with_sets(self, slot: Slot, life: Life, locked: Set, closed: Set) -> Board
        ensures { result ≡ with_sets self slot life locked closed }
    {
        Board {
            locked,
            closed,
            ..self.with_life(slot, life)
        }
    }
}
