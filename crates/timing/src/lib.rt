// One server: what was admitted stands apart from what changes, so that the table is one array and the lives another.
// What a rule is given is what its definition is given (`arrived f l now`, `woken f l now`): so no struct joins them.
#![tactic(auto)]

ghost use Rattle.std.specs.Prelude.{◌≡◌};
ghost use Rattle.timing.specs.Timing.{is_ready, is_started, is_stopped, due, present, hold, largest_hold, begun, in_state, tr, replenished, waits, arrived, lacking, asked, comes, ended, settled, woken, held_on, ran};

use quantity::{Instant, Length};

// What was admitted. A slot is in the table exactly if its period is not 0 (`present`): no mark beside it could disagree.
#[derive(Clone, Copy)]
pub struct Figures {
    pub period: Length,
    pub budget: Length,
    pub holds: [Length; 8],
}

// What a ready server holds, and for how many ticks it has run since it locked.
// As an Option it would be `Some((r, n))` for `On(r, n)`: no plainer, and `Passes` and `Undisturbed` in promise/specs name its cases.
#[derive(Clone, Copy)]
pub enum Lock {
    Free,
    On(u8, Length),
}

// The started mark and the lock are a ready server's alone: no other state can be written with one.
#[derive(Clone, Copy)]
pub enum State {
    Idle,
    Ready { started: bool, lock: Lock },
    Suspended(Instant),
    Spent,
    Stopped,
}

// What changes: the state, the budget left and the deadline.
#[derive(Clone, Copy)]
pub struct Life {
    pub state: State,
    pub left: Length,
    pub deadline: Instant,
}

// What a rule answers: done or granted, suspended until an instant, or renewed.
#[derive(Clone, Copy)]
pub enum Ruling {
    Done,
    Suspended(Instant),
    Renewed,
}

#[derive(Clone, Copy)]
pub struct Ruled {
    pub life: Life,
    pub ruling: Ruling,
}

impl Figures {
    // The slot that is not in the table.
    pub const NOBODY: Figures = Figures {
        period: Length::NONE,
        budget: Length::NONE,
        holds: [Length::NONE; 8],
    };

    pub fn is_present(self) -> bool
        ensures { result ≡ present self }
    {
        self.period != Length::NONE
    }

    #[tactic(auto, unfolding(crate::specs::Timing::hold))]
    pub fn hold(self, r: u8) -> Length
        ensures { result ≡ hold self r }
    {
        self.holds
            .get(usize::from(r))
            .copied()
            .unwrap_or(Length::NONE)
    }

    // A loop: `max` of the iterator takes nearly twice as long.
    #[tactic(auto, using(quantity::proofs::Largest::max_larger, crate::specs::Timing::Text::largest_hold_is), unfolding(terms::specs::Words::largest, quantity::specs::Quantity::larger))]
    pub fn largest_hold(self) -> Length
        ensures { result ≡ largest_hold self }
    {
        let mut most = Length::NONE;
        for r in 0..8 {
            most = most.max(self.hold(r));
        }
        most
    }

    #[tactic(auto, using(crate::specs::Timing::Text::replenished_is))]
    pub fn replenish(self, from: Instant) -> Life
        ensures { result ≡ replenished self from }
    {
        Life {
            state: State::Ready {
                started: false,
                lock: Lock::Free,
            },
            left: self.budget,
            deadline: from.plus(self.period),
        }
    }
}

impl Lock {
    // One tick more with the lock, if there is one.
    fn tick(self) -> Lock
        ensures { result ≡ held_on self }
    {
        match self {
            Lock::Free => self,
            Lock::On(r, n) => Lock::On(r, n.plus(Length::ONE)),
        }
    }
}

impl State {
    pub fn is_ready(self) -> bool
        ensures { result ≡ is_ready self }
    {
        matches!(self, State::Ready { .. })
    }

    // Ready and started.
    pub fn is_started(self) -> bool
        ensures { result ≡ is_started self }
    {
        matches!(self, State::Ready { started: true, .. })
    }

    pub fn is_stopped(self) -> bool
        ensures { result ≡ is_stopped self }
    {
        matches!(self, State::Stopped)
    }
}

impl Life {
    // A server's life at start.
    pub fn begin() -> Life
        ensures { result ≡ begun }
    {
        Life {
            state: State::Idle,
            left: Length::NONE,
            deadline: Instant::BEGIN,
        }
    }

    // The same budget and deadline in another state.
    pub fn in_state(self, to: State) -> Life
        ensures { result ≡ in_state self to }
    {
        Life { state: to, ..self }
    }

    // The replenishment instant.
    #[tactic(auto, using(quantity::proofs::Laws::less_portion_is, crate::specs::Timing::Text::tr_is))]
    pub fn tr(self, f: Figures) -> Instant
        ensures { result ≡ tr f self }
    {
        self.deadline.less_portion(f.period, self.left, f.budget)
    }

    // Suspended until t, and said so.
    fn wait_until(self, t: Instant) -> Ruled
        ensures { result ≡ waits self t }
    {
        Ruled {
            life: self.in_state(State::Suspended(t)),
            ruling: Ruling::Suspended(t),
        }
    }

    // An idle server arrives.
    #[tactic(auto, using(crate::specs::Timing::Text::arrived_is))]
    pub fn arrive(self, f: Figures, now: Instant) -> Ruled
        ensures { result ≡ arrived f self now }
    {
        let tr = self.tr(f);
        if now < tr {
            return self.wait_until(tr);
        }
        Ruled {
            life: f.replenish(now),
            ruling: Ruling::Done,
        }
    }

    // A lock is asked for with too little left.
    #[tactic(auto, unfolding(crate::specs::Timing::lacking))]
    fn lack(self, f: Figures, now: Instant) -> Ruled
        ensures { result ≡ lacking f self now }
    {
        let tr = self.tr(f);
        if now < tr {
            return self.wait_until(tr);
        }
        Ruled {
            life: f.replenish(tr),
            ruling: Ruling::Renewed,
        }
    }

    // A ready server asks for resource r, which it may have but for its budget.
    #[tactic(auto, using(crate::specs::Timing::Text::asked_is))]
    pub fn lock(self, f: Figures, r: u8, now: Instant) -> Ruled
        ensures { result ≡ asked f self r now }
    {
        if self.left < f.largest_hold() {
            return self.lack(f, now);
        }
        Ruled {
            life: self.in_state(State::Ready {
                started: true,
                lock: Lock::On(r, Length::NONE),
            }),
            ruling: Ruling::Done,
        }
    }

    // A server that waits for t is replenished from t once now reaches it.
    #[tactic(auto, unfolding(crate::specs::Timing::comes))]
    fn come(self, f: Figures, t: Instant, now: Instant) -> Life
        ensures { result ≡ comes f self t now }
    {
        if now < t { self } else { f.replenish(t) }
    }

    // A ready server without a lock: spent if nothing is left.
    #[tactic(auto, unfolding(crate::specs::Timing::ended))]
    fn end(self, f: Figures, now: Instant) -> Life
        ensures { result ≡ ended f self now }
    {
        if self.left != Length::NONE {
            return self;
        }
        self.in_state(State::Spent).come(f, self.deadline, now)
    }

    // The spent rule, after a tick or an unlock.
    #[tactic(auto, using(crate::specs::Timing::Text::settled_is))]
    pub fn settle(self, f: Figures, now: Instant) -> Life
        ensures { result ≡ settled f self now }
    {
        match self.state {
            State::Ready {
                lock: Lock::Free,
                ..
            } => self.end(f, now),
            _ => self,
        }
    }

    // Whether the instant that it waits for has come.
    #[tactic(auto, unfolding(crate::specs::Timing::due))]
    pub fn is_due(self, now: Instant) -> bool
        ensures { result ≡ due self now }
    {
        match self.state {
            State::Suspended(t) => t <= now,
            State::Spent => self.deadline <= now,
            _ => false,
        }
    }

    // The server is replenished if its instant has come.
    #[tactic(auto, using(crate::specs::Timing::Text::woken_is))]
    pub fn wake(self, f: Figures, now: Instant) -> Life
        ensures { result ≡ woken f self now }
    {
        match self.state {
            State::Suspended(t) => self.come(f, t, now),
            State::Spent => self.come(f, self.deadline, now),
            _ => self,
        }
    }

    // One tick of the server that runs.
    #[tactic(auto, using(crate::specs::Timing::Text::ran_is))]
    pub fn tick(self) -> Life
        ensures { result ≡ ran self }
    {
        match self.state {
            State::Ready { lock, .. } => Life {
                state: State::Ready {
                    started: true,
                    lock: lock.tick(),
                },
                left: self.left.less(Length::ONE),
                ..self
            },
            _ => self,
        }
    }
}
