// Commissioning: opening a board, admitting servers, starting.
ghost use Rattle.std.specs.Prelude.{◌≡◌};
ghost use Rattle.board.specs.Calls.{fresh, blank, opened, commissioning, vacancy, with_table, admitted_as, admitted_in, admitted, started};

use crate::{Answer, Board, Outcome, Slot};
use quantity::{Instant, Length};
use refusals::Refusal;
use resources::Set;
use timing::{Figures, Life};

// The lowest slot that is not in the table.
fn vacancy(table: [Figures; 16]) -> Option<Slot>
    ensures { result ≡ vacancy table }
{
    table.iter().position(|f| !f.is_present()).map(Slot::new)
}

impl Board {
    // A board with a frame and nothing else.
    #[tactic(auto, unfolding(crate::specs::Calls::fresh, terms::specs::Words::list))]
    fn fresh(frame: Length) -> Board
        ensures { result ≡ fresh frame }
    {
        Board {
            frame,
            running: false,
            table: [Figures::NOBODY; 16],
            lives: [Life::begin(); 16],
            clock: Instant::BEGIN,
            locked: Set::EMPTY,
            closed: Set::EMPTY,
        }
    }

    // The board to begin with: no frame yet.
    pub fn blank() -> Board
        ensures { result ≡ blank }
    {
        Board::fresh(Length::NONE)
    }

    // Opening with a frame is allowed at any time and begins afresh.
    #[tactic(auto, unfolding(crate::specs::Calls::opened))]
    pub fn open(self, frame: u64) -> Outcome
        ensures { result ≡ opened self frame }
    {
        if !(1..=u64::from(Length::LARGEST_FRAME.0)).contains(&frame) {
            return self.refuse(Refusal::FrameOutOfRange);
        }
        Outcome {
            board: Board::fresh(Length::of(frame)),
            answer: Answer::Done(0),
        }
    }

    // In commissioning, with a frame.
    #[tactic(auto, unfolding(crate::specs::Calls::commissioning))]
    fn is_commissioning(self) -> bool
        ensures { result ≡ commissioning self }
    {
        !self.running && self.frame != Length::NONE
    }

    // The board with another table.
    fn with_table(self, table: [Figures; 16]) -> Board
        ensures { result ≡ with_table self table }
    {
        Board { table, ..self }
    }

    // The board with the newcomer, if it was admitted.
    #[tactic(auto, unfolding(crate::specs::Calls::admitted_as))]
    fn admit_as(self, slot: Slot, judged: Result<Figures, Refusal>) -> Outcome
        ensures { result ≡ admitted_as self slot judged }
    {
        match judged {
            Ok(figures) => Outcome {
                board: self.with_table(admission::place(self.table, slot.index(), figures)),
                // There is no From between usize and u64.
                answer: Answer::Done(slot.index() as u64),
            },
            Err(why) => self.refuse(why),
        }
    }

    // Figures are as wide as they come, and judged before they are kept.
    #[tactic(auto, unfolding(crate::specs::Calls::admitted, crate::specs::Calls::admitted_in))]
    pub fn admit(self, period: u64, budget: u64, holds: [u64; 8]) -> Outcome
        ensures { result ≡ admitted self period budget holds }
    {
        if !self.is_commissioning() {
            return self.refuse(Refusal::WrongPhase);
        }
        match vacancy(self.table) {
            None => self.refuse(Refusal::TableFull),
            Some(slot) => {
                let judged = admission::judge(
                    self.table,
                    slot.index(),
                    self.frame,
                    period,
                    budget,
                    holds,
                );
                self.admit_as(slot, judged)
            }
        }
    }

    // All servers begin idle, at clock 0.
    #[tactic(auto, unfolding(crate::specs::Calls::fresh, crate::specs::Calls::started))]
    pub fn start(self) -> Outcome
        ensures { result ≡ started self }
    {
        if !self.is_commissioning() {
            return self.refuse(Refusal::WrongPhase);
        }
        let table = self.table;
        Outcome {
            board: Board {
                running: true,
                table,
                ..Board::fresh(self.frame)
            },
            answer: Answer::Done(0),
        }
    }
}
