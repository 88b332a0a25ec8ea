// The bench program's answers: the call that a line asks for, made on a board, and what is shown of the board after it.
#![tactic(auto)]

ghost use Rattle.std.specs.Prelude.{◌≡◌};
ghost use Rattle.desk.specs.Desk.{called, told, served, shown};

use board::{Answer, Board, Outcome};
use lines::{Call, Line};
use refusals::Refusal;

// The next board, and the answer's number, as document 01 numbers it and the program prints it, and value.
#[derive(Clone, Copy)]
pub struct Told {
    pub board: Board,
    pub number: u8,
    pub value: u64,
}

// The clock and the named slot.
#[derive(Clone, Copy)]
pub struct Shown {
    pub clock: u64,
    pub named: Option<usize>,
}

// A case of `Call` is a call with its numbers: a match is plainer than a table of functions of one, two or no arguments.
#[tactic(auto, unfolding(crate::specs::Desk::called))]
fn make(board: Board, call: Call, holds: [u64; 8]) -> Outcome
    ensures { result ≡ called board call holds }
{
    match call {
        Call::Open(frame) => board.open(frame),
        Call::Admit(period, budget) => board.admit(period, budget, holds),
        Call::Start => board.start(),
        Call::Arrive(slot) => board.arrive(slot),
        Call::Done(slot) => board.done(slot),
        Call::Lock(slot, resource) => board.lock(slot, resource),
        Call::Unlock(slot) => board.unlock(slot),
        Call::Run(ticks) => board.run(ticks),
        Call::Malformed => Outcome {
            board,
            answer: Answer::Refused(Refusal::NotWellFormed),
        },
    }
}

impl From<Outcome> for Told {
    ghost from_gives = { λ outcome t. t ≡ told outcome };

    #[tactic(auto, unfolding(crate::specs::Desk::told))]
    fn from(outcome: Outcome) -> Told {
        Told {
            board: outcome.board,
            number: outcome.answer.number(),
            value: outcome.answer.value(),
        }
    }
}

// A line that was taken apart, served on a board.
#[tactic(auto, unfolding(crate::specs::Desk::served))]
pub fn serve(board: Board, line: Line) -> Told
    ensures { result ≡ served board line }
{
    Told::from(make(board, line.call, line.holds))
}

// What an answer's line begins with.
#[tactic(auto, unfolding(crate::specs::Desk::shown))]
pub fn show(board: Board) -> Shown
    ensures { result ≡ shown board }
{
    if !board.running {
        return Shown {
            clock: 0,
            named: None,
        };
    }
    Shown {
        clock: u64::from(board.clock),
        named: board.named(),
    }
}
