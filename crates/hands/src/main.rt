// Boards made by hand, for the answers that generated lines do not reach: 14, 18 and 23. apart/src/bin/hands.rs makes the same boards.
#![tactic(auto)]

use board::Board;
use quantity::{Instant, Length};
use resources::Set;
use std::io;
use timing::{Figures, Life, Lock, State};

// The number is document 01's, as it is printed.
fn put(
    rt: &impl Print,
    clock: u64,
    named: Option<usize>,
    number: u8,
    value: u64,
) -> io::Result<()> {
    // Lent to `print`, which answers how many bytes it wrote.
    let mut text = [0; 64];
    let n = lines::print(clock, named, number, value, &mut text);
    rt.write_all(&text[..n])
}

// A line asked of a board, and its answer's line.
fn ask(rt: &impl Print, board: Board, line: &[u8]) -> io::Result<Board> {
    let told = desk::serve(board, lines::take_apart(line));
    let shown = desk::show(told.board);
    put(rt, shown.clock, shown.named, told.number, told.value)?;
    Ok(told.board)
}

// A server that uses resources 0 and 1 alone.
fn server(period: u32, budget: u32, first: u32, second: u32) -> Figures {
    let mut holds = [Length::NONE; 8];
    holds[0] = Length(first);
    holds[1] = Length(second);
    Figures {
        period: Length(period),
        budget: Length(budget),
        holds,
    }
}

// A running board with a frame of 60: slot 0 is P 10, Q 4, H(0) 2, slot 1 P 30, Q 9, H(0) 3, H(1) 1 and idle.
fn made(life: Life, clock: Instant, locked: u8, closed: u8) -> Board {
    let mut table = [Figures::NOBODY; 16];
    table[0] = server(10, 4, 2, 0);
    table[1] = server(30, 9, 3, 1);
    let mut lives = [Life::begin(); 16];
    lives[0] = life;
    Board {
        frame: Length(60),
        running: true,
        table,
        lives,
        clock,
        locked: Set(locked),
        closed: Set(closed),
    }
}

fn ready(left: u32, deadline: Instant, lock: Lock) -> Life {
    Life {
        state: State::Ready {
            started: true,
            lock,
        },
        left: Length(left),
        deadline,
    }
}

fn idle(left: u32, deadline: Instant) -> Life {
    Life {
        state: State::Idle,
        left: Length(left),
        deadline,
    }
}

// So many ticks after the clock's begin, before its end, after its end.
fn at(n: u32) -> Instant {
    Instant::BEGIN.plus(Length(n))
}

fn before_end(n: u32) -> Instant {
    Instant::END.less_portion(Length(n), Length::ONE, Length::ONE)
}

fn after_end(n: u32) -> Instant {
    Instant::END.plus(Length(n))
}

// A locked resource that nobody holds: 10 and 13 come before 14, the budget after it.
fn ask_locked(rt: &impl Print, left: u32, locked: u8, closed: u8, line: &[u8]) -> io::Result<()> {
    let life = ready(left, at(10), Lock::Free);
    ask(rt, made(life, at(3), locked, closed), line)?;
    Ok(())
}

fn ask_all_locked(rt: &impl Print) -> io::Result<()> {
    ask_locked(rt, 4, 1, 0, b"L 0 0")?;
    ask_locked(rt, 1, 1, 0, b"L 0 0")?;
    ask_locked(rt, 4, 1, 1, b"L 0 0")?;
    ask_locked(rt, 4, 3, 0, b"L 0 1")
}

// The clock's end: up to it and not past it.
fn run_to_end(rt: &impl Print) -> io::Result<()> {
    let quiet = made(Life::begin(), before_end(5), 0, 0);
    let a = ask(rt, quiet, b"R 6")?;
    let b = ask(rt, a, b"R 5")?;
    let c = ask(rt, b, b"R 1")?;
    let d = ask(rt, c, b"R 0")?;
    ask(rt, d, b"R 1000001")?;
    Ok(())
}

// A budget or a hold that would end the run earlier changes nothing of that.
fn run_short(rt: &impl Print) -> io::Result<()> {
    let life = ready(2, after_end(3), Lock::Free);
    let short = made(life, before_end(5), 0, 0);
    let a = ask(rt, short, b"R 6")?;
    ask(rt, a, b"R 5")?;
    Ok(())
}

fn run_at_hold(rt: &impl Print, clock: Instant) -> io::Result<()> {
    let life = ready(2, after_end(4), Lock::On(0, Length(2)));
    ask(rt, made(life, clock, 1, 0), b"R 1")?;
    Ok(())
}

fn arrive_at_end(rt: &impl Print, left: u32, deadline: Instant) -> io::Result<()> {
    ask(rt, made(idle(left, deadline), Instant::END, 0, 0), b"W 0")?;
    Ok(())
}

// What a buffer's bytes are before a sheet is written into it.
const BLANK: u8 = 170;

// How many bytes stand as they were.
fn kept(buffer: &[u8]) -> u64 {
    // No From from usize to u64, here and below.
    buffer.iter().filter(|byte| **byte == BLANK).count() as u64
}

// A sheet written into a blank buffer: how many of its bytes stand as they were, nobody, the answer's number and its value.
fn write(rt: &impl Print, board: Board, buffer: &mut [u8]) -> io::Result<()> {
    match sheet::write(board, buffer) {
        Ok(size) => put(rt, kept(buffer), None, 0, size as u64),
        Err(refusal) => put(rt, kept(buffer), None, u8::from(refusal), 0),
    }
}

fn write_all(rt: &impl Print) -> io::Result<()> {
    let board = made(Life::begin(), Instant::BEGIN, 0, 0);
    write(rt, board, &mut [BLANK; 0])?;
    write(rt, board, &mut [BLANK; 95])?;
    write(rt, board, &mut [BLANK; 96])?;
    write(rt, board, &mut [BLANK; 100])?;
    write(rt, Board::blank(), &mut [BLANK; 9])
}

fn main(rt: HostRuntime) -> io::Result<()> {
    ask_all_locked(&rt)?;
    run_to_end(&rt)?;
    run_short(&rt)?;
    run_at_hold(&rt, Instant::END)?;
    run_at_hold(&rt, before_end(1))?;
    arrive_at_end(&rt, 1, after_end(4))?;
    arrive_at_end(&rt, 0, Instant::END)?;
    write_all(&rt)
}
