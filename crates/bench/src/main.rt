// The bench program: lines of calls from standard input, a line of answer for each.
#![tactic(auto)]

ghost use Rattle.std.specs.Prelude.{◌≡◌, OnOk};

use board::Board;
use input::Program;
use lines::{Line, Step};
use output::Output;
use std::io;
use std::io::{Stdout, Write};

// The longest answer's line has 49 bytes: where fewer than these are free, what waits is written before the next is made.
const ROOM: usize = 64;

// The board, the bytes held of a line that crosses a block's end, counted as `lines::next` takes them, and the answers that wait.
#[derive(Drop)]
struct Bench {
    board: Board,
    held: [u8; 256],
    count: usize,
    out: Output<Stdout, 65536>,
}

impl Bench {
    fn new(to: Stdout) -> Self {
        Bench {
            board: Board::blank(),
            held: [0; 256],
            count: 0,
            out: Output::new(to),
        }
    }

    // One line served. What is held is not touched.
    fn answer(&mut self, line: Line) -> io::Result<()>
        ensures { OnOk result ((self.new.count ≡ self.old.count) × (self.new.held ≡ self.old.held)) }
    {
        self.out.make_room(ROOM)?;
        let told = desk::serve(self.board, line);
        self.board = told.board;
        let shown = desk::show(self.board);
        // Lent to `print`, which answers how many bytes it wrote.
        let mut text = [0; ROOM];
        let n = lines::print(shown.clock, shown.named, told.number, told.value, &mut text);
        self.out.write_all(&text[..n])
    }

    // One step through the input: the line that ended there, if one did, is served.
    fn step(&mut self, step: Step) -> io::Result<()> {
        self.count = step.count;
        match step.line {
            Some(line) => self.answer(line),
            None => Ok(()),
        }
    }

    // The input's end: what is held is a last line without a line end.
    fn finish(&mut self) -> io::Result<()> {
        let step = lines::last(&self.held, self.count);
        self.step(step)?;
        self.out.flush()
    }
}

impl Program for Bench {
    // All lines that end in a block are served; what is left of it is held.
    fn take(&mut self, block: &[u8]) -> io::Result<()> {
        let mut at = 0;
        // No `for`: `lines::next` says where to go on.
        while at < block.len() {
            let step = lines::next(block, at, &mut self.held, self.count);
            at = step.next;
            self.step(step)?;
        }
        Ok(())
    }

    fn flush(&mut self) -> io::Result<()> {
        self.out.flush()
    }
}

fn main(rt: HostRuntime) -> io::Result<()> {
    let mut bench = Bench::new(rt.stdout());
    input::serve(&mut rt.reader(), &mut bench)?;
    bench.finish()
}
