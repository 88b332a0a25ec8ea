// The sheets program: each line of standard input a sheet in lower-case hex; its answer and value, and an accepted sheet written back.
#![tactic(auto)]

ghost use Rattle.std.specs.Prelude.{◌≡◌, []};

use arrayvec::ArrayVec;
use input::Program;
use output::Output;
use std::io;
use std::io::{ErrorKind, Stdout, Write};

// What a line has been so far: bytes in hex, perhaps with the first digit of one more, or no sheet in hex.
#[derive(Clone, Copy)]
enum Seen {
    Bytes,
    Digit(u8),
    NoHex,
}

// A line's bytes. The longest sheet has 698.
#[derive(Drop)]
struct Line {
    bytes: ArrayVec<u8, 8192>,
    seen: Seen,
}

// The longest answer's line has 1,401 bytes: where fewer than these are free, what waits is written before the next is made.
const ROOM: usize = 2048;

// An answer's line.
type Text = ArrayVec<u8, ROOM>;

// By a table: `{:02x}` takes three times as long for a sheet.
const DIGITS: [u8; 16] = *b"0123456789abcdef";

// Lower case alone: `to_digit` takes upper case too.
fn digit(byte: u8) -> Option<u8> {
    match byte {
        b'0'..=b'9' => Some(byte - b'0'),
        b'a'..=b'f' => Some(byte - b'a' + 10),
        _ => None,
    }
}

impl Line {
    fn new() -> Self {
        Line {
            bytes: ArrayVec::new(),
            seen: Seen::Bytes,
        }
    }

    // A byte of a line that goes on.
    fn put(&mut self, byte: u8) {
        self.seen = match (self.seen, digit(byte)) {
            (Seen::Bytes, Some(high)) => Seen::Digit(high),
            (Seen::Digit(high), Some(low)) => match self.bytes.try_push((high << 4) | low) {
                Ok(()) => Seen::Bytes,
                Err(_) => Seen::NoHex,
            },
            _ => Seen::NoHex,
        };
    }

    // The sheet, where the line is one in hex.
    fn sheet(&self) -> Option<&[u8]> {
        match self.seen {
            Seen::Bytes => Some(self.bytes.as_slice()),
            _ => None,
        }
    }

    fn is_empty(&self) -> bool {
        matches!(self.seen, Seen::Bytes) && self.bytes.is_empty()
    }

    fn clear(&mut self) {
        self.bytes.clear();
        self.seen = Seen::Bytes;
    }
}

// Bytes behind a text. They fit: no answer is longer than its room. By `write_all` a few bytes take longer.
fn put(bytes: &[u8], text: &mut Text) -> io::Result<()> {
    text.try_extend_from_slice(bytes)
        .map_err(|_| ErrorKind::WriteZero)?;
    Ok(())
}

// What is written for a sheet, into an empty text: an accepted one is written back, by way of a lent buffer.
fn answer(bytes: &[u8], text: &mut Text, back: &mut [u8]) -> io::Result<()>
    requires { text.old.items ≡ [] }
{
    match sheet::read(bytes) {
        Ok(board) => {
            // Never an error: an accepted sheet's board has a frame, and no sheet is longer than 698 bytes.
            let size = sheet::write(board, back).unwrap_or(0);
            put(b"0 0 ", text)?;
            put_hex(back, size, text)
        }
        Err(bad) => write!(text, "{} {}", u8::from(bad.refusal), bad.offset),
    }
}

// The first bytes of a buffer, in hex.
fn put_hex(back: &[u8], size: usize, text: &mut Text) -> io::Result<()> {
    for byte in back.iter().take(size) {
        let digits = [
            DIGITS[usize::from(byte >> 4)],
            DIGITS[usize::from(byte & 15)],
        ];
        put(&digits, text)?;
    }
    Ok(())
}

// The line as far as it has been read, the text of its answer, a sheet written back, and the answers that wait.
#[derive(Drop)]
struct Sheets {
    line: Line,
    text: Text,
    back: [u8; 1024],
    out: Output<Stdout, 65536>,
}

impl Sheets {
    fn new(to: Stdout) -> Self {
        Sheets {
            line: Line::new(),
            text: Text::new(),
            back: [0; 1024],
            out: Output::new(to),
        }
    }

    // "-" for a line that is no sheet in hex. The answer's line is handed on whole, so that no system write ends inside it.
    fn end_line(&mut self) -> io::Result<()> {
        self.out.make_room(ROOM)?;
        let Some(bytes) = self.line.sheet() else {
            self.line.clear();
            return self.out.write_all(b"-\n");
        };
        // The text of the line before.
        self.text.clear();
        answer(bytes, &mut self.text, &mut self.back)?;
        put(b"\n", &mut self.text)?;
        self.line.clear();
        self.out.write_all(self.text.as_slice())
    }

    fn feed(&mut self, byte: u8) -> io::Result<()> {
        if byte == b'\n' {
            return self.end_line();
        }
        self.line.put(byte);
        Ok(())
    }

    // The input's end: a last line without a line end counts as a line.
    fn finish(&mut self) -> io::Result<()> {
        if !self.line.is_empty() {
            self.end_line()?;
        }
        self.out.flush()
    }
}

impl Program for Sheets {
    fn take(&mut self, block: &[u8]) -> io::Result<()> {
        for byte in block {
            self.feed(*byte)?;
        }
        Ok(())
    }

    fn flush(&mut self) -> io::Result<()> {
        self.out.flush()
    }
}

fn main(rt: HostRuntime) -> io::Result<()> {
    let mut sheets = Sheets::new(rt.stdout());
    input::serve(&mut rt.reader(), &mut sheets)?;
    sheets.finish()
}
