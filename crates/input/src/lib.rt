// The programs' input: read a block at a time and handed on, up to its end.
#![tactic(auto)]

ghost use Rattle.std.specs.Prelude.{List, ℕ, Option, None, OnOk};
ghost use Rattle.std.specs.Io.KnownBytes.{Appends, Consumes, IsAtEnd};

use std::io;
use std::io::{ErrorKind, Read};

/// What input is handed to. Unlike a `Write`, it may have taken a part of a block where it fails.
pub trait Program {
    // The bytes that it has taken, where they are known.
    ghost taken: { Self → Option (List ℕ) } = { λ _. None };

    fn take(&mut self, block: &[u8]) -> io::Result<()>
        ensures { OnOk result (Appends (taken self.old) (taken self.new) block.now) };

    // What waits is written.
    fn flush(&mut self) -> io::Result<()>;
}

// All that is read is handed on. Where it cannot be read, what waits in the program is written before the error goes on:
// `io::copy` does not tell a read's error from a write's.
pub fn serve<R: Read, P: Program>(input: &mut R, program: &mut P) -> io::Result<()>
    ensures moved { OnOk result ((bs : List ℕ) × Consumes (R.remaining input.old) (R.remaining input.new) bs
        × Appends (P.taken program.old) (P.taken program.new) bs) }
    ensures end { OnOk result (IsAtEnd (R.remaining input.new)) }
{
    let mut block = [0; 65536];
    // A proved loop has to end, and nothing says that the input does: no run uses so many turns up.
    for _ in 0..u64::MAX {
        match input.read(&mut block) {
            Ok(0) => return Ok(()),
            Ok(n) => program.take(&block[..n])?,
            Err(error) => {
                program.flush()?;
                return Err(error);
            }
        }
    }
    program.flush()?;
    Err(ErrorKind::TimedOut.into())
}
