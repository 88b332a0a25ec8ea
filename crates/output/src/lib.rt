// What the programs write: bytes wait in a buffer of fixed size, and are written together. std's `BufWriter` has its buffer on the heap.
#![tactic(auto)]

ghost use Rattle.std.specs.Prelude.{◌≡◌, ◌+◌, ◌-◌, ◌<◌, ◌≤◌, [], ◌++◌, length, take, min, None, IfOk, OnOk, OnErr};
ghost use Rattle.std.specs.Io.{WritesAtMost};
ghost use Rattle.std.specs.Io.KnownBytes.{WriteAppends, Keeps, Appends};
ghost use Rattle.output.specs.Output.{waiting, kept};

use arrayvec::ArrayVec;
use std::io;
use std::io::Write;
use std::marker::Model;

/// A printer behind a buffer of `N` bytes.
#[derive(Drop)]
pub struct Output<P: Print, const N: usize> {
    to: P,
    bytes: ArrayVec<u8, N>,
}

// Clauses see the bytes that wait.
impl<P: Print, const N: usize> Model for Output<P, N> {
    ghost use Rattle.std.specs.Prelude.{ℕ, List};

    ghost Value = { List ℕ };

    ghost view = { λ o. o.bytes.items };
}

impl<P: Print, const N: usize> Output<P, N> {
    pub fn new(to: P) -> Self
        ensures { result ≡ [] }
    {
        Output {
            to,
            bytes: ArrayVec::new(),
        }
    }

    // Room for so many bytes more: where it is not there, what waits is written first. An error is that of the write alone.
    #[tactic(auto, unfolding(crate::specs::Output::waiting))]
    pub fn make_room(&mut self, room: usize) -> io::Result<()>
        ensures ok { OnOk result (self.new ≡ kept N self.old room) }
        ensures err { OnErr result (self.new ≡ self.old) }
        ensures full { OnErr result (N < length self.old + room) }
        ensures within { length self.old ≤ N }
    {
        if self.bytes.remaining_capacity() < room {
            return self.flush();
        }
        Ok(())
    }
}

impl<P: Print, const N: usize> Write for Output<P, N> {
    // Room is made for all of the bytes, and as many wait as the buffer takes. An error is that of the write alone.
    fn write(&mut self, buf: &[u8]) -> io::Result<usize>
        ensures bound { WritesAtMost result buf.now }
        ensures bytes { WriteAppends None None result buf.now }
        ensures count { IfOk result (λ n. n ≡ min (length buf.now) (N - length (kept N self.old (length buf.now)))) }
        ensures ok { IfOk result (λ n. self.new ≡ kept N self.old (length buf.now) ++ take n buf.now) }
        ensures err { OnErr result (self.new ≡ self.old) }
        ensures full { OnErr result (N < length self.old + length buf.now) }
        ensures within { (length self.old ≤ N) × (length self.new ≤ N) }
    {
        self.make_room(buf.len())?;
        self.bytes.write(buf)
    }

    // More bytes than the buffer takes are written behind what waits, and nothing waits then.
    // What was interrupted is not tried again, as std's own would: a part of what waits may have been written.
    fn write_all(&mut self, buf: &[u8]) -> io::Result<()>
        ensures bytes { OnOk result (Appends None None buf.now) }
        ensures whole { OnOk result (length buf.now ≤ N → self.new ≡ kept N self.old (length buf.now) ++ buf.now) }
        ensures beyond { OnOk result (N < length buf.now → self.new ≡ []) }
        ensures err { OnErr result (length buf.now ≤ N → self.new ≡ self.old) }
        ensures full { OnErr result (N < length self.old + length buf.now) }
    {
        if N < buf.len() {
            self.flush()?;
            return self.to.write_all(buf);
        }
        self.write(buf)?;
        Ok(())
    }

    // What waits is written, and nothing waits then.
    fn flush(&mut self) -> io::Result<()>
        ensures bytes { Keeps None None }
        ensures ok { OnOk result (self.new ≡ []) }
        ensures err { OnErr result (self.new ≡ self.old) }
        ensures within { length self.old ≤ N }
    {
        self.to.write_all(self.bytes.as_slice())?;
        self.bytes.clear();
        Ok(())
    }
}
