//! A source over std's reader and a sink over std's writer. They tell no content.

ghost use Rattle.std.specs.Prelude.{◌≡◌, ◌≤◌, None};
ghost use Rattle.user_io.specs.Outside.{IsTaken, IsPut, CountsRead, CountsWrite, faults_after_read, faults_after_write};

use super::traits::{Put, Sink, Source, Took};
use std::io::{ErrorKind, Read, Write};
use std::marker::Model;

/// How often an interrupted call is made before it counts as a fault.
const TRIES: u32 = 1001;

/// Reads from std's reader (Rust, std::io::Read). An interrupted call is made again, at most 1,000
/// times; any other error, and the last interruption, is a fault. Contracts see its count of faults.
#[derive(Drop)]
pub struct StdSource<R: Read> {
    reader: R,
    faults: u64,
}

impl<R: Read> Model for StdSource<R> {
    ghost use Rattle.user_io.specs.Standard.{Adapted};

    ghost Value = { Adapted };

    ghost view = { λ s. record { known = R.remaining s.reader; faults = s.faults } };
}

impl<R: Read> StdSource<R> {
    /// A source that hasn't failed yet.
    pub fn new(reader: R) -> StdSource<R>
        ensures { result ≡ record { known = R.remaining reader; faults = 0 } }
    {
        StdSource { reader, faults: 0 }
    }
}

impl<R: Read> Source for StdSource<R> {
    ghost left = { λ _. None };

    ghost faults = { λ s. s.faults };

    /// Beside what a source promises: only `Failed` is counted, and the same holds of what std's
    /// reader has left, where that is known.
    fn read(&mut self, buf: &mut [u8]) -> Took
        ensures taken { IsTaken None None self.old.faults self.new.faults buf.new result }
        ensures count { CountsRead self.old.faults self.new.faults result }
        ensures counted { self.new.faults ≡ faults_after_read self.old.faults result }
        ensures content { IsTaken self.old.known self.new.known self.old.faults self.new.faults buf.new result }
    {
        if buf.is_empty() {
            return Took::Took(0);
        }
        for _ in 0..TRIES {
            match self.reader.read(buf) {
                Ok(0) => return Took::End,
                Ok(count) => return Took::Took(count),
                Err(error) => {
                    if error.kind() != ErrorKind::Interrupted {
                        break;
                    }
                }
            }
        }
        self.faults = self.faults.saturating_add(1);
        Took::Failed
    }
}

/// Writes to std's writer (Rust, std::io::Write). An interrupted call is made again, at most 1,000
/// times; any other error, the last interruption, and a write of no bytes of a piece that has some,
/// is a fault. Contracts see its count of faults.
#[derive(Drop)]
pub struct StdSink<W: Write> {
    writer: W,
    faults: u64,
}

impl<W: Write> Model for StdSink<W> {
    ghost use Rattle.user_io.specs.Standard.{Adapted};

    ghost Value = { Adapted };

    ghost view = { λ s. record { known = W.contents s.writer; faults = s.faults } };
}

impl<W: Write> StdSink<W> {
    /// A sink that hasn't failed yet.
    pub fn new(writer: W) -> StdSink<W>
        ensures { result ≡ record { known = W.contents writer; faults = 0 } }
    {
        StdSink { writer, faults: 0 }
    }
}

impl<W: Write> Sink for StdSink<W> {
    ghost holds = { λ _. None };

    ghost faults = { λ s. s.faults };

    /// Beside what a sink promises: only `Failed` is counted, and the same holds of what std's
    /// writer holds, where that is known.
    fn write(&mut self, buf: &[u8]) -> Put
        ensures put { IsPut None None self.old.faults self.new.faults buf.now result }
        ensures count { CountsWrite self.old.faults self.new.faults result }
        ensures counted { self.new.faults ≡ faults_after_write self.old.faults result }
        ensures content { IsPut self.old.known self.new.known self.old.faults self.new.faults buf.now result }
    {
        if buf.is_empty() {
            return Put::Put(0);
        }
        for _ in 0..TRIES {
            match self.writer.write(buf) {
                Ok(0) => break,
                Ok(count) => return Put::Put(count),
                Err(error) => {
                    if error.kind() != ErrorKind::Interrupted {
                        break;
                    }
                }
            }
        }
        self.faults = self.faults.saturating_add(1);
        Put::Failed
    }
}
