//! Each public call with ample memory, and the calls of std that no contract tells of.

use std::alloc::{AllocError, Global};
use std::io::{self, Error, ErrorKind, Read, Write};
use std::test::Fail;
use user_io::text::{put_number, put_operand, put_signed, put_text};
use user_io::*;

/// Fails so many times with one kind of error, and then reads or takes as its inner one does.
#[derive(Drop)]
struct Faulty<T: Drop> {
    inner: T,
    errors: u32,
    kind: ErrorKind,
}

impl<T: Drop> Faulty<T> {
    fn strike(&mut self) -> io::Result<()> {
        if self.errors == 0 {
            return Ok(());
        }
        self.errors -= 1;
        Err(Error::from(self.kind))
    }
}

impl Read for Faulty<&[u8]> {
    fn read(&mut self, buf: &mut [u8]) -> io::Result<usize> {
        self.strike()?;
        self.inner.read(buf)
    }
}

impl Write for Faulty<&mut Vec<u8>> {
    fn write(&mut self, buf: &[u8]) -> io::Result<usize> {
        self.strike()?;
        self.inner.write(buf)
    }

    fn flush(&mut self) -> io::Result<()> {
        Ok(())
    }
}

/// A writer that takes nothing.
#[derive(Drop)]
struct Closed;

impl Write for Closed {
    fn write(&mut self, _buf: &[u8]) -> io::Result<usize> {
        Ok(0)
    }

    fn flush(&mut self) -> io::Result<()> {
        Ok(())
    }
}

/// A source of a text, in pieces of at least one byte.
fn source(alloc: Global, text: &[u8], piece: usize, fail: &[u64]) -> Result<MemSource, AllocError> {
    Ok(MemSource::new(
        Vec::from_slice(alloc, text)?,
        piece.max(1),
        Vec::from_slice(alloc, fail)?,
    ))
}

/// A text that was read, or none.
type Text = Result<Vec<u8>, ReadEnd>;

/// The same, to compare.
fn told(text: &Text) -> Result<&[u8], ReadEnd> {
    match text {
        Ok(text) => Ok(text.as_slice()),
        Err(end) => Err(*end),
    }
}

/// Reads with a limit, and then the rest.
fn read_twice(alloc: Global, source: &mut MemSource, limit: usize) -> (Text, Text) {
    let first = read_all(alloc, source, limit);
    let rest = read_all(alloc, source, 100);
    (first, rest)
}

/// Reads from std's reader after so many errors, and then into no room.
fn read_faulty(alloc: Global, errors: u32, kind: ErrorKind) -> (Text, Took) {
    let inner: &[u8] = b"abcde";
    let mut source = StdSource::new(Faulty {
        inner,
        errors,
        kind,
    });
    let text = read_all(alloc, &mut source, 100);
    let took = source.read(&mut []);
    (text, took)
}

/// Writes to std's writer after so many errors, and gives what was written too.
fn write_faulty(alloc: Global, errors: u32, kind: ErrorKind) -> (Result<(), WriteFailed>, Vec<u8>) {
    let mut written = Vec::new(alloc);
    let mut sink = StdSink::new(Faulty {
        inner: &mut written,
        errors,
        kind,
    });
    let done = write_all(&mut sink, b"abcde");
    (done, written)
}

/// A text of one piece of each form.
fn line(alloc: Global) -> Result<Vec<u8>, AllocError> {
    let mut out = Vec::new(alloc);
    put_text(&mut out, b"a")?;
    put_number(&mut out, 0)?;
    put_operand(&mut out, 18446744073709551615)?;
    put_signed(&mut out, -12)?;
    Ok(out)
}

#[test]
fn source_gives_pieces_and_fails_where_listed(rt: HostRuntime) -> Result<(), Fail> {
    let mut source = source(rt.alloc(), b"abcde", 2, &[1, 3])?;
    let mut buf = [0u8; 4];
    for (want, first) in [
        (Took::Took(2), b'a'),
        (Took::Failed, b'a'),
        (Took::Took(2), b'c'),
        (Took::Failed, b'c'),
        (Took::Took(1), b'e'),
        (Took::End, b'e'),
    ] {
        assert_eq!(rt; (source.read(&mut buf), buf[0]), (want, first));
    }
    Ok(())
}

#[test]
fn sink_takes_what_fits(rt: HostRuntime) -> Result<(), Fail> {
    let mut sink = MemSink::new(rt.alloc(), 5)?;
    for (piece, want, held) in [
        (b"abc".as_slice(), Put::Put(3), b"abc".as_slice()),
        (b"def", Put::Put(2), b"abcde"),
        (b"f", Put::Failed, b"abcde"),
        (b"", Put::Put(0), b"abcde"),
    ] {
        assert_eq!(rt; (sink.write(piece), sink.bytes()), (want, held));
    }
    Ok(())
}

#[test]
fn whole_texts_are_read(rt: HostRuntime) -> Result<(), Fail> {
    let long = Err(ReadEnd::TooLong);
    let failed = Err(ReadEnd::Failed);
    for (text, piece, fail, limit, first, rest) in [
        (
            b"abcde".as_slice(),
            2,
            100,
            5,
            Ok(b"abcde".as_slice()),
            b"".as_slice(),
        ),
        (b"abcde", 2, 100, 6, Ok(b"abcde"), b""),
        (b"abcde", 2, 100, 100, Ok(b"abcde"), b""),
        (b"abcdefgh", 100, 100, 0, long, b"bcdefgh"),
        (b"abcdefgh", 100, 100, 3, long, b"efgh"),
        (b"abcdefgh", 100, 100, 4, long, b"fgh"),
        (b"abcde", 3, 0, 100, failed, b"abcde"),
        (b"abcde", 3, 1, 100, failed, b"de"),
        (b"abcde", 3, 2, 100, failed, b""),
    ] {
        let mut source = source(rt.alloc(), text, piece, &[fail])?;
        let read = read_twice(rt.alloc(), &mut source, limit);
        assert_eq!(rt; (told(&read.0), told(&read.1)), (first, Ok(rest)));
    }
    Ok(())
}

#[test]
fn whole_texts_are_written(rt: HostRuntime) -> Result<(), Fail> {
    for (room, want, held) in [
        (0, Err(WriteFailed), b"".as_slice()),
        (3, Err(WriteFailed), b"abc"),
        (4, Err(WriteFailed), b"abcd"),
        (5, Ok(()), b"abcde"),
    ] {
        let mut sink = MemSink::new(rt.alloc(), room)?;
        assert_eq!(rt;
            (write_all(&mut sink, b"abcde"), sink.bytes()),
            (want, held)
        );
    }
    Ok(())
}

#[test]
fn std_reader(rt: HostRuntime) {
    for (errors, kind, want) in [
        (0, ErrorKind::Interrupted, Ok(b"abcde".as_slice())),
        (1, ErrorKind::Interrupted, Ok(b"abcde")),
        (1000, ErrorKind::Interrupted, Ok(b"abcde")),
        (1001, ErrorKind::Interrupted, Err(ReadEnd::Failed)),
        (1, ErrorKind::BrokenPipe, Err(ReadEnd::Failed)),
    ] {
        let (text, took) = read_faulty(rt.alloc(), errors, kind);
        assert_eq!(rt; (told(&text), took), (want, Took::Took(0)));
    }
}

#[test]
fn std_writer(rt: HostRuntime) {
    for (errors, kind, want, held) in [
        (0, ErrorKind::Interrupted, Ok(()), b"abcde".as_slice()),
        (1000, ErrorKind::Interrupted, Ok(()), b"abcde"),
        (1001, ErrorKind::Interrupted, Err(WriteFailed), b""),
        (1, ErrorKind::BrokenPipe, Err(WriteFailed), b""),
    ] {
        let (done, written) = write_faulty(rt.alloc(), errors, kind);
        assert_eq!(rt; (done, written.as_slice()), (want, held));
    }
}

#[test]
fn closed_writer(rt: HostRuntime) {
    let mut sink = StdSink::new(Closed);
    for (piece, want) in [(b"a".as_slice(), Put::Failed), (b"", Put::Put(0))] {
        assert_eq!(rt; sink.write(piece), want);
    }
}

#[test]
fn texts(rt: HostRuntime) -> Result<(), Fail> {
    let text = line(rt.alloc())?;
    assert_eq!(rt; text.as_slice(), b"a0 18446744073709551615 -12".as_slice());
    Ok(())
}
