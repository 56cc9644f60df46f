ghost use Rattle.std.specs.Prelude.{◌≡◌, ◌≢◌, IfErr};
ghost use Rattle.std.specs.Io.{WritesAtMost};
ghost use Rattle.std.specs.Io.KnownBytes.{WriteAppends};
ghost use Rattle.std.specs.IoError.{error_kind};
ghost use Rattle.gql_io.specs.StdSink.{writer_of, faults_of};
ghost use Rattle.gql_io.specs.Told.{Puts};

use crate::{Failed, Sink};
use std::io;
use std::io::{ErrorKind, Write};

/// A sink over any writer of std, which tells what was sent where its writer
/// does.
///
/// A piece goes to the writer in as many writes as it asks for, each byte once.
/// A write that a signal interrupts is made again. A write that takes nothing of
/// a piece, and every other error, is a fault. No call flushes the writer.
#[derive(Drop)]
pub struct StdSink<W> {
    writer: W,
    faults: u64,
}

impl<W: Write> StdSink<W> {
    /// A sink that goes on from what the writer holds.
    pub fn new(writer: W) -> Self
        ensures writer { writer_of result ≡ writer }
        ensures faults { faults_of result ≡ 0 }
    {
        StdSink { writer, faults: 0 }
    }

    /// How often the sink has failed.
    pub fn faults(&self) -> u64
        ensures { result ≡ faults_of self.now }
    {
        self.faults
    }
}

impl<W: Write> Sink for StdSink<W> {
    ghost sent = { λ sink. W.contents (writer_of sink) };

    ghost faults = { faults_of };

    fn put(&mut self, piece: &[u8]) -> Result<(), Failed> {
        let outcome = write_whole(&mut self.writer, piece);
        if outcome.is_err() {
            self.faults = self.faults.saturating_add(1);
        }
        outcome
    }
}

/// Writes until the writer has taken all of the bytes, or no more of them.
fn write_whole<W: Write>(writer: &mut W, bytes: &[u8]) -> Result<(), Failed>
    ensures { Puts (W.contents writer.old) (W.contents writer.new) bytes.now result }
{
    let mut taken = 0;
    while taken < bytes.len() {
        match write_front(writer, &bytes[taken..]) {
            Ok(count) if count > 0 => taken += count,
            _ => return Err(Failed),
        }
    }
    Ok(())
}

/// One write of a front of the bytes, made again where a signal interrupts it.
fn write_front<W: Write>(writer: &mut W, bytes: &[u8]) -> io::Result<usize>
    ensures bound { WritesAtMost result bytes.now }
    ensures front { WriteAppends (W.contents writer.old) (W.contents writer.new) result bytes.now }
    ensures retried { IfErr result (λ error. error_kind error ≢ ErrorKind.Interrupted) }
{
    for _ in 0..u64::MAX {
        match writer.write(bytes) {
            Err(error) if error.kind() == ErrorKind::Interrupted => {}
            outcome => return outcome,
        }
    }
    Err(io::Error::from(ErrorKind::TimedOut))
}

#[cfg(test)]
mod tests {
    use super::*;
    use std::process::Abort;

    /// Takes three bytes a write, and answers otherwise once, where it holds
    /// so many: by the kind, or by taking nothing.
    #[derive(Drop)]
    struct Choppy {
        held: Vec<u8>,
        stops_at: usize,
        kind: Option<ErrorKind>,
    }

    impl Write for Choppy {
        ghost use Rattle.std.specs.Prelude.{Some};

        ghost contents = { λ writer. Some writer.held.items };

        fn write(&mut self, bytes: &[u8]) -> io::Result<usize> {
            if self.held.len() == self.stops_at {
                self.stops_at = usize::MAX;
                return match self.kind {
                    None => Ok(0),
                    Some(kind) => Err(io::Error::from(kind)),
                };
            }
            let room = self.stops_at.saturating_sub(self.held.len());
            let count = bytes.len().min(3).min(room);
            self.held.extend_from_slice(&bytes[..count])?;
            Ok(count)
        }

        fn flush(&mut self) -> io::Result<()> {
            Ok(())
        }
    }

    /// The next call ends so, and then the writer holds these bytes and so many calls have failed.
    fn puts(
        rt: &impl Abort,
        sink: &mut StdSink<Choppy>,
        piece: &[u8],
        want: Result<(), Failed>,
        held: &[u8],
        faults: u64,
    ) {
        assert_eq!(rt; sink.put(piece), want);
        assert_eq!(rt; sink.writer.held.as_slice(), held);
        assert_eq!(rt; sink.faults(), faults);
    }

    #[test]
    fn pieces_to_a_writer_that_stops(rt: HostRuntime) {
        let reset = Some(ErrorKind::ConnectionReset);
        let interrupted = Some(ErrorKind::Interrupted);
        for &(stops_at, kind, first, held) in &[
            (usize::MAX, None, Ok(()), b"12345678".as_slice()),
            (0, None, Err(Failed), b"".as_slice()),
            (4, None, Err(Failed), b"1234".as_slice()),
            (5, reset, Err(Failed), b"12345".as_slice()),
            (8, reset, Ok(()), b"12345678".as_slice()),
            (5, interrupted, Ok(()), b"12345678".as_slice()),
        ] {
            let mut sink = StdSink::new(Choppy {
                held: Vec::new(rt.alloc()),
                stops_at,
                kind,
            });
            let faults = if first.is_ok() { 0 } else { 1 };
            puts(&rt, &mut sink, b"12345678", first, held, faults);
        }
    }

    #[test]
    fn the_next_piece_after_a_fault(rt: HostRuntime) {
        let mut sink = StdSink::new(Choppy {
            held: Vec::new(rt.alloc()),
            stops_at: 4,
            kind: None,
        });
        puts(&rt, &mut sink, b"123456", Err(Failed), b"1234", 1);
        puts(&rt, &mut sink, b"abcde", Ok(()), b"1234abcde", 1);
    }

    #[test]
    fn pieces_to_standard_output(rt: HostRuntime) {
        let mut sink = StdSink::new(rt.stdout());
        assert_eq!(rt; sink.put(b"sent\n"), Ok(()));
        assert_eq!(rt; sink.put(b""), Ok(()));
        assert_eq!(rt; sink.faults(), 0);
    }
}
