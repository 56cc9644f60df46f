ghost use Rattle.std.specs.Prelude.{◌≡◌, ◌≢◌, ◌<◌, length, IfErr};
ghost use Rattle.std.specs.Io.{ReadsAtMost};
ghost use Rattle.std.specs.IoError.{error_kind};
ghost use Rattle.gql_io.specs.Left.{Takes};
ghost use Rattle.gql_io.specs.StdSource.{reader_of, faults_of};

use crate::{Failed, Source};
use std::io;
use std::io::{ErrorKind, Read};

/// A source over any reader of std, which tells what is left where its reader
/// does.
///
/// A read that a signal interrupts is made again. Every other error is a fault.
#[derive(Drop)]
pub struct StdSource<R> {
    reader: R,
    faults: u64,
}

impl<R: Read> StdSource<R> {
    /// A source that goes on from what the reader has left.
    pub fn new(reader: R) -> Self
        ensures reader { reader_of result ≡ reader }
        ensures faults { faults_of result ≡ 0 }
    {
        StdSource { reader, faults: 0 }
    }

    /// How often the source has failed.
    pub fn faults(&self) -> u64
        ensures { result ≡ faults_of self.now }
    {
        self.faults
    }
}

impl<R: Read> Source for StdSource<R> {
    ghost left = { λ source. R.remaining (reader_of source) };

    ghost faults = { faults_of };

    fn take(&mut self, room: &mut [u8]) -> Result<usize, Failed> {
        match read_front(&mut self.reader, room) {
            Ok(count) => Ok(count),
            Err(_) => {
                self.faults = self.faults.saturating_add(1);
                Err(Failed)
            }
        }
    }
}

/// One read into the room, made again where a signal interrupts it.
fn read_front<R: Read>(reader: &mut R, room: &mut [u8]) -> io::Result<usize>
    requires { 0 < length room.old }
    ensures bound { ReadsAtMost result room.new }
    ensures bytes { Takes (R.remaining reader.old) (R.remaining reader.new) result room.new }
    ensures retried { IfErr result (λ error. error_kind error ≢ ErrorKind.Interrupted) }
{
    for _ in 0..u64::MAX {
        match reader.read(room) {
            Err(error) if error.kind() == ErrorKind::Interrupted => {}
            outcome => return outcome,
        }
    }
    Err(io::Error::from(ErrorKind::TimedOut))
}

#[cfg(test)]
mod tests {
    use super::*;
    use crate::choppy::Choppy;
    use std::process::Abort;

    /// The next call gives these bytes, or fails.
    fn takes(rt: &impl Abort, source: &mut StdSource<Choppy>, want: Result<&[u8], Failed>) {
        let mut room = [0; 8];
        let taken = source.take(&mut room);
        assert_eq!(rt; taken.map(|count| &room[..count.min(8)]), want);
    }

    #[test]
    fn reads_that_fail_in_the_middle(rt: HostRuntime) {
        let reset = ErrorKind::ConnectionReset;
        for &(kind, second, third, faults) in &[
            (
                ErrorKind::Interrupted,
                Ok(b"45".as_slice()),
                b"".as_slice(),
                0,
            ),
            (reset, Err(Failed), b"45", 1),
            (ErrorKind::OutOfMemory, Err(Failed), b"45", 1),
        ] {
            let mut source = StdSource::new(Choppy {
                rest: b"12345",
                most: 3,
                fails_at: 2,
                kind,
            });
            takes(&rt, &mut source, Ok(b"123"));
            takes(&rt, &mut source, second);
            takes(&rt, &mut source, Ok(third));
            assert_eq!(rt; source.faults(), faults);
        }
    }
}
