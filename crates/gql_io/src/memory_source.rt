ghost use Rattle.std.specs.Prelude.{◌≡◌, ◌↔◌, ◌<◌, min, length, take, IfOk, IsErr};
ghost use Rattle.std.specs.Io.{ReadsAtMost};
ghost use Rattle.gql_io.specs.Calls.{IsFresh, IsNext, FailsNext};
ghost use Rattle.gql_io.specs.Faults.{Counts};
ghost use Rattle.gql_io.specs.Left.{Takes};
ghost use Rattle.gql_io.specs.MemorySource.{rest_of, left_of, step_of, calls_of, faults_of, count_next};

use crate::calls::Calls;
use crate::{Failed, Source};

/// A source in memory, which gives a few bytes a call and fails at the calls
/// that it is told to fail.
#[derive(Debug, Drop)]
pub struct MemorySource {
    bytes: Vec<u8>,
    at: usize,
    step: usize,
    calls: Calls<u64>,
}

impl MemorySource {
    /// A source of these bytes, of which a call gives at most `step` (one where
    /// that is 0), with the numbers of the calls that fail, counted from 0.
    pub fn new(bytes: Vec<u8>, step: usize, failing: Vec<u64>) -> Self
        ensures rest { rest_of result ≡ bytes.items }
        ensures step { step_of result ≡ step }
        ensures calls { IsFresh (calls_of result) failing.items }
    {
        MemorySource {
            bytes,
            at: 0,
            step,
            calls: Calls::new(failing),
        }
    }

    /// How often the source has failed.
    pub fn faults(&self) -> u64
        ensures { result ≡ faults_of self.now }
    {
        self.calls.faults()
    }
}

/// Copies as many bytes as there are, fit, and are allowed, and gives their number.
fn copy_front(bytes: &[u8], room: &mut [u8], most: usize) -> usize
    ensures count { result ≡ min (min (length bytes.now) (length room.old)) most }
    ensures bytes { take result room.new ≡ take result bytes.now }
    ensures room { length room.new ≡ length room.old }
{
    let count = bytes.len().min(room.len()).min(most);
    room[..count].copy_from_slice(&bytes[..count]);
    count
}

impl Source for MemorySource {
    ghost left = { left_of };

    ghost faults = { faults_of };

    fn take(&mut self, room: &mut [u8]) -> Result<usize, Failed>
        requires { 0 < length room.old }
        ensures bound { ReadsAtMost result room.new }
        ensures bytes { Takes (left_of self.old) (left_of self.new) result room.new }
        ensures cause { Counts (faults_of self.old) (faults_of self.new) (IsErr result) }

        // The calls that fail are those of the list, and each other call gives
        // as much as there is, fits, and is allowed.
        ensures listed { IsErr result ↔ FailsNext (calls_of self.old) }
        ensures count { IfOk result (λ n. n ≡ count_next self.old (length room.old)) }
        ensures next { IsNext (calls_of self.old) (calls_of self.new) }
        ensures step { step_of self.new ≡ step_of self.old }
    {
        self.calls.begin()?;
        let at = self.at.min(self.bytes.len());
        let count = copy_front(&self.bytes[at..], room, self.step.max(1));
        self.at = at + count;
        Ok(count)
    }
}

#[cfg(test)]
mod tests {
    use super::*;
    use std::process::Abort;
    use std::test::Fail;

    /// The next call, with room for two bytes or for four, gives these or fails, and then so many calls have failed.
    fn takes(
        rt: &impl Abort,
        source: &mut MemorySource,
        has_little_room: bool,
        want: Result<&[u8], Failed>,
        faults: u64,
    ) {
        let mut room = [0; 4];
        let taken = if has_little_room {
            source.take(&mut room[..2])
        } else {
            source.take(&mut room)
        };
        assert_eq!(rt; taken.map(|count| &room[..count.min(4)]), want);
        assert_eq!(rt; source.faults(), faults);
    }

    #[test]
    fn calls_that_fail_among_others(rt: HostRuntime) -> Result<(), Fail> {
        let alloc = rt.alloc();
        let mut bytes = Vec::new(alloc);
        bytes.extend_from_slice(b"1234567")?;
        let mut source = MemorySource::new(bytes, 3, vec![in alloc; 1, 4]?);
        for &(has_little_room, want, faults) in &[
            (false, Ok(b"123".as_slice()), 0),
            (false, Err(Failed), 1),
            (true, Ok(b"45"), 1),
            (false, Ok(b"67"), 1),
            (false, Err(Failed), 2),
            (false, Ok(b""), 2),
        ] {
            takes(&rt, &mut source, has_little_room, want, faults);
        }
        Ok(())
    }
}
