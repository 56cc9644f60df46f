ghost use Rattle.std.specs.Prelude.{◌≡◌, [], Some, IsSome, IsErr};
ghost use Rattle.gql_io.specs.Calls.{IsFresh, IsNext};
ghost use Rattle.gql_io.specs.Faults.{Counts};
ghost use Rattle.gql_io.specs.MemorySink.{sent_of, calls_of, faults_of, taken_next, share_of, TakesOrFails};
ghost use Rattle.gql_io.specs.Told.{Puts};

use crate::calls::Calls;
use crate::{Failed, Sink};
use std::alloc::Global;

/// A call of a sink in memory that fails.
#[derive(Clone, Copy, Debug, PartialEq, Eq)]
pub struct SinkFault {
    /// The number of the call, counted from 0.
    pub call: u64,
    /// How many bytes of its piece the call still takes; all of a piece that
    /// has no more.
    pub taken: usize,
}

/// A sink in memory, which fails at the calls that it is told to fail, and where
/// it has no memory for a piece.
#[derive(Debug, Drop)]
pub struct MemorySink {
    sent: Vec<u8>,
    calls: Calls<SinkFault>,
}

impl MemorySink {
    /// A sink that was sent nothing, with the calls that fail; the first counts
    /// where two have one number.
    pub fn new(alloc: Global, failing: Vec<SinkFault>) -> Self
        ensures sent { sent_of result ≡ Some [] }
        ensures calls { IsFresh (calls_of result) failing.items }
    {
        MemorySink {
            sent: Vec::new(alloc),
            calls: Calls::new(failing),
        }
    }

    /// All that was sent so far.
    pub fn sent(&self) -> &[u8]
        ensures { sent_of self.now ≡ Some result.now }
    {
        self.sent.as_slice()
    }

    /// How often the sink has failed.
    pub fn faults(&self) -> u64
        ensures { result ≡ faults_of self.now }
    {
        self.calls.faults()
    }

    /// Counts a call, and tells how many bytes it takes where it is one that
    /// fails.
    fn begin_call(&mut self) -> Option<usize>
        ensures taken { result ≡ taken_next self.old }
        ensures same { (self.new.sent ≡ self.old.sent) × (faults_of self.new ≡ faults_of self.old) }
        ensures next { IsNext (calls_of self.old) (calls_of self.new) }
    {
        let call = self.calls.count();
        self.calls
            .failing()
            .iter()
            .find(|fault| fault.call == call)
            .map(|fault| fault.taken)
    }
}

impl Sink for MemorySink {
    ghost sent = { sent_of };

    ghost faults = { faults_of };

    fn put(&mut self, piece: &[u8]) -> Result<(), Failed>
        ensures sent { Puts (sent_of self.old) (sent_of self.new) piece.now result }
        ensures cause { Counts (faults_of self.old) (faults_of self.new) (IsErr result) }

        // The calls of the list fail, and each call takes its share of the piece
        // where there is memory for that.
        ensures listed { IsSome (taken_next self.old) → IsErr result }
        ensures share { TakesOrFails self.old self.new (share_of self.old piece.now) result }
        ensures next { IsNext (calls_of self.old) (calls_of self.new) }
    {
        let fault = self.begin_call();
        let taken = fault.unwrap_or(piece.len()).min(piece.len());
        if self.sent.extend_from_slice(&piece[..taken]).is_err() || fault.is_some() {
            return Err(self.calls.fail());
        }
        Ok(())
    }
}

#[cfg(test)]
mod tests {
    use super::*;
    use std::process::Abort;
    use std::test::Fail;

    /// The next call ends so, and then this is sent and so many calls have failed.
    fn puts(
        rt: &impl Abort,
        sink: &mut MemorySink,
        piece: &str,
        want: Result<(), Failed>,
        sent: &str,
        faults: u64,
    ) {
        assert_eq!(rt; sink.put(piece.as_bytes()), want);
        assert_eq!(rt; sink.sent(), sent.as_bytes());
        assert_eq!(rt; sink.faults(), faults);
    }

    #[test]
    fn calls_that_fail_among_others(rt: HostRuntime) -> Result<(), Fail> {
        let failing = vec![in rt.alloc();
            SinkFault { call: 1, taken: 10 },
            SinkFault { call: 3, taken: 0 },
            SinkFault { call: 4, taken: 9 },
            SinkFault { call: 4, taken: 1 },
        ]?;
        let mut sink = MemorySink::new(rt.alloc(), failing);
        for &(piece, want, sent, faults) in &[
            ("<", Ok(()), "<", 0),
            ("0123456789ab", Err(Failed), "<0123456789", 1),
            (">", Ok(()), "<0123456789>", 1),
            ("lost", Err(Failed), "<0123456789>", 2),
            ("all", Err(Failed), "<0123456789>all", 3),
            ("", Ok(()), "<0123456789>all", 3),
        ] {
            puts(&rt, &mut sink, piece, want, sent, faults);
        }
        Ok(())
    }
}
