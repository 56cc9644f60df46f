ghost use Rattle.std.specs.Prelude.{ℕ, List, Option, IsErr};
ghost use Rattle.gql_io.specs.Faults.{Counts};
ghost use Rattle.gql_io.specs.Told.{Puts};

use crate::Failed;

/// Where bytes go.
pub trait Sink {
    /// The bytes that were sent so far, where the sink tells.
    ghost sent: { Self → Option (List ℕ) };

    /// How often the sink has failed, up to 2^64 - 1.
    ghost faults: { Self → ℕ };

    /// Sends a piece. Where that fails, some bytes from the front of the piece
    /// may have been sent, and the sink may be used again.
    fn put(&mut self, piece: &[u8]) -> Result<(), Failed>
        ensures sent { Puts (sent self.old) (sent self.new) piece.now result }
        ensures cause { Counts (faults self.old) (faults self.new) (IsErr result) };
}
