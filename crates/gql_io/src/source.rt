ghost use Rattle.std.specs.Prelude.{ℕ, ◌<◌, List, length, Option, IsErr};
ghost use Rattle.std.specs.Io.{ReadsAtMost};
ghost use Rattle.gql_io.specs.Faults.{Counts};
ghost use Rattle.gql_io.specs.Left.{Takes};

use crate::Failed;

/// Where bytes come from.
pub trait Source {
    /// The bytes that are still to come, where the source tells.
    ghost left: { Self → Option (List ℕ) };

    /// How often the source has failed, up to 2^64 - 1.
    ghost faults: { Self → ℕ };

    /// Moves the next bytes to the front of a room that isn't empty, and gives
    /// their number, which is 0 only where no more will come. Where that fails,
    /// nothing is lost, and the source may be used again.
    fn take(&mut self, room: &mut [u8]) -> Result<usize, Failed>
        requires { 0 < length room.old }
        ensures bound { ReadsAtMost result room.new }
        ensures bytes { Takes (left self.old) (left self.new) result room.new }
        ensures cause { Counts (faults self.old) (faults self.new) (IsErr result) };
}

impl<S: Source> Source for &mut S {
    ghost left = { λ source. S.left source.now };

    ghost faults = { λ source. S.faults source.now };

    fn take(&mut self, room: &mut [u8]) -> Result<usize, Failed> {
        (**self).take(room)
    }
}
