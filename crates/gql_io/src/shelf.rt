ghost use Rattle.std.specs.Prelude.{◌≡◌, ℕ, ◌≤◌, length, Option, IfOk, IsErrOf};
ghost use Rattle.gql_io.specs.Faults.{Counts};
ghost use Rattle.gql_io.specs.Files.{Files, Reads};

use crate::Failed;
use gql_tree::{Bytes, NoMemory};
use std::alloc::Global;
use thiserror::Error;

/// Why a shelf gave no file. The shelf has the files that it had before.
#[derive(Clone, Copy, Debug, PartialEq, Eq, Error)]
pub enum ShelfRefusal {
    /// The shelf has no file of this name.
    #[error("no such file")]
    Missing,
    /// The file has more bytes than the call allows.
    #[error("the file is too long")]
    TooLong,
    /// The shelf failed, and its count of faults rose.
    #[error("the file could not be read")]
    Failed,
    /// There was no memory for the bytes.
    #[error("no memory left")]
    NoMemory,
}

impl From<NoMemory> for ShelfRefusal {
    ghost use Rattle.gql_io.specs.declared.shelf.ShelfRefusal.TheVariants.{NoMemory};

    ghost from_gives = { λ _ refusal. refusal ≡ NoMemory };

    fn from(_: NoMemory) -> Self {
        ShelfRefusal::NoMemory
    }
}

impl From<Failed> for ShelfRefusal {
    ghost use Rattle.gql_io.specs.declared.shelf.ShelfRefusal.TheVariants.{Failed};

    ghost from_gives = { λ _ refusal. refusal ≡ Failed };

    fn from(_: Failed) -> Self {
        ShelfRefusal::Failed
    }
}

/// Where files are read from.
pub trait Shelf {
    /// The bytes under each name, where the shelf tells.
    ghost files: { Self → Option Files };

    /// How often the shelf has failed, up to 2^64 - 1.
    ghost faults: { Self → ℕ };

    /// The bytes under a name, where they are at most `most` bytes.
    ///
    /// A call that is refused may be made again, and then answers for itself.
    fn read(&mut self, alloc: Global, name: &str, most: u64) -> Result<Bytes, ShelfRefusal>
        ensures answer { Reads (files self.old) name.now most result }
        ensures bound { IfOk result (λ bytes. length bytes ≤ most) }
        ensures same { files self.new ≡ files self.old }
        ensures cause { Counts (faults self.old) (faults self.new) (IsErrOf result ShelfRefusal.Failed) };
}
