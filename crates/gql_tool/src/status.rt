ghost use Rattle.std.specs.Prelude.{◌≡◌};
ghost use Rattle.gql_tool.specs.Statuses.{number_of};
ghost use Rattle.gql_tool.specs.inner.Steps.{ended};

use gql_io::Failed;
use gql_tree::NoMemory;

/// How a command ends. Its number is the program's exit status.
#[derive(Clone, Copy, Debug, PartialEq, Eq)]
pub enum Status {
    /// All is written.
    Done,
    /// The request is refused, and what is written says why.
    Refused,
    /// The words are no command.
    Usage,
    /// The files could not be read.
    ReadFault,
    /// The output could not be written.
    WriteFault,
    /// There was no memory left.
    NoMemory,
    /// The client refused: of `local` a text that is longer than a part may be, of `replay` its input.
    StreamRefused,
    /// A file is missing, and what is written names it.
    NoFile,
    /// The network failed. No command of this build ends so.
    DoorFault,
    /// The schema or the tables are refused. No command of this build ends so.
    InputsRefused,
    /// A file is too long, and what is written names it.
    TooLong,
}

impl Status {
    /// The program's exit status.
    pub fn number(self) -> u8
        ensures { result ≡ number_of self }
    {
        self as u8
    }
}

impl From<NoMemory> for Status {
    ghost use Rattle.gql_tool.specs.declared.status.Status.TheVariants.{NoMemory};

    ghost from_gives = { λ _ status. status ≡ NoMemory };

    fn from(_: NoMemory) -> Self {
        Status::NoMemory
    }
}

/// A fault of the output; one of the files or of the input is told where they are read.
impl From<Failed> for Status {
    ghost use Rattle.gql_tool.specs.declared.status.Status.TheVariants.{WriteFault};

    ghost from_gives = { λ _ status. status ≡ WriteFault };

    fn from(_: Failed) -> Self {
        Status::WriteFault
    }
}

/// The status of work that ended early or went through.
pub(crate) fn ended(end: Result<(), Status>) -> Status
    ensures { result ≡ ended end }
{
    match end {
        Ok(()) => Status::Done,
        Err(status) => status,
    }
}
