//! Why a body isn't read on.

ghost use Rattle.std.specs.Prelude.{◌≡◌};
ghost use Rattle.gql_multipart.specs.Refusals.{frame_name};

use gql_tree::NoMemory;
use thiserror::Error;

/// What is wrong with a body, by the region in which its first wrong byte stands.
#[derive(Clone, Copy, Debug, PartialEq, Eq, Error)]
pub enum FrameKind {
    /// The boundary has no or more than 70 characters, a character that it may not have, or a space
    /// at its end.
    #[error("the boundary is none")]
    BadBoundary,
    /// The preamble has more than 16,384 bytes.
    #[error("the preamble is too long")]
    BadPreamble,
    /// Behind a mark stands neither CRLF, with at most 64 spaces and tabs before it, nor `--`.
    #[error("a delimiter line is none")]
    BadDelimiter,
    /// A header line is none, begins with a mark, or there are more than 16,384 bytes of them.
    #[error("a header is none or too long")]
    BadHeader,
    /// A content has more than 67,108,864 bytes.
    #[error("a part is too long")]
    PartTooLong,
    /// The input has ended inside a body.
    #[error("the input has ended inside a body")]
    Truncated,
}

/// Why a body isn't read on.
#[derive(Clone, Copy, Debug, PartialEq, Eq, Error)]
pub enum FrameRefusal {
    /// `byte` is the least number of bytes that begin no body: the wrong byte, counted from 1.
    #[error("{kind}, at byte {byte}")]
    At { kind: FrameKind, byte: u64 },
    #[error("no memory left")]
    NoMemory,
}

impl FrameKind {
    /// The name that a user is shown.
    pub fn name(self) -> &'static str
        ensures { result.now ≡ frame_name self }
    {
        match self {
            FrameKind::BadBoundary => "BadBoundary",
            FrameKind::BadPreamble => "BadPreamble",
            FrameKind::BadDelimiter => "BadDelimiter",
            FrameKind::BadHeader => "BadHeader",
            FrameKind::PartTooLong => "PartTooLong",
            FrameKind::Truncated => "Truncated",
        }
    }
}

impl From<NoMemory> for FrameRefusal {
    ghost use Rattle.gql_multipart.specs.declared.refusal.FrameRefusal.TheVariants as refusal;

    ghost from_gives = { λ _ e. e ≡ refusal.NoMemory };

    fn from(_: NoMemory) -> Self {
        FrameRefusal::NoMemory
    }
}
