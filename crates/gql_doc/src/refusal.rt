//! Why a text is no document, executable or of type definitions.

ghost use Rattle.std.specs.Prelude.{◌≡◌};
ghost use Rattle.gql_doc.specs.Refusals.{parse_name, parse_spot};

use gql_lex::LexRefusal;
use gql_tree::{NoMemory, Spot};
use thiserror::Error;

/// Why a text is no document: the first thing in order of the text that is in the way of one.
#[derive(Clone, Copy, Debug, PartialEq, Eq, Error)]
pub enum ParseRefusal {
    /// A document has more than 1,048,576 bytes, or type definitions more than 67,108,864.
    #[error("the text is too long")]
    TooLong,
    /// What stands there is no token.
    #[error(transparent)]
    Lex(LexRefusal),
    /// No document goes on with the token that begins there, or the text ends there, inside a
    /// document.
    #[error("no document goes on with what stands at {}:{}", .spot.line, .spot.column)]
    Unexpected { spot: Spot },
    /// There begins the brace or bracket that is opened inside 128 others.
    #[error("the brace or bracket at {}:{} is opened inside 128 others", .spot.line, .spot.column)]
    TooDeep { spot: Spot },
    /// There was no memory for the document.
    #[error("no memory left")]
    NoMemory,
}

impl ParseRefusal {
    /// The name that a user is shown.
    pub fn name(self) -> &'static str
        ensures { result.now ≡ parse_name self }
    {
        match self {
            ParseRefusal::TooLong => "TooLong",
            ParseRefusal::Lex(refusal) => refusal.name(),
            ParseRefusal::Unexpected { .. } => "Unexpected",
            ParseRefusal::TooDeep { .. } => "TooDeep",
            ParseRefusal::NoMemory => "NoMemory",
        }
    }

    /// Where the text is no document, but for one that is too long.
    pub fn spot(self) -> Option<Spot>
        ensures { result ≡ parse_spot self }
    {
        match self {
            ParseRefusal::Lex(refusal) => Some(refusal.spot()),
            ParseRefusal::Unexpected { spot } => Some(spot),
            ParseRefusal::TooDeep { spot } => Some(spot),
            ParseRefusal::TooLong | ParseRefusal::NoMemory => None,
        }
    }
}

impl From<NoMemory> for ParseRefusal {
    ghost use Rattle.std.specs.Prelude.{◌≡◌};
    ghost use Rattle.gql_doc.specs.declared.refusal.ParseRefusal.TheVariants as refusal;

    ghost from_gives = { λ _ why. why ≡ refusal.NoMemory };

    fn from(_error: NoMemory) -> ParseRefusal {
        ParseRefusal::NoMemory
    }
}
