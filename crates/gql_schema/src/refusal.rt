//! Why a text says no schema.

use gql_doc::ParseRefusal;
use gql_tree::{NoMemory, Spot};
use thiserror::Error;

/// Why a text says no schema.
#[derive(Clone, Copy, Debug, PartialEq, Eq, Error)]
pub enum SchemaRefusal {
    /// The text is no document of type definitions. Never for want of memory.
    #[error(transparent)]
    Parse(ParseRefusal),
    /// Of the rules of type definitions the first that is broken, by its number from 1 to 18, at the
    /// first place that breaks it.
    #[error("the type definitions break rule {number} at {}:{}", .spot.line, .spot.column)]
    Rule { number: u32, spot: Spot },
    /// There was no memory for the schema.
    #[error("no memory left")]
    NoMemory,
}

impl SchemaRefusal {
    ghost use Rattle.std.specs.Prelude.{◌≡◌};
    ghost use Rattle.gql_schema.specs.Answer.{unread};

    /// Why a text says no schema that was refused as a document.
    pub(crate) fn unread(why: ParseRefusal) -> SchemaRefusal
        ensures { result ≡ unread why }
    {
        match why {
            ParseRefusal::NoMemory => SchemaRefusal::NoMemory,
            why => SchemaRefusal::Parse(why),
        }
    }
}

impl From<NoMemory> for SchemaRefusal {
    ghost use Rattle.std.specs.Prelude.{◌≡◌};
    ghost use Rattle.gql_schema.specs.declared.refusal.SchemaRefusal.TheVariants as refusal;

    ghost from_gives = { λ _ why. why ≡ refusal.NoMemory };

    fn from(_error: NoMemory) -> SchemaRefusal {
        SchemaRefusal::NoMemory
    }
}
