//! Why bytes are no payload.

ghost use Rattle.std.specs.Prelude.{◌≡◌, IfOk};
ghost use Rattle.gql_payload.specs.Refusals.{payload_name};

use gql_tree::{NoMemory, Text};
use std::alloc::Global;
use thiserror::Error;

/// Why bytes are no payload.
#[derive(Debug, Drop, Error)]
pub enum PayloadRefusal {
    /// They are no JSON in UTF-8, or nest deeper than 127.
    #[error("the text is no JSON")]
    NotJson,
    #[error("the text is no object")]
    NotAnObject,
    /// The first wrong member of the payload in byte order of names.
    #[error("the member {} is wrong", .member.as_str())]
    Wrong { member: Text },
    #[error("no memory left")]
    NoMemory,
}

impl PayloadRefusal {
    /// The name that a user is shown, with the wrong member's.
    pub fn name(&self, alloc: Global) -> Result<Text, NoMemory>
        ensures { IfOk result (λ name. name ≡ payload_name self.now) }
    {
        match self {
            PayloadRefusal::NotJson => Text::copy_of(alloc, "NotJson"),
            PayloadRefusal::NotAnObject => Text::copy_of(alloc, "NotAnObject"),
            PayloadRefusal::Wrong { member } => {
                let member = member.as_str();
                Ok(Text::from_string(format!(in alloc; "Wrong {member}")?))
            }
            PayloadRefusal::NoMemory => Text::copy_of(alloc, "NoMemory"),
        }
    }
}

impl From<NoMemory> for PayloadRefusal {
    ghost use Rattle.gql_payload.specs.declared.refusal.PayloadRefusal.TheVariants.{NoMemory};

    ghost from_gives = { λ _ e. e ≡ NoMemory };

    fn from(_: NoMemory) -> Self {
        PayloadRefusal::NoMemory
    }
}
