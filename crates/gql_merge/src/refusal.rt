ghost use Rattle.std.specs.Prelude.{◌≡◌};
ghost use Rattle.gql_merge.specs.inner.Refused.{refusal_of};
ghost use Rattle.gql_merge.specs.Refusals.{merge_name};

use gql_tree::{GraftRefusal, NoMemory};
use thiserror::Error;

/// Why a payload was not taken.
#[derive(Debug, Drop, Error)]
pub enum MergeRefusal {
    /// An entry or a completed record names an id that isn't open.
    #[error("an id isn't open")]
    UnknownId,
    /// An id is announced that was announced before.
    #[error("an id was announced before")]
    IdTwice,
    /// Nothing of the wanted kind stands at an entry's path.
    #[error("nothing of the wanted kind stands at the path")]
    NoSuchPlace,
    /// One path would have two different marks.
    #[error("one path would have two different marks")]
    Clash,
    /// An earlier payload was the last.
    #[error("an earlier payload was the last")]
    AfterEnd,
    /// Items are for a path where something other than a list stands.
    #[error("no list stands at the path")]
    NotAList,
    /// The last payload leaves an id open.
    #[error("the last payload leaves an id open")]
    OpenAtEnd,
    /// A first payload has neither data nor errors, or a later one has data.
    #[error("data or errors are missing, or come again")]
    BadInitial,
    #[error("no memory left")]
    NoMemory,
}

impl MergeRefusal {
    /// The name that a user is shown.
    pub fn name(&self) -> &'static str
        ensures { result.now ≡ merge_name self.now }
    {
        match self {
            MergeRefusal::UnknownId => "UnknownId",
            MergeRefusal::IdTwice => "IdTwice",
            MergeRefusal::NoSuchPlace => "NoSuchPlace",
            MergeRefusal::Clash => "Clash",
            MergeRefusal::AfterEnd => "AfterEnd",
            MergeRefusal::NotAList => "NotAList",
            MergeRefusal::OpenAtEnd => "OpenAtEnd",
            MergeRefusal::BadInitial => "BadInitial",
            MergeRefusal::NoMemory => "NoMemory",
        }
    }
}

impl From<NoMemory> for MergeRefusal {
    ghost use Rattle.gql_merge.specs.declared.refusal.MergeRefusal.TheVariants.{NoMemory};

    ghost from_gives = { λ _ refusal. refusal ≡ NoMemory };

    fn from(_: NoMemory) -> Self {
        MergeRefusal::NoMemory
    }
}

pub(crate) fn refusal_of(graft: GraftRefusal) -> MergeRefusal
    ensures { result ≡ refusal_of graft }
{
    match graft {
        GraftRefusal::NoSuchPlace => MergeRefusal::NoSuchPlace,
        GraftRefusal::Clash => MergeRefusal::Clash,
        GraftRefusal::NotAList => MergeRefusal::NotAList,
        GraftRefusal::NoMemory => MergeRefusal::NoMemory,
    }
}
