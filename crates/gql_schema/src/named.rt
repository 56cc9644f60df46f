//! Names of a list, looked up by name.

ghost use Rattle.std.specs.Prelude.{◌≡◌, map, take, IfOk};
ghost use Rattle.gql_model.specs.rules.Places.{names_of, stands_in};

use gql_model::{ByName, HasName, NameAt};
use gql_tree::{Listed, NoMemory};
use std::alloc::Global;

/// A name in a list.
#[derive(Drop)]
pub(crate) struct Named<'a> {
    pub at: &'a NameAt,
}

impl<'a> HasName for Named<'a> {
    ghost name_of = { λ of. of.at.now.name };

    fn name(&self) -> &str {
        self.at.name.as_str()
    }
}

/// The names of a list, by name.
pub(crate) fn by_name(alloc: Global, names: &[NameAt]) -> Result<ByName<Named<'_>>, NoMemory>
    ensures { IfOk result (λ it. map (λ n. n.at.now) it ≡ names.now) }
{
    let mut listed = Listed::new(alloc);
    for at in names {
        listed.push(Named { at })?;
    }
    ByName::new(alloc, listed)
}

/// Whether a name is one of a list that is looked up by name.
pub(crate) fn is_listed(names: &ByName<Named<'_>>, name: &str) -> bool
    ensures { result ≡ stands_in name.now (names_of (map (λ n. n.at.now) names.now)) }
{
    names.get(name).is_some()
}

/// Whether a name is one of a list.
pub(crate) fn is_among(names: &[NameAt], name: &str) -> bool
    ensures { result ≡ stands_in name.now (names_of names.now) }
{
    for other in names {
        if other.name.as_str() == name {
            return true;
        }
    }
    false
}
