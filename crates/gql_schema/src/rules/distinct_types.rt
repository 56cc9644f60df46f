ghost use Rattle.std.specs.Prelude.{◌≡◌, ◌<◌, ◌++◌, length, map, take, slice_index};
ghost use Rattle.gql_model.specs.rules.Places.{stands_in};
ghost use Rattle.gql_model.specs.rules.TypeParts.{built_in};
ghost use Rattle.gql_model.specs.rules.types.DistinctTypes.{repeated_types};
ghost use Rattle.gql_schema.specs.Seen.{defined, stands_before};
ghost use Rattle.gql_schema.specs.FirstPlace.{first_place};

use crate::defined::{Defined, is_built_in};
use gql_model::ByName;
use gql_tree::Spot;

/// Type names are distinct and are no built-in scalar's name (section 3.3 of the standard).
pub(crate) fn repeated_type(types: &ByName<Defined<'_>>) -> Option<Spot>
    ensures { result ≡ first_place (repeated_types (map defined types.now)) }
{
    let listed = types.as_slice();
    for i in 0..listed.len() {
        let of = &listed[i];
        if is_repeated(types, of.name.name.as_str(), i) {
            return Some(of.name.spot);
        }
    }
    None
}

/// Whether a name is that of a built-in scalar or of one of so many first types.
fn is_repeated(types: &ByName<Defined<'_>>, name: &str, before: usize) -> bool
    ensures { result ≡ stands_in name.now (built_in ++ map (λ of. of.name.now.name) (take before types.now)) }
{
    is_built_in(name) || stands_before(types.place(name), before)
}

/// Whether there is a place, and it is one of so many first ones.
pub(super) fn stands_before(place: Option<usize>, before: usize) -> bool
    ensures { result ≡ stands_before before place }
{
    match place {
        Some(place) => place < before,
        None => false,
    }
}
