ghost use Rattle.std.specs.Prelude.{◌≡◌, map};
ghost use Rattle.gql_model.specs.rules.Places.{place_if};
ghost use Rattle.gql_model.specs.rules.types.NoEmptyTypes.{is_empty_as, empty_types};
ghost use Rattle.gql_schema.specs.Seen.{defined};
ghost use Rattle.gql_schema.specs.FirstPlace.{first_place};

use super::rule::{Rule, first_among, place_if};
use crate::defined::Defined;
use gql_model::TypeKind;
use gql_tree::Spot;

/// Objects, interfaces and input objects have a field, enums a value and unions a member (sections 3.6
/// to 3.10 of the standard).
pub(crate) fn empty_type(types: &[Defined<'_>]) -> Option<Spot>
    ensures { result ≡ first_place (empty_types (map defined types.now)) }
{
    first_among(&NoEmptyTypes, types)
}

#[derive(Drop)]
struct NoEmptyTypes;

impl<'a> Rule<Defined<'a>> for NoEmptyTypes {
    ghost places = { λ it of. place_if (is_empty_as of.kind (defined of)) of.name.now.spot };

    fn first_in(&self, of: &Defined<'a>) -> Option<Spot> {
        place_if(is_empty(of), of.name.spot)
    }
}

/// Whether a type has none of what its kind must have.
fn is_empty(of: &Defined<'_>) -> bool
    ensures { result ≡ is_empty_as of.now.kind (defined of.now) }
{
    match of.kind {
        TypeKind::Scalar => false,
        TypeKind::Object | TypeKind::Interface => of.fields.is_empty(),
        TypeKind::Union => of.members.is_empty(),
        TypeKind::Enum => of.values.is_empty(),
        TypeKind::Input => of.inputs.is_empty(),
    }
}
