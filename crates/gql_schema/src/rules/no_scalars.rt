ghost use Rattle.std.specs.Prelude.{◌≡◌, map};
ghost use Rattle.gql_model.specs.rules.Places.{place_if};
ghost use Rattle.gql_model.specs.rules.TypeParts.{is_scalar};
ghost use Rattle.gql_model.specs.rules.types.NoScalars.{scalar_definitions};
ghost use Rattle.gql_schema.specs.Seen.{defined};
ghost use Rattle.gql_schema.specs.FirstPlace.{first_place};

use super::rule::{Rule, first_among, place_if};
use crate::defined::Defined;
use gql_model::TypeKind;
use gql_tree::Spot;

/// There is no definition of a scalar. The standard has them (section 3.5); this service has the
/// built-in ones alone.
pub(crate) fn scalar_definition(types: &[Defined<'_>]) -> Option<Spot>
    ensures { result ≡ first_place (scalar_definitions (map defined types.now)) }
{
    first_among(&NoScalars, types)
}

#[derive(Drop)]
struct NoScalars;

impl<'a> Rule<Defined<'a>> for NoScalars {
    ghost places = { λ it of. place_if (is_scalar of.kind) of.name.now.spot };

    fn first_in(&self, of: &Defined<'a>) -> Option<Spot> {
        place_if(matches!(of.kind, TypeKind::Scalar), of.name.spot)
    }
}
