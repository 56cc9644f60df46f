ghost use Rattle.std.specs.Prelude.{◌≡◌, map};
ghost use Rattle.gql_model.specs.rules.Places.{place_if, faults};
ghost use Rattle.gql_model.specs.rules.References.{reference, innermost};
ghost use Rattle.gql_model.specs.rules.TypeParts.{has_kind, is_input};
ghost use Rattle.gql_model.specs.rules.types.OutputTypes.{field_types, input_fields_given_out};
ghost use Rattle.gql_schema.specs.Seen.{defined};
ghost use Rattle.gql_schema.specs.FirstPlace.{first_place};

use super::rule::{Rule, first_among, place_if};
use crate::defined::{Defined, kind_named};
use crate::used::innermost;
use gql_model::{ByName, FieldSyntax, TypeKind};
use gql_tree::Spot;

/// A field's type isn't built on an input object (sections 3.4.2 and 3.6 of the standard).
pub(crate) fn input_given_out(types: &ByName<Defined<'_>>) -> Option<Spot>
    ensures { result ≡ first_place (input_fields_given_out (map defined types.now)) }
{
    first_among(&OutputTypes { types }, types.as_slice())
}

#[derive(Drop)]
struct OutputTypes<'t, 'a> {
    types: &'t ByName<Defined<'a>>,
}

impl<'t, 'a, 'd> Rule<Defined<'d>> for OutputTypes<'t, 'a> {
    ghost places = { λ it of. faults (λ n. has_kind (map defined it.types.now) is_input n.name) (field_types (defined of)) };

    fn first_in(&self, of: &Defined<'d>) -> Option<Spot> {
        first_among(self, of.fields)
    }
}

impl<'t, 'a> Rule<FieldSyntax> for OutputTypes<'t, 'a> {
    ghost places = { λ it of. place_if (has_kind (map defined it.types.now) is_input (innermost (reference of.kind)).name) (innermost (reference of.kind)).spot };

    fn first_in(&self, of: &FieldSyntax) -> Option<Spot> {
        let used = innermost(&of.kind);
        let fails = matches!(kind_named(self.types, used.name), Some(TypeKind::Input));
        place_if(fails, used.spot)
    }
}
