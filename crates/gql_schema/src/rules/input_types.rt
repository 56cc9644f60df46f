ghost use Rattle.std.specs.Prelude.{◌≡◌, map};
ghost use Rattle.gql_model.specs.rules.Places.{place_if, faults};
ghost use Rattle.gql_model.specs.rules.References.{reference, innermost};
ghost use Rattle.gql_model.specs.rules.TypeParts.{has_kind, is_composite, input_of};
ghost use Rattle.gql_model.specs.rules.types.InputTypes.{input_types, outputs_taken_in};
ghost use Rattle.gql_schema.specs.Seen.{defined, passes};
ghost use Rattle.gql_schema.specs.FirstPlace.{first_place};

use super::rule::{Rule, first_among, place_if};
use crate::defined::{Defined, kind_named};
use crate::used::innermost;
use gql_model::{ByName, FieldSyntax, InputSyntax, TypeKind};
use gql_tree::Spot;

/// The type of an argument and of an input field is built on a scalar, an enum or an input object
/// (sections 3.4.2, 3.6.1 and 3.10 of the standard).
pub(crate) fn output_taken_in(types: &ByName<Defined<'_>>) -> Option<Spot>
    ensures { result ≡ first_place (outputs_taken_in (map defined types.now)) }
{
    first_among(&InputTypes { types }, types.as_slice())
}

#[derive(Drop)]
struct InputTypes<'t, 'a> {
    types: &'t ByName<Defined<'a>>,
}

impl<'t, 'a, 'd> Rule<Defined<'d>> for InputTypes<'t, 'a> {
    ghost places = { λ it of. faults (λ n. has_kind (map defined it.types.now) is_composite n.name) (input_types (defined of)) };

    fn first_in(&self, of: &Defined<'d>) -> Option<Spot> {
        first_among(self, of.fields).or(first_among(self, of.inputs))
    }
}

impl<'t, 'a> Rule<FieldSyntax> for InputTypes<'t, 'a> {
    ghost places = { λ it of. faults (λ n. has_kind (map defined it.types.now) is_composite n.name) (map (λ i. innermost i.type) (map input_of of.arguments)) };

    fn first_in(&self, of: &FieldSyntax) -> Option<Spot> {
        first_among(self, of.arguments.as_slice())
    }
}

impl<'t, 'a> Rule<InputSyntax> for InputTypes<'t, 'a> {
    ghost places = { λ it of. place_if (has_kind (map defined it.types.now) is_composite (innermost (reference of.kind)).name) (innermost (reference of.kind)).spot };

    fn first_in(&self, of: &InputSyntax) -> Option<Spot> {
        let used = innermost(&of.kind);
        place_if(is_composite(kind_named(self.types, used.name)), used.spot)
    }
}

/// Whether there is a kind, and values of it have fields.
fn is_composite(kind: Option<TypeKind>) -> bool
    ensures { result ≡ passes is_composite kind }
{
    matches!(
        kind,
        Some(TypeKind::Object | TypeKind::Interface | TypeKind::Union)
    )
}
