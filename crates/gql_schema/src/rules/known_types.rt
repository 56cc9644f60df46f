ghost use Rattle.std.specs.Prelude.{◌≡◌, not, map};
ghost use Rattle.gql_model.specs.rules.Places.{place_if, stands_in, faults};
ghost use Rattle.gql_model.specs.rules.References.{reference, innermost};
ghost use Rattle.gql_model.specs.rules.TypeParts.{definition_of, definitions, field_of, types as types_in};
ghost use Rattle.gql_model.specs.rules.types.KnownTypes.{unknown_types, used_by_field};
ghost use Rattle.gql_schema.specs.Seen.{defined, existing_among, unknown_used, used_by_type};
ghost use Rattle.gql_schema.specs.FirstPlace.{first_place};

use super::rule::{Rule, first_among, place_if};
use crate::defined::{Defined, defined_in, exists};
use crate::used::innermost;
use gql_model::{ByName, FieldSyntax, InputSyntax, NameAt, RootSyntax, TypeDocument, TypeSyntax};
use gql_tree::Spot;

/// Every type that is named exists (section 3.4 of the standard): as a root, an implemented interface, a
/// member of a union, or as what the type of a field, an argument or an input field is built on.
pub(crate) fn unknown_type(document: &TypeDocument, types: &ByName<Defined<'_>>) -> Option<Spot>
    requires { map defined types.now ≡ types_in (definitions document.now) }
    ensures { result ≡ first_place (unknown_types (definitions document.now)) }
{
    first_among(&KnownTypes { types }, document.definitions.as_slice())
}

#[derive(Drop)]
struct KnownTypes<'t, 'a> {
    types: &'t ByName<Defined<'a>>,
}

impl<'t, 'a> Rule<TypeSyntax> for KnownTypes<'t, 'a> {
    ghost places = { λ it definition. unknown_used (map defined it.types.now) (definition_of definition) };

    fn first_in(&self, of: &TypeSyntax) -> Option<Spot> {
        match of {
            TypeSyntax::Schema(roots, _) => first_among(self, roots.as_slice()),
            _ => match defined_in(of) {
                Some(of) => self.first_in(&of),
                None => None,
            },
        }
    }
}

impl<'t, 'a, 'd> Rule<Defined<'d>> for KnownTypes<'t, 'a> {
    ghost places = { λ it of. faults (λ n. not (stands_in n.name (existing_among (map defined it.types.now)))) (used_by_type (defined of)) };

    fn first_in(&self, of: &Defined<'d>) -> Option<Spot> {
        first_among(self, of.implements)
            .or(first_among(self, of.fields))
            .or(first_among(self, of.members))
            .or(first_among(self, of.inputs))
    }
}

impl<'t, 'a> Rule<FieldSyntax> for KnownTypes<'t, 'a> {
    ghost places = { λ it of. faults (λ n. not (stands_in n.name (existing_among (map defined it.types.now)))) (used_by_field (field_of of)) };

    fn first_in(&self, of: &FieldSyntax) -> Option<Spot> {
        let used = innermost(&of.kind);
        let unknown = place_if(!exists(self.types, used.name), used.spot);
        first_among(self, of.arguments.as_slice()).or(unknown)
    }
}

impl<'t, 'a> Rule<InputSyntax> for KnownTypes<'t, 'a> {
    ghost places = { λ it of. place_if (not (stands_in (innermost (reference of.kind)).name (existing_among (map defined it.types.now)))) (innermost (reference of.kind)).spot };

    fn first_in(&self, of: &InputSyntax) -> Option<Spot> {
        let used = innermost(&of.kind);
        place_if(!exists(self.types, used.name), used.spot)
    }
}

impl<'t, 'a> Rule<RootSyntax> for KnownTypes<'t, 'a> {
    ghost places = { λ it of. place_if (not (stands_in of.name.name (existing_among (map defined it.types.now)))) of.name.spot };

    fn first_in(&self, of: &RootSyntax) -> Option<Spot> {
        self.first_in(&of.name)
    }
}

impl<'t, 'a> Rule<NameAt> for KnownTypes<'t, 'a> {
    ghost places = { λ it of. place_if (not (stands_in of.name (existing_among (map defined it.types.now)))) of.spot };

    fn first_in(&self, of: &NameAt) -> Option<Spot> {
        place_if(!exists(self.types, of.name.as_str()), of.spot)
    }
}
