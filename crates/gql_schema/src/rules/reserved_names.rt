ghost use Rattle.std.specs.Prelude.{◌≡◌, map};
ghost use Rattle.gql_model.specs.rules.Places.{place_if, faults};
ghost use Rattle.gql_model.specs.rules.TypeParts.{field_of};
ghost use Rattle.gql_model.specs.rules.types.ReservedNames.{names_in, names_in_field, is_reserved, reserved_names};
ghost use Rattle.gql_schema.specs.Seen.{defined};
ghost use Rattle.gql_schema.specs.FirstPlace.{first_place};

use super::rule::{Rule, first_among, place_if};
use crate::defined::Defined;
use gql_model::{FieldSyntax, InputSyntax, NameAt};
use gql_tree::Spot;

/// No name begins with `__` (section 2.1.8 of the standard): of a type, a field, an argument, an enum
/// value or an input field.
pub(crate) fn reserved_name(types: &[Defined<'_>]) -> Option<Spot>
    ensures { result ≡ first_place (reserved_names (map defined types.now)) }
{
    first_among(&ReservedNames, types)
}

#[derive(Drop)]
struct ReservedNames;

impl<'a> Rule<Defined<'a>> for ReservedNames {
    ghost places = { λ it of. faults is_reserved (names_in (defined of)) };

    fn first_in(&self, of: &Defined<'a>) -> Option<Spot> {
        self.first_in(of.name)
            .or(first_among(self, of.fields))
            .or(first_among(self, of.inputs))
            .or(first_among(self, of.values))
    }
}

impl Rule<FieldSyntax> for ReservedNames {
    ghost places = { λ it of. faults is_reserved (names_in_field (field_of of)) };

    fn first_in(&self, of: &FieldSyntax) -> Option<Spot> {
        self.first_in(&of.name)
            .or(first_among(self, of.arguments.as_slice()))
    }
}

impl Rule<InputSyntax> for ReservedNames {
    ghost places = { λ it of. place_if (is_reserved of.name) of.name.spot };

    fn first_in(&self, of: &InputSyntax) -> Option<Spot> {
        self.first_in(&of.name)
    }
}

impl Rule<NameAt> for ReservedNames {
    ghost places = { λ it of. place_if (is_reserved of) of.spot };

    fn first_in(&self, of: &NameAt) -> Option<Spot> {
        place_if(is_reserved(of), of.spot)
    }
}

fn is_reserved(of: &NameAt) -> bool
    ensures { result ≡ is_reserved of.now }
{
    of.name.as_str().as_bytes().starts_with(b"__")
}
