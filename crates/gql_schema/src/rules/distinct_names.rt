ghost use Rattle.std.specs.Prelude.{◌≡◌, map};
ghost use Rattle.gql_model.specs.rules.Places.{place_if, repeats};
ghost use Rattle.gql_model.specs.rules.TypeParts.{field_of};
ghost use Rattle.gql_model.specs.rules.types.DistinctNames.{repeated_at_field, repeated_in, repeated_names};
ghost use Rattle.gql_schema.specs.Seen.{defined};
ghost use Rattle.gql_schema.specs.FirstPlace.{first_place};

use super::in_turn::{RuleInTurn, first_in_turn};
use super::rule::{Rule, first_among, place_if};
use crate::defined::Defined;
use gql_model::{FieldSyntax, InputSyntax, NameAt};
use gql_tree::Spot;
use std::alloc::Global;

/// Names in one list of fields, arguments, enum values or input fields are distinct (sections 3.6,
/// 3.6.1, 3.9 and 3.10 of the standard).
pub(crate) fn repeated_name(alloc: Global, types: &[Defined<'_>]) -> Option<Spot>
    ensures { result ≡ first_place (repeated_names (map defined types.now)) }
{
    first_among(&DistinctNames { alloc }, types)
}

#[derive(Drop)]
struct DistinctNames {
    alloc: Global,
}

impl<'a> Rule<Defined<'a>> for DistinctNames {
    ghost places = { λ it of. repeated_in (defined of) };

    fn first_in(&self, of: &Defined<'a>) -> Option<Spot> {
        first_in_turn(self.alloc, self, of.fields)
            .or(first_in_turn(self.alloc, self, of.inputs))
            .or(first_in_turn(self.alloc, self, of.values))
    }
}

impl RuleInTurn<FieldSyntax> for DistinctNames {
    ghost name_of = { λ f. f.name.name };

    ghost places = { λ it again f. repeated_at_field again (field_of f) };

    fn name<'n>(&self, of: &'n FieldSyntax) -> &'n str {
        of.name.name.as_str()
    }

    fn first_at(&self, again: bool, of: &FieldSyntax) -> Option<Spot> {
        place_if(again, of.name.spot).or(first_in_turn(self.alloc, self, of.arguments.as_slice()))
    }
}

impl RuleInTurn<InputSyntax> for DistinctNames {
    ghost name_of = { λ i. i.name.name };

    ghost places = { λ it again i. place_if again i.name.spot };

    fn name<'n>(&self, of: &'n InputSyntax) -> &'n str {
        of.name.name.as_str()
    }

    fn first_at(&self, again: bool, of: &InputSyntax) -> Option<Spot> {
        place_if(again, of.name.spot)
    }
}

impl RuleInTurn<NameAt> for DistinctNames {
    ghost name_of = { λ n. n.name };

    ghost places = { λ it again n. place_if again n.spot };

    fn name<'n>(&self, of: &'n NameAt) -> &'n str {
        of.name.as_str()
    }

    fn first_at(&self, again: bool, of: &NameAt) -> Option<Spot> {
        place_if(again, of.spot)
    }
}
