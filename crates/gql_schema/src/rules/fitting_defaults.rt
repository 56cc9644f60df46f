ghost use Rattle.std.specs.Prelude.{◌≡◌, map, flat_map};
ghost use Rattle.gql_model.specs.rules.TypeParts.{field_of, input_of, inputs_in};
ghost use Rattle.gql_model.specs.rules.types.FittingDefaults.{default_places, misfitting_defaults};
ghost use Rattle.gql_schema.specs.Seen.{defined};
ghost use Rattle.gql_schema.specs.FirstPlace.{first_place};

use super::fitting::misfit;
use super::rule::{Rule, first_among};
use crate::defined::Defined;
use gql_model::{ByName, FieldSyntax, InputSyntax};
use gql_tree::Spot;

/// A default fits its type (sections 3.6.1 and 3.10 of the standard).
pub(crate) fn misfitting_default(types: &ByName<Defined<'_>>) -> Option<Spot>
    ensures { result ≡ first_place (misfitting_defaults (map defined types.now)) }
{
    first_among(&FittingDefaults { types }, types.as_slice())
}

#[derive(Drop)]
struct FittingDefaults<'t, 'a> {
    types: &'t ByName<Defined<'a>>,
}

impl<'t, 'a, 'd> Rule<Defined<'d>> for FittingDefaults<'t, 'a> {
    ghost places = { λ it of. flat_map (default_places (map defined it.types.now)) (inputs_in (defined of)) };

    fn first_in(&self, of: &Defined<'d>) -> Option<Spot> {
        first_among(self, of.fields).or(first_among(self, of.inputs))
    }
}

impl<'t, 'a> Rule<FieldSyntax> for FittingDefaults<'t, 'a> {
    ghost places = { λ it of. flat_map (default_places (map defined it.types.now)) (map input_of of.arguments) };

    fn first_in(&self, of: &FieldSyntax) -> Option<Spot> {
        first_among(self, of.arguments.as_slice())
    }
}

impl<'t, 'a> Rule<InputSyntax> for FittingDefaults<'t, 'a> {
    ghost places = { λ it of. default_places (map defined it.types.now) (input_of of) };

    fn first_in(&self, of: &InputSyntax) -> Option<Spot> {
        match &of.default {
            Some(literal) => misfit(self.types, literal, &of.kind),
            None => None,
        }
    }
}
