ghost use Rattle.std.specs.Prelude.{◌≡◌, ◌++◌};
ghost use Rattle.gql_model.specs.rules.Places.{place_if};
ghost use Rattle.gql_model.specs.rules.TypeParts.{definitions, schemas};
ghost use Rattle.gql_model.specs.rules.types.OneSchema.{repeated_kinds, repeated_schemas, word_of};
ghost use Rattle.gql_schema.specs.FirstPlace.{first_place};

use super::in_turn::{RuleInTurn, first_walked};
use super::rule::place_if;
use crate::roots::{Roots, schema_in, word_of};
use gql_model::{RootSyntax, TypeDocument};
use gql_tree::Spot;

/// There is at most one `schema` definition, and it names each kind of operation at most once
/// (sections 3.3 and 3.3.1 of the standard).
pub(crate) fn repeated_schema(document: &TypeDocument) -> Option<Spot>
    ensures { result ≡ first_place (repeated_schemas (schemas (definitions document.now))) }
{
    let mut before = false;
    for definition in document.definitions.as_slice() {
        if let Some(schema) = schema_in(definition) {
            if let Some(spot) = repeated_at(before, &schema) {
                return Some(spot);
            }
            before = true;
        }
    }
    None
}

/// In a `schema` definition, by whether one stands before.
fn repeated_at(before: bool, schema: &Roots<'_>) -> Option<Spot>
    ensures { result ≡ first_place (place_if before schema.now.word ++ repeated_kinds schema.now.roots.now) }
{
    place_if(before, schema.word).or(first_walked(&OneSchema, schema.roots))
}

#[derive(Drop)]
struct OneSchema;

impl RuleInTurn<RootSyntax> for OneSchema {
    ghost name_of = { λ r. word_of r.kind };

    ghost places = { λ it again r. place_if again r.kind_spot };

    fn name<'n>(&self, of: &'n RootSyntax) -> &'n str {
        word_of(of.kind)
    }

    fn first_at(&self, again: bool, of: &RootSyntax) -> Option<Spot> {
        place_if(again, of.kind_spot)
    }
}
