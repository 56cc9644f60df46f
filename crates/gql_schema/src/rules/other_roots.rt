ghost use Rattle.std.specs.Prelude.{◌≡◌, [], map};
ghost use Rattle.gql_model.specs.rules.Places.{place_if};
ghost use Rattle.gql_model.specs.rules.TypeParts.{definitions, schemas};
ghost use Rattle.gql_model.specs.rules.types.OtherRoots.{faulty_root, faulty_roots, is_misused_root};
ghost use Rattle.gql_schema.specs.Seen.{defined};
ghost use Rattle.gql_schema.specs.FirstPlace.{first_place};

use super::in_turn::{RuleInTurn, first_walked};
use super::rule::{Rule, first_among, place_if};
use crate::defined::{Defined, is_object_named};
use crate::roots::first_schema;
use gql_model::{ByName, OperationKind, RootSyntax, TypeDocument, TypeKind};
use gql_tree::Spot;

/// The roots of mutations and subscriptions are object types, and the roots differ (section 3.3.1 of
/// the standard): those that `schema` names, or without a `schema` definition the types `Mutation` and
/// `Subscription` where they are defined.
pub(crate) fn faulty_root(document: &TypeDocument, types: &ByName<Defined<'_>>) -> Option<Spot>
    ensures { result ≡ first_place (faulty_roots (map defined types.now) (schemas (definitions document.now))) }
{
    let rule = OtherRoots { types };
    match first_schema(document) {
        Some(schema) => first_walked(&rule, schema.roots),
        None => first_among(&rule, types.as_slice()),
    }
}

#[derive(Drop)]
struct OtherRoots<'t, 'a> {
    types: &'t ByName<Defined<'a>>,
}

impl<'t, 'a> RuleInTurn<RootSyntax> for OtherRoots<'t, 'a> {
    ghost name_of = { λ r. r.name.name };

    ghost places = { λ it. faulty_root (map defined it.types.now) };

    fn name<'n>(&self, of: &'n RootSyntax) -> &'n str {
        of.name.name.as_str()
    }

    fn first_at(&self, again: bool, of: &RootSyntax) -> Option<Spot> {
        let is_query = matches!(of.kind, OperationKind::Query);
        let fails = again || !is_query && !is_object_named(self.types, of.name.name.as_str());
        place_if(fails, of.name.spot)
    }
}

impl<'t, 'a, 'd> Rule<Defined<'d>> for OtherRoots<'t, 'a> {
    ghost places = { λ it of. place_if (is_misused_root [] (defined of)) of.name.now.spot };

    fn first_in(&self, of: &Defined<'d>) -> Option<Spot> {
        place_if(is_misused_root(of), of.name.spot)
    }
}

/// Whether a type has the name of a root that isn't the query's, and is no object.
fn is_misused_root(of: &Defined<'_>) -> bool
    ensures { result ≡ is_misused_root [] (defined of.now) }
{
    let name = of.name.name.as_str();
    let is_root = "Mutation" == name || "Subscription" == name;
    is_root && !matches!(of.kind, TypeKind::Object)
}
