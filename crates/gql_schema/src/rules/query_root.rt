ghost use Rattle.std.specs.Prelude.{◌≡◌, [], codes, map};
ghost use Rattle.gql_model.specs.rules.TypeParts.{definitions, schemas, type_named};
ghost use Rattle.gql_model.specs.rules.types.QueryRoot.{faulty_query, misnamed_query, missing_query};
ghost use Rattle.gql_schema.specs.Seen.{defined};
ghost use Rattle.gql_schema.specs.FirstPlace.{first_place};

use super::rule::place_if;
use crate::defined::{Defined, is_object_named};
use crate::roots::{Roots, first_schema};
use gql_model::{ByName, OperationKind, TypeDocument, TypeKind};
use gql_tree::Spot;

/// The query root exists and is an object type (section 3.3.1 of the standard): the one that `schema`
/// names, or without a `schema` definition the type `Query`.
pub(crate) fn faulty_query(document: &TypeDocument, types: &ByName<Defined<'_>>) -> Option<Spot>
    ensures { result ≡ first_place (faulty_query (map defined types.now) (schemas (definitions document.now))) }
{
    match first_schema(document) {
        Some(schema) => misnamed_query(types, &schema),
        None => missing_query(types),
    }
}

/// In a `schema` definition.
fn misnamed_query(types: &ByName<Defined<'_>>, schema: &Roots<'_>) -> Option<Spot>
    ensures { result ≡ first_place (misnamed_query (map defined types.now) schema.now.word schema.now.roots.now) }
{
    for root in schema.roots {
        if matches!(root.kind, OperationKind::Query) {
            let fails = !is_object_named(types, root.name.name.as_str());
            return place_if(fails, root.name.spot);
        }
    }
    Some(schema.word)
}

/// Without one.
fn missing_query(types: &ByName<Defined<'_>>) -> Option<Spot>
    ensures { result ≡ first_place (missing_query [] (type_named (map defined types.now) (codes "Query"))) }
{
    match types.get("Query") {
        Some(of) => place_if(!matches!(of.kind, TypeKind::Object), of.name.spot),
        None => Some(Spot { line: 1, column: 1 }),
    }
}
