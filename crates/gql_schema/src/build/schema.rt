//! The schema that type definitions say.

ghost use Rattle.std.specs.Prelude.{◌≡◌, ◌+◌, ◌<◌, suc, cond, is_some, [], ◌∷◌, ◌++◌, length, map, Some, None, option_map, codes, IfOk, OnOk};
ghost use Rattle.gql_model.specs.SaidSchema.{seen_schema, said_schema, seen_type, said_type, scalar, number_of, root_named, said_root};
ghost use Rattle.gql_model.specs.rules.TypeParts.{built_in, definitions, schemas, type_named, types as types_in};
ghost use Rattle.gql_model.specs.rules.types.DistinctNames.{repeated_names};
ghost use Rattle.gql_model.specs.rules.types.InputCycles.{input_field_count};
ghost use Rattle.gql_model.specs.rules.types.QueryRoot.{faulty_query};
ghost use Rattle.gql_schema.specs.Seen.{defined};

use super::numbers::number_of;
use super::types::type_of;
use crate::defined::Defined;
use crate::roots::{first_schema, word_of};
use gql_model::{ByName, RootSyntax, Schema, TypeDef, TypeDocument, TypeKind, TypeNo};
use gql_tree::{Listed, NoMemory, Text};
use std::alloc::Global;

/// The schema that type definitions say, where they keep the rules.
pub(crate) fn schema_of(
    alloc: Global,
    document: &TypeDocument,
    types: &ByName<Defined<'_>>,
) -> Result<Schema, NoMemory>
    requires few { length types.now + 4 < 4294967296 }
    requires types { map defined types.now ≡ types_in (definitions document.now) }
    requires names { repeated_names (map defined types.now) ≡ [] }
    requires query { faulty_query (map defined types.now) (schemas (definitions document.now)) ≡ [] }
    ensures { IfOk result (λ made. Some (seen_schema made) ≡ said_schema (definitions document.now)) }
{
    let query = query_of(document, types);
    let mutation = root_of(document, types, "mutation", "Mutation");
    let subscription = root_of(document, types, "subscription", "Subscription");
    Ok(Schema {
        types: ByName::new(alloc, all_types(alloc, types)?)?,
        query,
        mutation,
        subscription,
    })
}

// ---- roots

/// The query root.
fn query_of(document: &TypeDocument, types: &ByName<Defined<'_>>) -> TypeNo
    requires few { length types.now + 4 < 4294967296 }
    requires query { faulty_query (map defined types.now) (schemas (definitions document.now)) ≡ [] }
    ensures { Some result.number ≡ said_root (map defined types.now) (schemas (definitions document.now)) (codes "query") (codes "Query") }
{
    match root_of(document, types, "query", "Query") {
        Some(query) => query,
        None => unreachable!(),
    }
}

/// The root of a kind: by the `schema` definition, or without one the type of the usual name.
fn root_of(
    document: &TypeDocument,
    types: &ByName<Defined<'_>>,
    word: &str,
    usual: &str,
) -> Option<TypeNo>
    requires { length types.now + 4 < 4294967296 }
    ensures { option_map (λ t. t.number) result ≡ said_root (map defined types.now) (schemas (definitions document.now)) word.now usual.now }
{
    match first_schema(document) {
        Some(schema) => root_named(types, schema.roots, word),
        None => usual_root(types, usual),
    }
}

/// What roots name for the kind of a word.
fn root_named(types: &ByName<Defined<'_>>, roots: &[RootSyntax], word: &str) -> Option<TypeNo>
    requires { length types.now + 4 < 4294967296 }
    ensures { option_map (λ t. t.number) result ≡ root_named (map defined types.now) word.now roots.now }
{
    for root in roots {
        if word_of(root.kind) == word {
            return Some(number_of(types, root.name.name.as_str()));
        }
    }
    None
}

/// The type of a root's usual name, where it is defined.
fn usual_root(types: &ByName<Defined<'_>>, usual: &str) -> Option<TypeNo>
    requires { length types.now + 4 < 4294967296 }
    ensures { option_map (λ t. t.number) result ≡ cond (is_some (type_named (map defined types.now) usual.now)) (Some (number_of (map defined types.now) usual.now)) None }
{
    match types.get(usual) {
        Some(_) => Some(number_of(types, usual)),
        None => None,
    }
}

// ---- types

/// The scalars that every service has, then the types that are defined.
fn all_types(alloc: Global, types: &ByName<Defined<'_>>) -> Result<Listed<TypeDef>, NoMemory>
    requires few { length types.now + 4 < 4294967296 }
    requires names { repeated_names (map defined types.now) ≡ [] }
    ensures { IfOk result (λ made. map seen_type made ≡ map scalar built_in ++ map (said_type (map defined types.now)) (map defined types.now)) }
{
    let chain = chain_of(types)?;
    let mut made = scalars(alloc)?;
    for of in types.as_slice() {
        made.push(type_of(alloc, types, chain, of)?)?;
    }
    Ok(made)
}

/// One more than there are input fields: no chain of defaults is longer.
fn chain_of(types: &ByName<Defined<'_>>) -> Result<usize, NoMemory>
    ensures { IfOk result (λ chain. chain ≡ suc (input_field_count (map defined types.now))) }
{
    let mut chain: usize = 1;
    for of in types.as_slice() {
        chain = sum(chain, of.inputs.len())?;
    }
    Ok(chain)
}

/// A sum, where there is room for so many.
fn sum(a: usize, b: usize) -> Result<usize, NoMemory>
    ensures { IfOk result (λ sum. sum ≡ a + b) }
{
    match a.checked_add(b) {
        Some(sum) => Ok(sum),
        None => Err(NoMemory),
    }
}

/// The scalars that every service has.
fn scalars(alloc: Global) -> Result<Listed<TypeDef>, NoMemory>
    ensures { IfOk result (λ made. map seen_type made ≡ map scalar built_in) }
{
    let mut made = Listed::new(alloc);
    push_scalar(alloc, &mut made, "Int")?;
    push_scalar(alloc, &mut made, "String")?;
    push_scalar(alloc, &mut made, "Boolean")?;
    push_scalar(alloc, &mut made, "ID")?;
    Ok(made)
}

fn push_scalar(alloc: Global, made: &mut Listed<TypeDef>, name: &str) -> Result<(), NoMemory>
    ensures { OnOk result (map seen_type made.new ≡ map seen_type made.old ++ scalar name.now ∷ []) }
{
    made.push(scalar(alloc, name)?)
}

/// A type with none of the lists.
fn scalar(alloc: Global, name: &str) -> Result<TypeDef, NoMemory>
    ensures { IfOk result (λ made. seen_type made ≡ scalar name.now) }
{
    Ok(TypeDef {
        name: Text::copy_of(alloc, name)?,
        kind: TypeKind::Scalar,
        fields: ByName::new(alloc, Listed::new(alloc))?,
        inputs: ByName::new(alloc, Listed::new(alloc))?,
        interfaces: Listed::new(alloc),
        members: Listed::new(alloc),
        values: Listed::new(alloc),
    })
}
