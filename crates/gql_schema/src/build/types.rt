//! Types, as execution sees them.

ghost use Rattle.std.specs.Prelude.{◌≡◌, ◌+◌, ◌<◌, suc, [], ◌∷◌, length, map, filter, IfOk};
ghost use Rattle.gql_model.specs.SaidSchema.{seen_type, said_type, number_of, possible_names, is_possible};
ghost use Rattle.gql_model.specs.rules.Places.{names_of};
ghost use Rattle.gql_model.specs.rules.types.DistinctNames.{repeated_names};
ghost use Rattle.gql_model.specs.rules.types.InputCycles.{input_field_count};
ghost use Rattle.gql_schema.specs.Seen.{defined};

use super::fields::{fields_of, inputs_of};
use super::numbers::number_of;
use crate::defined::Defined;
use crate::named::is_among;
use gql_model::{ByName, NameAt, TypeDef, TypeKind, TypeNo};
use gql_tree::{Listed, NoMemory, Text, TryCopy};
use std::alloc::Global;

/// A type that is defined.
pub(crate) fn type_of(
    alloc: Global,
    types: &ByName<Defined<'_>>,
    chain: usize,
    of: &Defined<'_>,
) -> Result<TypeDef, NoMemory>
    requires few { length types.now + 4 < 4294967296 }
    requires names { repeated_names (map defined types.now) ≡ [] }
    requires chain { chain ≡ suc (input_field_count (map defined types.now)) }
    ensures { IfOk result (λ made. seen_type made ≡ said_type (map defined types.now) (defined of.now)) }
{
    Ok(TypeDef {
        name: of.name.name.copy()?,
        kind: of.kind,
        fields: ByName::new(alloc, fields_of(alloc, types, chain, of.fields)?)?,
        inputs: ByName::new(alloc, inputs_of(alloc, types, chain, of.inputs)?)?,
        interfaces: numbers_of(alloc, types, of.implements)?,
        members: possible(alloc, types, of)?,
        values: values_of(alloc, of.values)?,
    })
}

/// The object types that a value of the type may have.
fn possible(
    alloc: Global,
    types: &ByName<Defined<'_>>,
    of: &Defined<'_>,
) -> Result<Listed<TypeNo>, NoMemory>
    requires { length types.now + 4 < 4294967296 }
    ensures { IfOk result (λ made. map (λ t. t.number) made ≡ map (number_of (map defined types.now)) (possible_names (map defined types.now) of.now.kind (defined of.now))) }
{
    match of.kind {
        TypeKind::Object => itself(alloc, types, of),
        TypeKind::Interface => implementers(alloc, types, of.name.name.as_str()),
        TypeKind::Union => numbers_of(alloc, types, of.members),
        _ => Ok(Listed::new(alloc)),
    }
}

/// The number of an object type, which is all that a value of it may have.
fn itself(
    alloc: Global,
    types: &ByName<Defined<'_>>,
    of: &Defined<'_>,
) -> Result<Listed<TypeNo>, NoMemory>
    requires { length types.now + 4 < 4294967296 }
    ensures { IfOk result (λ made. map (λ t. t.number) made ≡ number_of (map defined types.now) of.now.name.now.name ∷ []) }
{
    let mut own = Listed::new(alloc);
    own.push(number_of(types, of.name.name.as_str()))?;
    Ok(own)
}

/// The object types that implement an interface, in order of the text.
fn implementers(
    alloc: Global,
    types: &ByName<Defined<'_>>,
    interface: &str,
) -> Result<Listed<TypeNo>, NoMemory>
    requires { length types.now + 4 < 4294967296 }
    ensures { IfOk result (λ made. map (λ t. t.number) made ≡ map (λ t. number_of (map defined types.now) t.name.name) (filter (is_possible [] interface.now) (map defined types.now))) }
{
    let mut made = Listed::new(alloc);
    for of in types.as_slice() {
        if implements(of, interface) {
            made.push(number_of(types, of.name.name.as_str()))?;
        }
    }
    Ok(made)
}

/// Whether it is an object type that implements an interface.
fn implements(of: &Defined<'_>, interface: &str) -> bool
    ensures { result ≡ is_possible [] interface.now (defined of.now) }
{
    matches!(of.kind, TypeKind::Object) && is_among(of.implements, interface)
}

/// The numbers of the types of these names.
fn numbers_of(
    alloc: Global,
    types: &ByName<Defined<'_>>,
    names: &[NameAt],
) -> Result<Listed<TypeNo>, NoMemory>
    requires { length types.now + 4 < 4294967296 }
    ensures { IfOk result (λ made. map (λ t. t.number) made ≡ map (number_of (map defined types.now)) (names_of names.now)) }
{
    let mut made = Listed::new(alloc);
    for of in names {
        made.push(number_of(types, of.name.as_str()))?;
    }
    Ok(made)
}

/// The values of an enum.
fn values_of(alloc: Global, values: &[NameAt]) -> Result<Listed<Text>, NoMemory>
    ensures { IfOk result (λ made. made ≡ names_of values.now) }
{
    let mut made = Listed::new(alloc);
    for value in values {
        made.push(value.name.copy()?)?;
    }
    Ok(made)
}
