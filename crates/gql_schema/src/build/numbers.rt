//! The numbers of types, and types in use by them.

ghost use Rattle.std.specs.Prelude.{◌≡◌, ◌+◌, ◌<◌, ◌≤◌, length, map, IfOk};
ghost use Rattle.gql_model.specs.UsedType.{used_type_of};
ghost use Rattle.gql_model.specs.SaidSchema.{number_of, place_in, use_of};
ghost use Rattle.gql_model.specs.rules.References.{reference};
ghost use Rattle.gql_model.specs.rules.TypeParts.{built_in};
ghost use Rattle.gql_schema.specs.Seen.{defined};

use crate::defined::Defined;
use gql_model::{Boxed, ByName, TypeNo, TypeRef, TypeUse};
use gql_tree::NoMemory;
use std::alloc::Global;

/// How many scalars every service has.
pub(crate) const BUILT_IN: u32 = 4;

/// The number of the type of a name: the scalars that every service has come first. Where there is no
/// such type, how many there are.
pub(crate) fn number_of(types: &ByName<Defined<'_>>, name: &str) -> TypeNo
    requires { length types.now + 4 < 4294967296 }
    ensures { result.number ≡ number_of (map defined types.now) name.now }
{
    let scalar = built_in_place(name);
    if scalar < BUILT_IN {
        TypeNo { number: scalar }
    } else {
        TypeNo {
            number: BUILT_IN + defined_place(types, name),
        }
    }
}

/// The place of a scalar that every service has, and how many those are where it is another name.
fn built_in_place(name: &str) -> u32
    ensures { result ≡ place_in built_in name.now }
{
    if "Int" == name {
        0
    } else if "String" == name {
        1
    } else if "Boolean" == name {
        2
    } else if "ID" == name {
        3
    } else {
        BUILT_IN
    }
}

/// The place of a type that is defined, and how many those are where it isn't one of them.
pub(crate) fn defined_place(types: &ByName<Defined<'_>>, name: &str) -> u32
    ensures place { result ≡ place_in (map (λ d. d.name.name) (map defined types.now)) name.now }
    ensures within { result ≤ length types.now }
{
    match types.place(name) {
        Some(place) => place as u32,
        None => types.as_slice().len() as u32,
    }
}

/// A type in use, by the numbers of types.
pub(crate) fn use_of(
    alloc: Global,
    types: &ByName<Defined<'_>>,
    kind: &TypeRef,
) -> Result<TypeUse, NoMemory>
    requires { length types.now + 4 < 4294967296 }
    ensures { IfOk result (λ made. used_type_of made ≡ use_of (map defined types.now) (reference kind.now)) }
{
    match kind {
        TypeRef::Named(name, _) => Ok(TypeUse::Named(number_of(types, name.as_str()))),
        TypeRef::List(item) => {
            let item = use_of(alloc, types, item.get())?;
            Ok(TypeUse::List(Boxed::new(alloc, item)?))
        }
        TypeRef::NonNull(inner) => {
            let inner = use_of(alloc, types, inner.get())?;
            Ok(TypeUse::NonNull(Boxed::new(alloc, inner)?))
        }
    }
}
