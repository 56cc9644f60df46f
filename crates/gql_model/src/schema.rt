//! The types of a service, as execution sees them (chapter 3 of the standard of October 2021).

use crate::{Boxed, ByName};
use gql_tree::{Listed, Text, Value};

/// A type by its place among the types of its schema, from 0.
#[derive(Clone, Copy, Debug, PartialEq, Eq)]
pub struct TypeNo {
    pub number: u32,
}

/// A type as a field, an argument or a variable uses it (section 3.11 and 3.12 of the standard).
#[derive(Debug, Drop)]
pub enum TypeUse {
    Named(TypeNo),
    List(Boxed<TypeUse>),
    NonNull(Boxed<TypeUse>),
}

#[derive(Clone, Copy, Debug, PartialEq, Eq)]
pub enum TypeKind {
    Scalar,
    Object,
    Interface,
    Union,
    Enum,
    Input,
}

/// An argument of a field, or a field of an input object.
#[derive(Debug, Drop)]
pub struct InputDef {
    pub name: Text,
    pub kind: TypeUse,
    pub default: Option<Value>,
}

#[derive(Debug, Drop)]
pub struct FieldDef {
    pub name: Text,
    pub arguments: Listed<InputDef>,
    pub kind: TypeUse,
}

/// A named type. Lists that its kind doesn't have are empty.
#[derive(Debug, Drop)]
pub struct TypeDef {
    pub name: Text,
    pub kind: TypeKind,
    pub fields: ByName<FieldDef>,
    /// The fields of an input object.
    pub inputs: ByName<InputDef>,
    pub interfaces: Listed<TypeNo>,
    /// The object types that a value of this type may have: those of a union or an interface,
    /// and of an object type itself.
    pub members: Listed<TypeNo>,
    /// The values of an enum.
    pub values: Listed<Text>,
}

/// The types of a service, the built-in scalars among them, and its root types.
#[derive(Debug, Drop)]
pub struct Schema {
    pub types: ByName<TypeDef>,
    pub query: TypeNo,
    pub mutation: Option<TypeNo>,
    pub subscription: Option<TypeNo>,
}
