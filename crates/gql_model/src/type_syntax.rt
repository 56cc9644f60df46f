//! Type definitions as they are written (chapter 3 of the standard of October 2021). Descriptions, directives and the
//! word `repeatable` are read and not kept.

use crate::{Literal, OperationKind, TypeRef};
use gql_tree::{Listed, Spot, Text};

/// A document of type definitions, in order of the text.
#[derive(Debug, Drop)]
pub struct TypeDocument {
    pub definitions: Listed<TypeSyntax>,
}

/// A definition.
#[derive(Debug, Drop)]
pub enum TypeSyntax {
    /// The root operation types (section 3.3.1), and the spot of the word `schema`.
    Schema(Listed<RootSyntax>, Spot),
    /// Section 3.5.
    Scalar(NameAt),
    /// Its name, the interfaces that it is said to implement, and its fields (section 3.6).
    Object(NameAt, Listed<NameAt>, Listed<FieldSyntax>),
    /// The same of an interface (section 3.7).
    Interface(NameAt, Listed<NameAt>, Listed<FieldSyntax>),
    /// Its name and its members (section 3.8).
    Union(NameAt, Listed<NameAt>),
    /// Its name and its values (section 3.9).
    Enum(NameAt, Listed<NameAt>),
    /// Its name and its input fields (section 3.10).
    Input(NameAt, Listed<InputSyntax>),
    /// Its name without `@`, its arguments and its locations (section 3.13).
    Directive(NameAt, Listed<InputSyntax>, Listed<NameAt>),
}

/// A name, with where it stands.
#[derive(Debug, Drop)]
pub struct NameAt {
    pub name: Text,
    pub spot: Spot,
}

/// A root operation type, as `query: Query` (section 3.3.1).
#[derive(Debug, Drop)]
pub struct RootSyntax {
    pub kind: OperationKind,
    /// Of the word `query`, `mutation` or `subscription`.
    pub kind_spot: Spot,
    pub name: NameAt,
}

/// A field of an object or an interface (section 3.6).
#[derive(Debug, Drop)]
pub struct FieldSyntax {
    pub name: NameAt,
    pub arguments: Listed<InputSyntax>,
    pub kind: TypeRef,
}

/// An argument of a field or of a directive, or a field of an input object (sections 3.6.1 and 3.10).
#[derive(Debug, Drop)]
pub struct InputSyntax {
    pub name: NameAt,
    pub kind: TypeRef,
    pub default: Option<Literal>,
}
