//! Copies of type definitions as they are written.

use crate::{FieldSyntax, InputSyntax, NameAt, RootSyntax, TypeDocument, TypeSyntax};
use gql_tree::{NoMemory, TryCopy};

impl TryCopy for TypeDocument {
    fn copy(&self) -> Result<Self, NoMemory> {
        Ok(TypeDocument {
            definitions: self.definitions.copy()?,
        })
    }
}

impl TryCopy for TypeSyntax {
    fn copy(&self) -> Result<Self, NoMemory> {
        match self {
            TypeSyntax::Schema(roots, spot) => Ok(TypeSyntax::Schema(roots.copy()?, *spot)),
            TypeSyntax::Scalar(name) => Ok(TypeSyntax::Scalar(name.copy()?)),
            TypeSyntax::Object(name, implemented, fields) => Ok(TypeSyntax::Object(
                name.copy()?,
                implemented.copy()?,
                fields.copy()?,
            )),
            TypeSyntax::Interface(name, implemented, fields) => Ok(TypeSyntax::Interface(
                name.copy()?,
                implemented.copy()?,
                fields.copy()?,
            )),
            TypeSyntax::Union(name, members) => {
                Ok(TypeSyntax::Union(name.copy()?, members.copy()?))
            }
            TypeSyntax::Enum(name, values) => Ok(TypeSyntax::Enum(name.copy()?, values.copy()?)),
            TypeSyntax::Input(name, fields) => Ok(TypeSyntax::Input(name.copy()?, fields.copy()?)),
            TypeSyntax::Directive(name, arguments, locations) => Ok(TypeSyntax::Directive(
                name.copy()?,
                arguments.copy()?,
                locations.copy()?,
            )),
        }
    }
}

impl TryCopy for NameAt {
    fn copy(&self) -> Result<Self, NoMemory> {
        Ok(NameAt {
            name: self.name.copy()?,
            spot: self.spot,
        })
    }
}

impl TryCopy for RootSyntax {
    fn copy(&self) -> Result<Self, NoMemory> {
        Ok(RootSyntax {
            kind: self.kind,
            kind_spot: self.kind_spot,
            name: self.name.copy()?,
        })
    }
}

impl TryCopy for FieldSyntax {
    fn copy(&self) -> Result<Self, NoMemory> {
        Ok(FieldSyntax {
            name: self.name.copy()?,
            arguments: self.arguments.copy()?,
            kind: self.kind.copy()?,
        })
    }
}

impl TryCopy for InputSyntax {
    fn copy(&self) -> Result<Self, NoMemory> {
        Ok(InputSyntax {
            name: self.name.copy()?,
            kind: self.kind.copy()?,
            default: self.default.copy()?,
        })
    }
}
