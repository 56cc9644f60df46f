//! Copies of a schema and its parts.

ghost use Rattle.std.specs.Prelude.{◌≡◌, IfOk};

use crate::{FieldDef, InputDef, Schema, TypeDef, TypeNo, TypeUse};
use gql_tree::{NoMemory, TryCopy};

impl TryCopy for Schema {
    fn copy(&self) -> Result<Self, NoMemory> {
        Ok(Schema {
            types: self.types.copy()?,
            query: self.query,
            mutation: self.mutation,
            subscription: self.subscription,
        })
    }
}

impl TryCopy for TypeDef {
    fn copy(&self) -> Result<Self, NoMemory> {
        Ok(TypeDef {
            name: self.name.copy()?,
            kind: self.kind,
            fields: self.fields.copy()?,
            inputs: self.inputs.copy()?,
            interfaces: self.interfaces.copy()?,
            members: self.members.copy()?,
            values: self.values.copy()?,
        })
    }
}

impl TryCopy for FieldDef {
    fn copy(&self) -> Result<Self, NoMemory> {
        Ok(FieldDef {
            name: self.name.copy()?,
            arguments: self.arguments.copy()?,
            kind: self.kind.copy()?,
        })
    }
}

impl TryCopy for InputDef {
    fn copy(&self) -> Result<Self, NoMemory> {
        Ok(InputDef {
            name: self.name.copy()?,
            kind: self.kind.copy()?,
            default: self.default.copy()?,
        })
    }
}

impl TryCopy for TypeNo {
    fn copy(&self) -> Result<Self, NoMemory> {
        Ok(*self)
    }
}

impl TryCopy for TypeUse {
    fn copy(&self) -> Result<Self, NoMemory> {
        self.copied()
    }
}

impl TypeUse {
    fn copied(&self) -> Result<TypeUse, NoMemory>
        ensures { IfOk result (λ copy. copy ≡ self.now) }
    {
        match self {
            TypeUse::Named(of) => Ok(TypeUse::Named(*of)),
            TypeUse::List(item) => Ok(TypeUse::List(item.new_like(item.get().copied()?)?)),
            TypeUse::NonNull(inner) => {
                Ok(TypeUse::NonNull(inner.new_like(inner.get().copied()?)?))
            }
        }
    }
}
