//! What a schema's lists hold, by name and by number. Nothing here takes memory.

ghost use Rattle.std.specs.Prelude.{◌≡◌, Some, IfSome};
ghost use Rattle.std.specs.Option.{option_copied};
ghost use Rattle.gql_model.specs.LookUps.{IsNumberOf, type_at, type_no, possible, field, input};

use crate::{FieldDef, HasName, InputDef, Schema, TypeDef, TypeNo};

impl HasName for TypeDef {
    ghost name_of = { λ definition. definition.name };

    fn name(&self) -> &str {
        self.name.as_str()
    }
}

impl HasName for FieldDef {
    ghost name_of = { λ field. field.name };

    fn name(&self) -> &str {
        self.name.as_str()
    }
}

impl HasName for InputDef {
    ghost name_of = { λ input. input.name };

    fn name(&self) -> &str {
        self.name.as_str()
    }
}

/// A number that a method takes is that of a type of this schema.
impl Schema {
    /// The number of the first type of this name.
    pub fn type_no(&self, name: &str) -> Option<TypeNo>
        ensures number { result ≡ type_no self.now name.now }
        ensures within { IfSome result (IsNumberOf self.now) }
    {
        match self.types.place(name) {
            Some(place) => Some(TypeNo {
                number: place as u32,
            }),
            None => None,
        }
    }

    /// The object types that a value of this type may have: those that implement an interface, the
    /// members of a union, and an object type itself. Other types have none.
    pub fn possible(&self, of: TypeNo) -> &[TypeNo]
        requires { IsNumberOf self.now of }
        ensures { possible self.now of ≡ Some result.now }
    {
        self.type_at(of).members.as_slice()
    }

    /// The first field of this name of an object or an interface. Other types have none.
    pub fn field(&self, of: TypeNo, name: &str) -> Option<&FieldDef>
        requires { IsNumberOf self.now of }
        ensures { option_copied result ≡ field self.now of name.now }
    {
        self.type_at(of).fields.get(name)
    }

    /// The first field of this name of an input object. Other types have none.
    pub fn input(&self, of: TypeNo, name: &str) -> Option<&InputDef>
        requires { IsNumberOf self.now of }
        ensures { option_copied result ≡ input self.now of name.now }
    {
        self.type_at(of).inputs.get(name)
    }

    fn type_at(&self, of: TypeNo) -> &TypeDef
        requires { IsNumberOf self.now of }
        ensures { type_at self.now of ≡ Some result.now }
    {
        &self.types.as_slice()[of.number as usize]
    }
}
