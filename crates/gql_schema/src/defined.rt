//! The types that a document defines.

ghost use Rattle.std.specs.Prelude.{◌≡◌, Some, None, cond, map, IfOk, option_map, option_and_then};
ghost use Rattle.gql_model.specs.rules.Places.{names_of, stands_in};
ghost use Rattle.gql_model.specs.rules.TypeParts.{bare, built_in, definition_of, field_of, input_of, definitions, fields_of, has_kind, inputs_of, interfaces_of, is_input, is_interface, is_object, members_named, type_in, type_named, types, values_of};
ghost use Rattle.gql_schema.specs.Seen.{defined, existing_among, input_object};

use gql_model::{
    ByName, FieldSyntax, HasName, InputSyntax, NameAt, TypeDocument, TypeKind, TypeSyntax,
};
use gql_tree::{Listed, NoMemory};
use std::alloc::Global;

/// A type's definition. Lists that its kind doesn't have are empty.
#[derive(Drop)]
pub(crate) struct Defined<'a> {
    pub name: &'a NameAt,
    pub kind: TypeKind,
    pub implements: &'a [NameAt],
    pub fields: &'a [FieldSyntax],
    pub inputs: &'a [InputSyntax],
    pub members: &'a [NameAt],
    pub values: &'a [NameAt],
}

impl<'a> HasName for Defined<'a> {
    ghost name_of = { λ of. of.name.now.name };

    fn name(&self) -> &str {
        self.name.name.as_str()
    }
}

/// The types that a document defines, in order of the text, and by name.
pub(crate) fn types_of(
    alloc: Global,
    document: &TypeDocument,
) -> Result<ByName<Defined<'_>>, NoMemory>
    ensures { IfOk result (λ ts. map defined ts ≡ types (definitions document.now)) }
{
    let listed = listed_types(alloc, document)?;
    ByName::new(alloc, listed)
}

fn listed_types(alloc: Global, document: &TypeDocument) -> Result<Listed<Defined<'_>>, NoMemory>
    ensures { IfOk result (λ ts. map defined ts ≡ types (definitions document.now)) }
{
    let mut found = Listed::new(alloc);
    for definition in document.definitions.as_slice() {
        if let Some(of) = defined_in(definition) {
            found.push(of)?;
        }
    }
    Ok(found)
}

/// The type that a definition defines, if it defines one.
pub(crate) fn defined_in(definition: &TypeSyntax) -> Option<Defined<'_>>
    ensures { option_map defined result ≡ option_and_then type_in (definition_of definition.now) }
{
    match definition {
        TypeSyntax::Scalar(name) => Some(bare(name, TypeKind::Scalar)),
        TypeSyntax::Object(name, implemented, fields) => Some(Defined {
            implements: implemented.as_slice(),
            fields: fields.as_slice(),
            ..bare(name, TypeKind::Object)
        }),
        TypeSyntax::Interface(name, implemented, fields) => Some(Defined {
            implements: implemented.as_slice(),
            fields: fields.as_slice(),
            ..bare(name, TypeKind::Interface)
        }),
        TypeSyntax::Union(name, members) => Some(Defined {
            members: members.as_slice(),
            ..bare(name, TypeKind::Union)
        }),
        TypeSyntax::Enum(name, values) => Some(Defined {
            values: values.as_slice(),
            ..bare(name, TypeKind::Enum)
        }),
        TypeSyntax::Input(name, inputs) => Some(Defined {
            inputs: inputs.as_slice(),
            ..bare(name, TypeKind::Input)
        }),
        TypeSyntax::Schema(_, _) | TypeSyntax::Directive(_, _, _) => None,
    }
}

/// A type with none of the lists.
fn bare(name: &NameAt, kind: TypeKind) -> Defined<'_>
    ensures { defined result ≡ bare name.now kind }
{
    Defined {
        name,
        kind,
        implements: &[],
        fields: &[],
        inputs: &[],
        members: &[],
        values: &[],
    }
}

/// The kind of the type of a name, if one is defined.
pub(crate) fn kind_named(types: &ByName<Defined<'_>>, name: &str) -> Option<TypeKind>
    ensures { result ≡ option_map (λ d. d.kind) (type_named (map defined types.now) name.now) }
{
    match types.get(name) {
        Some(of) => Some(of.kind),
        None => None,
    }
}

pub(crate) fn is_object_named(types: &ByName<Defined<'_>>, name: &str) -> bool
    ensures { result ≡ has_kind (map defined types.now) is_object name.now }
{
    matches!(kind_named(types, name), Some(TypeKind::Object))
}

pub(crate) fn is_interface_named(types: &ByName<Defined<'_>>, name: &str) -> bool
    ensures { result ≡ has_kind (map defined types.now) is_interface name.now }
{
    matches!(kind_named(types, name), Some(TypeKind::Interface))
}

pub(crate) fn is_input_named(types: &ByName<Defined<'_>>, name: &str) -> bool
    ensures { result ≡ has_kind (map defined types.now) is_input name.now }
{
    matches!(kind_named(types, name), Some(TypeKind::Input))
}

/// The names that a type of this name implements.
pub(crate) fn interfaces_of<'a>(types: &ByName<Defined<'a>>, name: &str) -> &'a [NameAt]
    ensures { names_of result.now ≡ interfaces_of (map defined types.now) name.now }
{
    match types.get(name) {
        Some(of) => of.implements,
        None => &[],
    }
}

/// The members of a type of this name.
pub(crate) fn members_of<'a>(types: &ByName<Defined<'a>>, name: &str) -> &'a [NameAt]
    ensures { names_of result.now ≡ members_named (map defined types.now) name.now }
{
    match types.get(name) {
        Some(of) => of.members,
        None => &[],
    }
}

/// The values of a type of this name.
pub(crate) fn values_of<'a>(types: &ByName<Defined<'a>>, name: &str) -> &'a [NameAt]
    ensures { names_of result.now ≡ values_of (map defined types.now) name.now }
{
    match types.get(name) {
        Some(of) => of.values,
        None => &[],
    }
}

/// The fields of a type of this name.
pub(crate) fn fields_of<'a>(types: &ByName<Defined<'a>>, name: &str) -> &'a [FieldSyntax]
    ensures { map field_of result.now ≡ fields_of (map defined types.now) name.now }
{
    match types.get(name) {
        Some(of) => of.fields,
        None => &[],
    }
}

/// The input fields of a type of this name.
pub(crate) fn inputs_of<'a>(types: &ByName<Defined<'a>>, name: &str) -> &'a [InputSyntax]
    ensures { map input_of result.now ≡ inputs_of (map defined types.now) name.now }
{
    match types.get(name) {
        Some(of) => of.inputs,
        None => &[],
    }
}

/// The fields of the input object of this name, if there is one.
pub(crate) fn input_object<'a>(types: &ByName<Defined<'a>>, name: &str) -> Option<&'a [InputSyntax]>
    ensures { option_map (λ fields. map input_of fields.now) result ≡ input_object (map defined types.now) name.now }
{
    match types.get(name) {
        Some(of) => if_input(of),
        None => None,
    }
}

/// The fields of a type, if it is an input object.
fn if_input<'a>(of: &Defined<'a>) -> Option<&'a [InputSyntax]>
    ensures { option_map (λ fields. map input_of fields.now) result ≡ cond (is_input of.now.kind) (Some (map input_of of.now.inputs.now)) None }
{
    if matches!(of.kind, TypeKind::Input) {
        Some(of.inputs)
    } else {
        None
    }
}

/// Whether there is a type of the name, among the scalars that every service has too.
pub(crate) fn exists(types: &ByName<Defined<'_>>, name: &str) -> bool
    ensures { result ≡ stands_in name.now (existing_among (map defined types.now)) }
{
    is_built_in(name) || types.get(name).is_some()
}

/// Whether it is a scalar that every service has (section 3.5 of the standard).
pub(crate) fn is_built_in(name: &str) -> bool
    ensures { result ≡ stands_in name.now built_in }
{
    "Int" == name || "String" == name || "Boolean" == name || "ID" == name
}
