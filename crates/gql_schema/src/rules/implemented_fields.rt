ghost use Rattle.std.specs.Prelude.{◌≡◌, ◌&&◌, not, map};
ghost use Rattle.std.specs.Str.{bytes_eq};
ghost use Rattle.gql_model.specs.rules.Places.{stands_in};
ghost use Rattle.gql_model.specs.rules.References.{reference};
ghost use Rattle.gql_model.specs.rules.TypeParts.{field_of};
ghost use Rattle.gql_model.specs.rules.types.ImplementedFields.{faulty_field, holds, is_misfit, is_subtype, lacks_field, unimplemented_fields, unimplemented_in};
ghost use Rattle.gql_schema.specs.Seen.{defined};
ghost use Rattle.gql_schema.specs.FirstPlace.{first_place};

use super::interface_fields::{FieldTest, any_interface_field};
use super::rule::{Rule, first_among, place_if};
use crate::defined::{Defined, interfaces_of, members_of};
use crate::named::is_among;
use gql_model::{ByName, FieldSyntax, TypeRef};
use gql_tree::Spot;

/// For each field of an interface that a type implements, the type has a field of that name whose type
/// is the same or a subtype (IsValidImplementation and IsValidImplementationFieldType, section 3.6 of
/// the standard).
pub(crate) fn unimplemented_field(types: &ByName<Defined<'_>>) -> Option<Spot>
    ensures { result ≡ first_place (unimplemented_fields (map defined types.now)) }
{
    first_among(&ImplementedFields { types }, types.as_slice())
}

#[derive(Drop)]
struct ImplementedFields<'t, 'a> {
    types: &'t ByName<Defined<'a>>,
}

impl<'t, 'a, 'd> Rule<Defined<'d>> for ImplementedFields<'t, 'a> {
    ghost places = { λ it of. unimplemented_in (map defined it.types.now) (defined of) };

    fn first_in(&self, of: &Defined<'d>) -> Option<Spot> {
        let lacking = Lacking { fields: of.fields };
        let lacks = any_interface_field(&lacking, self.types, of.implements);
        let own = OwnFields {
            types: self.types,
            of,
        };
        place_if(lacks, of.name.spot).or(first_among(&own, of.fields))
    }
}

/// The fields of a type that implements interfaces.
#[derive(Drop)]
struct OwnFields<'t, 'a, 'o, 'd> {
    types: &'t ByName<Defined<'a>>,
    of: &'o Defined<'d>,
}

impl<'t, 'a, 'o, 'd> Rule<FieldSyntax> for OwnFields<'t, 'a, 'o, 'd> {
    ghost places = { λ it g. faulty_field (map defined it.types.now) (defined it.of.now) (field_of g) };

    fn first_in(&self, of: &FieldSyntax) -> Option<Spot> {
        let misfit = Misfit {
            types: self.types,
            field: of,
        };
        let fails = any_interface_field(&misfit, self.types, self.of.implements);
        place_if(fails, of.name.spot)
    }
}

/// A type has no field of the name.
#[derive(Drop)]
struct Lacking<'d> {
    fields: &'d [FieldSyntax],
}

impl<'d> FieldTest for Lacking<'d> {
    ghost test = { λ it f. not (stands_in f.name.name (map (λ g. g.name.name) (map field_of it.fields.now))) };

    fn passes(&self, field: &FieldSyntax) -> bool {
        !has_field(self.fields, field.name.name.as_str())
    }
}

/// Whether one of the fields has the name.
fn has_field(fields: &[FieldSyntax], name: &str) -> bool
    ensures { result ≡ stands_in name.now (map (λ g. g.name.name) (map field_of fields.now)) }
{
    for field in fields {
        if field.name.name.as_str() == name {
            return true;
        }
    }
    false
}

/// A field of a type has the name, and its type is neither the same nor a subtype.
#[derive(Drop)]
struct Misfit<'t, 'a, 'd> {
    types: &'t ByName<Defined<'a>>,
    field: &'d FieldSyntax,
}

impl<'t, 'a, 'd> FieldTest for Misfit<'t, 'a, 'd> {
    ghost test = { λ it f. is_misfit (map defined it.types.now) (field_of it.field.now) f };

    fn passes(&self, field: &FieldSyntax) -> bool {
        field.name.name.as_str() == self.field.name.name.as_str()
            && !is_subtype(self.types, &self.field.kind, &field.kind)
    }
}

/// Whether a type is another or a subtype of it.
fn is_subtype(types: &ByName<Defined<'_>>, of: &TypeRef, whole: &TypeRef) -> bool
    ensures { result ≡ is_subtype (map defined types.now) (reference of.now) (reference whole.now) }
{
    match (of, whole) {
        (TypeRef::Named(a, _), TypeRef::Named(b, _)) => {
            a.as_str() == b.as_str() || holds(types, b.as_str(), a.as_str())
        }
        (TypeRef::List(of), TypeRef::List(whole)) => is_subtype(types, of.get(), whole.get()),
        (TypeRef::NonNull(of), TypeRef::NonNull(whole)) => is_subtype(types, of.get(), whole.get()),
        (TypeRef::NonNull(of), _) => is_subtype(types, of.get(), whole),
        _ => false,
    }
}

/// Whether the first, a union or an interface, holds the second.
fn holds(types: &ByName<Defined<'_>>, whole: &str, name: &str) -> bool
    ensures { result ≡ holds (map defined types.now) whole.now name.now }
{
    is_among(members_of(types, whole), name) || is_among(interfaces_of(types, name), whole)
}
