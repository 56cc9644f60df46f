ghost use Rattle.std.specs.Prelude.{◌≡◌, ◌&&◌, not, map, flat_map};
ghost use Rattle.std.specs.List.{list_any};
ghost use Rattle.gql_model.specs.rules.Places.{stands_in};
ghost use Rattle.gql_model.specs.rules.References.{reference, same_type};
ghost use Rattle.gql_model.specs.rules.TypeParts.{field_of, input_of, is_required};
ghost use Rattle.gql_model.specs.rules.types.ImplementedArguments.{is_called_otherwise, is_same_argument, lacks_argument, misfitting_arguments, misfitting_arguments_of, requires_more};
ghost use Rattle.gql_schema.specs.Seen.{defined};
ghost use Rattle.gql_schema.specs.FirstPlace.{first_place};

use super::interface_fields::{FieldTest, any_interface_field};
use super::rule::{Rule, first_among, place_if};
use crate::defined::Defined;
use crate::used::{has_input, is_required};
use gql_model::{ByName, FieldSyntax, InputSyntax, TypeRef};
use gql_tree::Spot;

/// A field that implements an interface's has every argument of that field with the same type, and its
/// further arguments aren't required (IsValidImplementation, section 3.6 of the standard).
pub(crate) fn misfitting_argument(types: &ByName<Defined<'_>>) -> Option<Spot>
    ensures { result ≡ first_place (misfitting_arguments (map defined types.now)) }
{
    first_among(&ImplementedArguments { types }, types.as_slice())
}

#[derive(Drop)]
struct ImplementedArguments<'t, 'a> {
    types: &'t ByName<Defined<'a>>,
}

impl<'t, 'a, 'd> Rule<Defined<'d>> for ImplementedArguments<'t, 'a> {
    ghost places = { λ it of. flat_map (misfitting_arguments_of (map defined it.types.now) (defined of)) (defined of).fields };

    fn first_in(&self, of: &Defined<'d>) -> Option<Spot> {
        let own = OwnFields {
            types: self.types,
            of,
        };
        first_among(&own, of.fields)
    }
}

/// The fields of a type that implements interfaces.
#[derive(Drop)]
struct OwnFields<'t, 'a, 'o, 'd> {
    types: &'t ByName<Defined<'a>>,
    of: &'o Defined<'d>,
}

impl<'t, 'a, 'o, 'd> Rule<FieldSyntax> for OwnFields<'t, 'a, 'o, 'd> {
    ghost places = { λ it g. misfitting_arguments_of (map defined it.types.now) (defined it.of.now) (field_of g) };

    fn first_in(&self, of: &FieldSyntax) -> Option<Spot> {
        let otherwise = CalledOtherwise { field: of };
        let fails = any_interface_field(&otherwise, self.types, self.of.implements);
        place_if(fails, of.name.spot)
    }
}

/// A field of a type has the name, and what calls the interface's can't call it.
#[derive(Drop)]
struct CalledOtherwise<'d> {
    field: &'d FieldSyntax,
}

impl<'d> FieldTest for CalledOtherwise<'d> {
    ghost test = { λ it f. is_called_otherwise (field_of it.field.now) f };

    fn passes(&self, field: &FieldSyntax) -> bool {
        let own = self.field.arguments.as_slice();
        let others = field.arguments.as_slice();
        field.name.name.as_str() == self.field.name.name.as_str()
            && (lacks_argument(own, others) || requires_more(own, others))
    }
}

/// Whether one of the others isn't among a field's own arguments.
fn lacks_argument(own: &[InputSyntax], others: &[InputSyntax]) -> bool
    ensures { result ≡ list_any (λ a. not (list_any (is_same_argument a) (map input_of own.now))) (map input_of others.now) }
{
    for other in others {
        if !has_same(own, other) {
            return true;
        }
    }
    false
}

/// Whether one of a field's own arguments has the name and the type of another.
fn has_same(own: &[InputSyntax], other: &InputSyntax) -> bool
    ensures { result ≡ list_any (is_same_argument (input_of other.now)) (map input_of own.now) }
{
    for argument in own {
        if is_same_argument(other, argument) {
            return true;
        }
    }
    false
}

fn is_same_argument(a: &InputSyntax, b: &InputSyntax) -> bool
    ensures { result ≡ is_same_argument (input_of a.now) (input_of b.now) }
{
    a.name.name.as_str() == b.name.name.as_str() && same_type(&a.kind, &b.kind)
}

/// Whether they are the same type, wherever they stand.
fn same_type(a: &TypeRef, b: &TypeRef) -> bool
    ensures { result ≡ same_type (reference a.now) (reference b.now) }
{
    match (a, b) {
        (TypeRef::Named(a, _), TypeRef::Named(b, _)) => a.as_str() == b.as_str(),
        (TypeRef::List(a), TypeRef::List(b)) => same_type(a.get(), b.get()),
        (TypeRef::NonNull(a), TypeRef::NonNull(b)) => same_type(a.get(), b.get()),
        _ => false,
    }
}

/// Whether one of a field's own arguments that isn't among the others is required.
fn requires_more(own: &[InputSyntax], others: &[InputSyntax]) -> bool
    ensures { result ≡ list_any (λ b. is_required b && not (stands_in b.name.name (map (λ a. a.name.name) (map input_of others.now)))) (map input_of own.now) }
{
    for argument in own {
        if is_required(argument) && !has_input(others, argument.name.name.as_str()) {
            return true;
        }
    }
    false
}
