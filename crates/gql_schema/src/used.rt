//! Types in use, and the arguments and input fields that have them.

ghost use Rattle.std.specs.Prelude.{◌≡◌, map, option_map};
ghost use Rattle.gql_model.specs.rules.Places.{stands_in};
ghost use Rattle.gql_model.specs.rules.References.{reference, innermost};
ghost use Rattle.gql_model.specs.rules.TypeParts.{input_named, input_of, is_required};
ghost use Rattle.gql_schema.specs.Seen.{item_of};

use gql_model::{InputSyntax, TypeRef};
use gql_tree::Spot;

/// A type's name, with where it is used.
#[derive(Drop)]
pub(crate) struct Used<'a> {
    pub name: &'a str,
    pub spot: Spot,
}

/// The named type that a type is built on.
pub(crate) fn innermost(of: &TypeRef) -> Used<'_>
    ensures name { result.name.now ≡ (innermost (reference of.now)).name }
    ensures spot { result.spot ≡ (innermost (reference of.now)).spot }
{
    match of {
        TypeRef::Named(name, spot) => Used {
            name: name.as_str(),
            spot: *spot,
        },
        TypeRef::List(item) => innermost(item.get()),
        TypeRef::NonNull(inner) => innermost(inner.get()),
    }
}

/// The type of the items, where the type is that of lists.
pub(crate) fn item_of(of: &TypeRef) -> Option<&TypeRef>
    ensures { option_map (λ item. reference item.now) result ≡ item_of (reference of.now) }
{
    match of {
        TypeRef::Named(_, _) => None,
        TypeRef::List(item) => Some(item.get()),
        TypeRef::NonNull(inner) => item_of(inner.get()),
    }
}

/// The first argument or input field of a name.
pub(crate) fn input_named<'i>(inputs: &'i [InputSyntax], name: &str) -> Option<&'i InputSyntax>
    ensures { option_map (λ i. input_of i.now) result ≡ input_named (map input_of inputs.now) name.now }
{
    for input in inputs {
        if input.name.name.as_str() == name {
            return Some(input);
        }
    }
    None
}

/// Whether it is an argument or an input field that can't be left out.
pub(crate) fn is_required(of: &InputSyntax) -> bool
    ensures { result ≡ is_required (input_of of.now) }
{
    matches!(of.kind, TypeRef::NonNull(_)) && of.default.is_none()
}

/// Whether one of the arguments or input fields has the name.
pub(crate) fn has_input(inputs: &[InputSyntax], name: &str) -> bool
    ensures { result ≡ stands_in name.now (map (λ i. i.name.name) (map input_of inputs.now)) }
{
    for input in inputs {
        if input.name.name.as_str() == name {
            return true;
        }
    }
    false
}
