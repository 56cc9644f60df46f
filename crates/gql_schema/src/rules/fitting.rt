//! Whether literals fit types: input coercion, sections 3.5 and 3.9 to 3.12 of the standard.

ghost use Rattle.std.specs.Prelude.{◌≡◌, ◌++◌, [], map, nat_le};
ghost use Rattle.gql_model.specs.rules.Places.{place_if, stands_in};
ghost use Rattle.gql_model.specs.rules.Fitting.{at_list, digits_from, is_int32, item_misfits, lacks_required, member_misfits, member_places, misfits, number_misfits, object_places, text_misfits};
ghost use Rattle.gql_model.specs.rules.Literals.{given, given_names, items_of, members_of, written};
ghost use Rattle.gql_model.specs.rules.References.{innermost, is_non_null, reference};
ghost use Rattle.gql_model.specs.rules.TypeParts.{input_named, input_of};
ghost use Rattle.gql_schema.specs.Seen.{defined};
ghost use Rattle.gql_schema.specs.FirstPlace.{first_place};

use super::rule::place_if;
use crate::defined::{Defined, input_object, values_of};
use crate::named::is_among;
use crate::used::{innermost, input_named, is_required, item_of};
use gql_model::{Argument, ByName, InputSyntax, Literal, TypeRef};
use gql_tree::Spot;

/// The first place in a literal that doesn't fit a type.
#[cycle(misfits)]
pub(crate) fn misfit(types: &ByName<Defined<'_>>, literal: &Literal, of: &TypeRef) -> Option<Spot>
    ensures { result ≡ first_place (misfits (map defined types.now) (written literal.now) (reference of.now)) }
{
    match literal {
        Literal::Variable(_, _) => None,
        Literal::Int(digits, spot) => {
            let fails = number_misfits(digits.as_str(), innermost(of).name);
            place_if(fails, *spot)
        }
        Literal::Text(_, spot) => place_if(text_misfits(innermost(of).name), *spot),
        Literal::Bool(_, spot) => place_if(innermost(of).name != "Boolean", *spot),
        Literal::Null(spot) => place_if(is_non_null(of), *spot),
        Literal::Enum(value, spot) => {
            let fails = !is_among(values_of(types, innermost(of).name), value.as_str());
            place_if(fails, *spot)
        }
        Literal::List(items, spot) => misfit_list(types, items.as_slice(), *spot, of),
        Literal::Object(members, spot) => misfit_object(types, members.as_slice(), *spot, of),
    }
}

/// In a list literal.
#[cycle(misfits)]
fn misfit_list(
    types: &ByName<Defined<'_>>,
    items: &[Literal],
    spot: Spot,
    of: &TypeRef,
) -> Option<Spot>
    ensures { result ≡ first_place (at_list (item_misfits (map defined types.now) (items_of (map written items.now))) spot (reference of.now)) }
{
    match item_of(of) {
        Some(of) => misfit_among(types, items, of),
        None => Some(spot),
    }
}

/// In the items of a list, at the item type.
#[cycle(misfits)]
fn misfit_among(types: &ByName<Defined<'_>>, items: &[Literal], of: &TypeRef) -> Option<Spot>
    ensures { result ≡ first_place (item_misfits (map defined types.now) (items_of (map written items.now)) (reference of.now)) }
{
    for item in items {
        if let Some(spot) = misfit(types, item, of) {
            return Some(spot);
        }
    }
    None
}

/// In an object literal.
#[cycle(misfits)]
fn misfit_object(
    types: &ByName<Defined<'_>>,
    members: &[Argument],
    spot: Spot,
    of: &TypeRef,
) -> Option<Spot>
    ensures { result ≡ first_place (object_places (map defined types.now) spot (given_names (members_of (map given members.now))) (member_misfits (map defined types.now) (members_of (map given members.now)) []) (innermost (reference of.now)).name) }
{
    match input_object(types, innermost(of).name) {
        Some(fields) => {
            let lacks = place_if(lacks_required(fields, members), spot);
            lacks.or(misfit_member(types, members, fields))
        }
        None => Some(spot),
    }
}

/// In the fields of an object literal.
#[cycle(misfits)]
fn misfit_member(
    types: &ByName<Defined<'_>>,
    members: &[Argument],
    fields: &[InputSyntax],
) -> Option<Spot>
    ensures { result ≡ first_place (member_misfits (map defined types.now) (members_of (map given members.now)) [] (map input_of fields.now)) }
{
    for i in 0..members.len() {
        let member = &members[i];
        let again = is_given(&members[..i], member.name.as_str());
        if let Some(spot) = misfit_at(types, again, member, fields) {
            return Some(spot);
        }
    }
    None
}

/// In a field of an object literal, by whether its name is given before.
#[cycle(misfits)]
fn misfit_at(
    types: &ByName<Defined<'_>>,
    again: bool,
    member: &Argument,
    fields: &[InputSyntax],
) -> Option<Spot>
    ensures { result ≡ first_place (member_places (map defined types.now) (given member.now).spot again (misfits (map defined types.now) (given member.now).value) (input_named (map input_of fields.now) (given member.now).name)) }
{
    if again {
        return Some(member.spot);
    }
    match input_named(fields, member.name.as_str()) {
        Some(field) => misfit(types, &member.value, &field.kind),
        None => Some(member.spot),
    }
}

/// Whether one of the fields of an object literal has the name.
pub(crate) fn is_given(members: &[Argument], name: &str) -> bool
    ensures { result ≡ stands_in name.now (map (λ m. (given m).name) members.now) }
{
    for member in members {
        if member.name.as_str() == name {
            return true;
        }
    }
    false
}

/// Whether a field that can't be left out isn't among those of an object literal.
fn lacks_required(fields: &[InputSyntax], members: &[Argument]) -> bool
    ensures { result ≡ lacks_required (map input_of fields.now) (map (λ m. (given m).name) members.now) }
{
    for field in fields {
        if is_required(field) && !is_given(members, field.name.name.as_str()) {
            return true;
        }
    }
    false
}

fn is_non_null(of: &TypeRef) -> bool
    ensures { result ≡ is_non_null (reference of.now) }
{
    matches!(of, TypeRef::NonNull(_))
}

fn number_misfits(digits: &str, name: &str) -> bool
    ensures { result ≡ number_misfits [] digits.now name.now }
{
    !(name == "Int" && is_int32(digits) || name == "ID")
}

fn text_misfits(name: &str) -> bool
    ensures { result ≡ text_misfits [] name.now }
{
    !(name == "String" || name == "ID")
}

/// Whether a number is one of 32 signed bits (section 3.5.1 of the standard).
fn is_int32(digits: &str) -> bool
    ensures { result ≡ is_int32 digits.now }
{
    let digits = digits.as_bytes();
    if digits.is_empty() {
        return false;
    }
    if digits[0] == b'-' {
        is_at_most(&digits[1..], 2_147_483_648)
    } else {
        is_at_most(digits, 2_147_483_647)
    }
}

/// Whether the number of decimal digits is at most so large.
fn is_at_most(digits: &[u8], most: u32) -> bool
    ensures { result ≡ nat_le (digits_from 0 digits.now) most }
{
    let mut number = 0u64;
    for digit in digits {
        number = number * 10 + u64::from(digit.saturating_sub(48));
        if number > u64::from(most) {
            return false;
        }
    }
    true
}
