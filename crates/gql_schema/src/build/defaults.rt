//! Defaults as values: input coercion, sections 3.5 and 3.9 to 3.12 of the standard.

ghost use Rattle.std.specs.Prelude.{◌≡◌, false, [], ◌++◌, map, filter_map, IfOk, OnOk, option_map};
ghost use Rattle.std.specs.Option.{option_copied, option_to_list};
ghost use Rattle.gql_tree.specs.Names.{has_name};
ghost use Rattle.gql_model.specs.Coercing.{default_within, number_at, value_at, list_at};
ghost use Rattle.gql_model.specs.Lists.{keyed};
ghost use Rattle.gql_model.specs.rules.Literals.{written};
ghost use Rattle.gql_model.specs.rules.References.{reference, innermost};
ghost use Rattle.gql_model.specs.rules.TypeParts.{input_of, inputs_of, named_input};
ghost use Rattle.gql_model.specs.rules.types.DistinctNames.{repeated_names};
ghost use Rattle.gql_model.specs.rules.Places.{repeats};
ghost use Rattle.gql_schema.specs.Seen.{defined};
ghost use Rattle.gql_schema.specs.Coerced.{named_value, name_and_value, text_at, coerced_at, field_at};

use super::integers::number_at;
use crate::defined::{Defined, inputs_of};
use crate::used::{innermost, item_of};
use gql_model::{Argument, ByName, InputSyntax, Literal, TypeRef};
use gql_tree::{Fields, Listed, NoMemory, Text, TryCopy, Value};
use std::alloc::Global;

/// The most calls inside one another: a value that is nested deeper has no room.
const NESTING: u32 = u32::MAX;

/// The value of a default that needs a chain of at most so many others.
pub(crate) fn default_of(
    alloc: Global,
    types: &ByName<Defined<'_>>,
    chain: usize,
    input: &InputSyntax,
) -> Result<Option<Value>, NoMemory>
    requires { repeated_names (map defined types.now) ≡ [] }
    ensures { IfOk result (λ value. value ≡ default_within (map defined types.now) chain (input_of input.now)) }
{
    default_within(alloc, types, chain, NESTING, input)
}

#[cycle(coerced)]
fn default_within(
    alloc: Global,
    types: &ByName<Defined<'_>>,
    chain: usize,
    room: u32,
    input: &InputSyntax,
) -> Result<Option<Value>, NoMemory>
    requires { repeated_names (map defined types.now) ≡ [] }
    ensures { IfOk result (λ value. value ≡ default_within (map defined types.now) chain (input_of input.now)) }
{
    if room == 0 {
        return Err(NoMemory);
    }
    if chain == 0 {
        return Ok(None);
    }
    match &input.default {
        Some(literal) => Ok(Some(coerced(
            alloc,
            types,
            chain - 1,
            room - 1,
            literal,
            &input.kind,
        )?)),
        None => Ok(None),
    }
}

/// What a literal gives at a type.
#[cycle(coerced)]
fn coerced(
    alloc: Global,
    types: &ByName<Defined<'_>>,
    chain: usize,
    room: u32,
    literal: &Literal,
    kind: &TypeRef,
) -> Result<Value, NoMemory>
    requires { repeated_names (map defined types.now) ≡ [] }
    ensures { IfOk result (λ value. value ≡ coerced_at (map defined types.now) chain (written literal.now) (reference kind.now)) }
{
    if room == 0 {
        return Err(NoMemory);
    }
    match literal {
        Literal::Variable(_, _) => Ok(Value::Null),
        Literal::Null(_) => Ok(Value::Null),
        Literal::Int(digits, _) => number_value(alloc, digits, kind),
        Literal::Text(text, _) => text_value(alloc, text, kind),
        Literal::Bool(truth, _) => wrapped(alloc, Value::Bool(*truth), kind),
        Literal::Enum(name, _) => text_value(alloc, name, kind),
        Literal::List(items, _) => listed(alloc, types, chain, room - 1, items.as_slice(), kind),
        Literal::Object(members, _) => {
            let fields = fields_at(
                alloc,
                types,
                chain,
                room - 1,
                members.as_slice(),
                inputs_at(types, kind),
            )?;
            wrapped(alloc, Value::Object(fields), kind)
        }
    }
}

/// What a list gives at a type.
#[cycle(coerced)]
fn listed(
    alloc: Global,
    types: &ByName<Defined<'_>>,
    chain: usize,
    room: u32,
    items: &[Literal],
    kind: &TypeRef,
) -> Result<Value, NoMemory>
    requires { repeated_names (map defined types.now) ≡ [] }
    ensures { IfOk result (λ value. value ≡ list_at (λ r. map (λ w. coerced_at (map defined types.now) chain w r) (map written items.now)) (reference kind.now)) }
{
    if room == 0 {
        return Err(NoMemory);
    }
    match item_of(kind) {
        Some(item) => Ok(Value::List(items_at(alloc, types, chain, room - 1, items, item)?)),
        None => Ok(Value::Null),
    }
}

/// What the items of a list give at the item type.
#[cycle(coerced)]
fn items_at(
    alloc: Global,
    types: &ByName<Defined<'_>>,
    chain: usize,
    room: u32,
    items: &[Literal],
    kind: &TypeRef,
) -> Result<Listed<Value>, NoMemory>
    requires { repeated_names (map defined types.now) ≡ [] }
    ensures { IfOk result (λ values. values ≡ map (λ w. coerced_at (map defined types.now) chain w (reference kind.now)) (map written items.now)) }
{
    if room == 0 {
        return Err(NoMemory);
    }
    let mut values = Listed::new(alloc);
    for item in items {
        values.push(coerced(alloc, types, chain, room - 1, item, kind)?)?;
    }
    Ok(values)
}

/// The fields of an input object, in their order, by what an object literal gives.
#[cycle(coerced)]
fn fields_at(
    alloc: Global,
    types: &ByName<Defined<'_>>,
    chain: usize,
    room: u32,
    members: &[Argument],
    inputs: &[InputSyntax],
) -> Result<Fields<Value>, NoMemory>
    requires names { repeated_names (map defined types.now) ≡ [] }
    requires inputs { repeats (map named_input (map input_of inputs.now)) ≡ [] }
    ensures { IfOk result (λ fields. fields ≡ filter_map (field_at (map defined types.now) chain members.now) (map input_of inputs.now)) }
{
    if room == 0 {
        return Err(NoMemory);
    }
    let mut fields = Fields::new(alloc);
    for input in inputs {
        let value = member_value(alloc, types, chain, room - 1, members, input)?;
        add_member(&mut fields, input, value)?;
    }
    Ok(fields)
}

/// The value of a field of an input object: what is given for it, else its default.
#[cycle(coerced)]
fn member_value(
    alloc: Global,
    types: &ByName<Defined<'_>>,
    chain: usize,
    room: u32,
    members: &[Argument],
    input: &InputSyntax,
) -> Result<Option<Value>, NoMemory>
    requires { repeated_names (map defined types.now) ≡ [] }
    ensures { IfOk result (λ value. option_map (named_value input.now.name.name) value ≡ field_at (map defined types.now) chain members.now (input_of input.now)) }
{
    if room == 0 {
        return Err(NoMemory);
    }
    match given_for(members, &input.name.name) {
        Some(literal) => Ok(Some(coerced(alloc, types, chain, room - 1, literal, &input.kind)?)),
        None => default_within(alloc, types, chain, room - 1, input),
    }
}

/// Adds a field of an input object, where it has a value.
fn add_member(
    fields: &mut Fields<Value>,
    input: &InputSyntax,
    value: Option<Value>,
) -> Result<(), NoMemory>
    requires { has_name input.now.name.name fields.old ≡ false }
    ensures { OnOk result (fields.new ≡ fields.old ++ option_to_list (option_map (named_value input.now.name.name) value)) }
{
    match value {
        Some(value) => fields.push(input.name.name.copy()?, value),
        None => Ok(()),
    }
}

/// The literal that is given under a name.
fn given_for<'m>(members: &'m [Argument], name: &Text) -> Option<&'m Literal>
    ensures { option_map written (option_copied result) ≡ keyed name.now (map name_and_value members.now) }
{
    for member in members {
        if member.name.as_str() == name.as_str() {
            return Some(&member.value);
        }
    }
    None
}

/// The fields of the input object that a type is built on.
fn inputs_at<'a>(types: &ByName<Defined<'a>>, kind: &TypeRef) -> &'a [InputSyntax]
    requires { repeated_names (map defined types.now) ≡ [] }
    ensures now { map input_of result.now ≡ inputs_of (map defined types.now) (innermost (reference kind.now)).name }
    ensures apart { repeats (map named_input (map input_of result.now)) ≡ [] }
{
    inputs_of(types, innermost(kind).name)
}

/// What a number gives at a type.
fn number_value(alloc: Global, digits: &Text, kind: &TypeRef) -> Result<Value, NoMemory>
    ensures { IfOk result (λ value. value ≡ value_at (number_at digits.now) (reference kind.now)) }
{
    wrapped(alloc, number_at(digits, innermost(kind).name)?, kind)
}

/// What a string or a value of an enum gives at a type.
fn text_value(alloc: Global, text: &Text, kind: &TypeRef) -> Result<Value, NoMemory>
    ensures { IfOk result (λ value. value ≡ text_at text.now (reference kind.now)) }
{
    wrapped(alloc, Value::Text(text.copy()?), kind)
}

/// What is neither null nor a list, at a type: one value stands for a list of it.
fn wrapped(alloc: Global, value: Value, kind: &TypeRef) -> Result<Value, NoMemory>
    ensures { IfOk result (λ made. made ≡ value_at (λ _. value) (reference kind.now)) }
{
    match kind {
        TypeRef::Named(_, _) => Ok(value),
        TypeRef::List(item) => {
            let mut items = Listed::new(alloc);
            items.push(wrapped(alloc, value, item.get())?)?;
            Ok(Value::List(items))
        }
        TypeRef::NonNull(inner) => wrapped(alloc, value, inner.get()),
    }
}
