//! Which defaults the defaults of input fields need, by the numbers of the fields.

ghost use Rattle.std.specs.Prelude.{◌≡◌, ◌+◌, ◌++◌, map, filter, not, ◌&&◌, is_some, ◌∷◌, [], IfOk, OnOk};
ghost use Rattle.gql_model.specs.rules.Literals.{given, given_names, items_of, members_of, written};
ghost use Rattle.gql_model.specs.rules.Places.{stands_in};
ghost use Rattle.gql_model.specs.rules.References.{reference};
ghost use Rattle.gql_model.specs.rules.TypeParts.{input_named, input_of, inputs_of};
ghost use Rattle.gql_model.specs.rules.types.InputCycles.{at_items, at_member, at_object, item_needs, left_out, member_needs, needs, needs_itself};
ghost use Rattle.gql_schema.specs.InputGraphs.{field_number, field_place, firsts_from, needs_graph, needs_row};
ghost use Rattle.gql_schema.specs.Seen.{defined};

use crate::build::numbers::defined_place;
use crate::defined::{Defined, inputs_of};
use crate::graph::reaches;
use crate::rules::fitting::is_given;
use crate::used::{innermost, input_named, item_of};
use gql_model::{Argument, ByName, InputSyntax, Literal, TypeRef};
use gql_tree::{Listed, NoMemory};
use std::alloc::Global;

// ---- numbers

/// Of each type the number of its first input field, and at the end how many input fields there are.
pub(crate) fn first_numbers(
    alloc: Global,
    types: &ByName<Defined<'_>>,
) -> Result<Listed<u32>, NoMemory>
    ensures { IfOk result (λ firsts. firsts ≡ firsts_from 0 (map defined types.now)) }
{
    let listed = types.as_slice();
    let mut firsts = Listed::new(alloc);
    let mut next = 0;
    for of in listed {
        firsts.push(next)?;
        next = sum(next, of.inputs.len())?;
    }
    firsts.push(next)?;
    Ok(firsts)
}

/// A sum, where there is room for so many.
fn sum(first: u32, more: usize) -> Result<u32, NoMemory>
    ensures { IfOk result (λ sum. sum ≡ first + more) }
{
    let Ok(more) = u32::try_from(more) else {
        return Err(NoMemory);
    };
    match first.checked_add(more) {
        Some(sum) => Ok(sum),
        None => Err(NoMemory),
    }
}

/// The number of the input field of a name of the type of a name.
fn field_number(
    types: &ByName<Defined<'_>>,
    firsts: &[u32],
    of: &str,
    name: &str,
) -> Result<u32, NoMemory>
    requires { firsts.now ≡ firsts_from 0 (map defined types.now) }
    ensures { IfOk result (λ number. number ≡ field_number (map defined types.now) (of.now, name.now)) }
{
    let place = defined_place(types, of) as usize;
    let first = firsts[place];
    sum(first, field_place(inputs_of(types, of), name))
}

/// The place of the first input field of a name, and how many there are where none has it.
fn field_place(inputs: &[InputSyntax], name: &str) -> usize
    ensures { result ≡ field_place (map input_of inputs.now) name.now }
{
    for i in 0..inputs.len() {
        let input = &inputs[i];
        if input.name.name.as_str() == name {
            return i;
        }
    }
    inputs.len()
}

// ---- what a literal needs

/// Adds the input fields whose defaults a literal needs at a type.
#[cycle(needs)]
fn push_needs(
    row: &mut Listed<u32>,
    types: &ByName<Defined<'_>>,
    firsts: &[u32],
    literal: &Literal,
    kind: &TypeRef,
) -> Result<(), NoMemory>
    requires { firsts.now ≡ firsts_from 0 (map defined types.now) }
    ensures { OnOk result (row.new ≡ row.old ++ map (field_number (map defined types.now)) (needs (map defined types.now) (written literal.now) (reference kind.now))) }
{
    match literal {
        Literal::Variable(_, _) => Ok(()),
        Literal::Int(_, _) => Ok(()),
        Literal::Text(_, _) => Ok(()),
        Literal::Bool(_, _) => Ok(()),
        Literal::Null(_) => Ok(()),
        Literal::Enum(_, _) => Ok(()),
        Literal::List(items, _) => push_list_needs(row, types, firsts, items.as_slice(), kind),
        Literal::Object(members, _) => push_object_needs(
            row,
            types,
            firsts,
            members.as_slice(),
            kind,
        ),
    }
}

/// Those of a list.
#[cycle(needs)]
fn push_list_needs(
    row: &mut Listed<u32>,
    types: &ByName<Defined<'_>>,
    firsts: &[u32],
    items: &[Literal],
    kind: &TypeRef,
) -> Result<(), NoMemory>
    requires { firsts.now ≡ firsts_from 0 (map defined types.now) }
    ensures { OnOk result (row.new ≡ row.old ++ map (field_number (map defined types.now)) (at_items (map defined types.now) (item_needs (map defined types.now) (items_of (map written items.now))) (reference kind.now))) }
{
    match item_of(kind) {
        Some(item) => push_item_needs(row, types, firsts, items, item),
        None => Ok(()),
    }
}

/// Those of the items of a list, at the item type.
#[cycle(needs)]
fn push_item_needs(
    row: &mut Listed<u32>,
    types: &ByName<Defined<'_>>,
    firsts: &[u32],
    items: &[Literal],
    kind: &TypeRef,
) -> Result<(), NoMemory>
    requires { firsts.now ≡ firsts_from 0 (map defined types.now) }
    ensures { OnOk result (row.new ≡ row.old ++ map (field_number (map defined types.now)) (item_needs (map defined types.now) (items_of (map written items.now)) (reference kind.now))) }
{
    for item in items {
        push_needs(row, types, firsts, item, kind)?;
    }
    Ok(())
}

/// Those of an object: fields with defaults that it leaves out, and what its fields need.
#[cycle(needs)]
fn push_object_needs(
    row: &mut Listed<u32>,
    types: &ByName<Defined<'_>>,
    firsts: &[u32],
    members: &[Argument],
    kind: &TypeRef,
) -> Result<(), NoMemory>
    requires { firsts.now ≡ firsts_from 0 (map defined types.now) }
    ensures { OnOk result (row.new ≡ row.old ++ map (field_number (map defined types.now)) (at_object (map defined types.now) (λ name. left_out (map defined types.now) name (given_names (members_of (map given members.now))) ++ member_needs (map defined types.now) (members_of (map given members.now)) (inputs_of (map defined types.now) name)) (reference kind.now))) }
{
    push_left_out(row, types, firsts, kind, members)?;
    push_member_needs(
        row,
        types,
        firsts,
        members,
        inputs_of(types, innermost(kind).name),
    )
}

/// Those of the fields of an object.
#[cycle(needs)]
fn push_member_needs(
    row: &mut Listed<u32>,
    types: &ByName<Defined<'_>>,
    firsts: &[u32],
    members: &[Argument],
    inputs: &[InputSyntax],
) -> Result<(), NoMemory>
    requires { firsts.now ≡ firsts_from 0 (map defined types.now) }
    ensures { OnOk result (row.new ≡ row.old ++ map (field_number (map defined types.now)) (member_needs (map defined types.now) (members_of (map given members.now)) (map input_of inputs.now))) }
{
    for member in members {
        push_needs_at(row, types, firsts, member, inputs)?;
    }
    Ok(())
}

/// Those of a field of an object.
#[cycle(needs)]
fn push_needs_at(
    row: &mut Listed<u32>,
    types: &ByName<Defined<'_>>,
    firsts: &[u32],
    member: &Argument,
    inputs: &[InputSyntax],
) -> Result<(), NoMemory>
    requires { firsts.now ≡ firsts_from 0 (map defined types.now) }
    ensures { OnOk result (row.new ≡ row.old ++ map (field_number (map defined types.now)) (at_member (map defined types.now) (needs (map defined types.now) (given member.now).value) (input_named (map input_of inputs.now) (given member.now).name))) }
{
    match input_named(inputs, member.name.as_str()) {
        Some(input) => push_needs(row, types, firsts, &member.value, &input.kind),
        None => Ok(()),
    }
}

/// Adds the fields with defaults that an object literal leaves out at a type.
fn push_left_out(
    row: &mut Listed<u32>,
    types: &ByName<Defined<'_>>,
    firsts: &[u32],
    kind: &TypeRef,
    members: &[Argument],
) -> Result<(), NoMemory>
    requires { firsts.now ≡ firsts_from 0 (map defined types.now) }
    ensures { OnOk result (row.new ≡ row.old ++ map (field_number (map defined types.now)) (at_object (map defined types.now) (λ name. left_out (map defined types.now) name (given_names (members_of (map given members.now)))) (reference kind.now))) }
{
    let of = innermost(kind).name;
    let inputs = inputs_of(types, of);
    for input in inputs {
        push_if_left_out(row, types, firsts, of, input, members)?;
    }
    Ok(())
}

/// Adds a field of an input object, where it has a default and an object literal leaves it out.
fn push_if_left_out(
    row: &mut Listed<u32>,
    types: &ByName<Defined<'_>>,
    firsts: &[u32],
    of: &str,
    input: &InputSyntax,
    members: &[Argument],
) -> Result<(), NoMemory>
    requires { firsts.now ≡ firsts_from 0 (map defined types.now) }
    ensures { OnOk result (row.new ≡ row.old ++ map (field_number (map defined types.now)) (map (λ i. (of.now, i.name.name)) (filter (λ i. is_some i.default && not (stands_in i.name.name (map (λ m. (given m).name) members.now))) (input_of input.now ∷ [])))) }
{
    let name = input.name.name.as_str();
    if input.default.is_some() && !is_given(members, name) {
        row.push(field_number(types, firsts, of, name)?)?;
    }
    Ok(())
}

// ---- the graph

/// Of each input field those whose defaults its own needs, by their numbers.
pub(crate) fn needs_graph(
    alloc: Global,
    types: &ByName<Defined<'_>>,
    firsts: &[u32],
) -> Result<Listed<Listed<u32>>, NoMemory>
    requires { firsts.now ≡ firsts_from 0 (map defined types.now) }
    ensures { IfOk result (λ graph. graph ≡ needs_graph (map defined types.now)) }
{
    let listed = types.as_slice();
    let mut graph = Listed::new(alloc);
    for of in listed {
        push_rows(alloc, &mut graph, types, firsts, of.inputs)?;
    }
    Ok(graph)
}

fn push_rows(
    alloc: Global,
    graph: &mut Listed<Listed<u32>>,
    types: &ByName<Defined<'_>>,
    firsts: &[u32],
    inputs: &[InputSyntax],
) -> Result<(), NoMemory>
    requires { firsts.now ≡ firsts_from 0 (map defined types.now) }
    ensures { OnOk result (graph.new ≡ graph.old ++ map (needs_row (map defined types.now)) (map input_of inputs.now)) }
{
    for input in inputs {
        graph.push(needs_row(alloc, types, firsts, input)?)?;
    }
    Ok(())
}

fn needs_row(
    alloc: Global,
    types: &ByName<Defined<'_>>,
    firsts: &[u32],
    input: &InputSyntax,
) -> Result<Listed<u32>, NoMemory>
    requires { firsts.now ≡ firsts_from 0 (map defined types.now) }
    ensures { IfOk result (λ row. row ≡ needs_row (map defined types.now) (input_of input.now)) }
{
    let mut row = Listed::new(alloc);
    match &input.default {
        Some(literal) => push_needs(&mut row, types, firsts, literal, &input.kind)?,
        None => {}
    }
    Ok(row)
}

/// Whether the default of an input field needs itself.
pub(crate) fn needs_itself(
    alloc: Global,
    types: &ByName<Defined<'_>>,
    firsts: &[u32],
    graph: &[Listed<u32>],
    of: &str,
    input: &InputSyntax,
) -> Result<bool, NoMemory>
    requires firsts { firsts.now ≡ firsts_from 0 (map defined types.now) }
    requires graph { graph.now ≡ needs_graph (map defined types.now) }
    ensures { IfOk result (λ found. found ≡ needs_itself (map defined types.now) of.now (input_of input.now)) }
{
    let name = input.name.name.as_str();
    match input_named(inputs_of(types, of), name) {
        Some(_) => {
            let own = field_number(types, firsts, of, name)?;
            reaches(alloc, graph, graph[own as usize].as_slice(), own)
        }
        None => Ok(false),
    }
}
