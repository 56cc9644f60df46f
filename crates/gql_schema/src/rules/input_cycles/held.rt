//! What values of input objects always hold, by Non-Null fields that aren't lists.

ghost use Rattle.std.specs.Prelude.{◌≡◌, ◌++◌, map, IfOk, OnOk};
ghost use Rattle.std.specs.Option.{option_to_list};
ghost use Rattle.gql_model.specs.rules.References.{reference, non_null};
ghost use Rattle.gql_model.specs.rules.TypeParts.{input_of};
ghost use Rattle.gql_model.specs.rules.types.InputCycles.{always_held, holds_itself};
ghost use Rattle.gql_schema.specs.InputGraphs.{type_place, input_objects, held_row, held_graph};
ghost use Rattle.gql_schema.specs.Seen.{defined};

use crate::build::numbers::defined_place;
use crate::defined::{Defined, is_input_named};
use crate::graph::reaches;
use gql_model::{ByName, InputSyntax, TypeRef};
use gql_tree::{Listed, NoMemory};
use std::alloc::Global;

/// Of each type those that its values always hold, by their places.
pub(crate) fn held_graph(
    alloc: Global,
    types: &ByName<Defined<'_>>,
) -> Result<Listed<Listed<u32>>, NoMemory>
    ensures { IfOk result (λ graph. graph ≡ held_graph (map defined types.now)) }
{
    let listed = types.as_slice();
    let mut graph = Listed::new(alloc);
    for of in listed {
        graph.push(held_row(alloc, types, of.inputs)?)?;
    }
    Ok(graph)
}

/// Those that a value of an input object of these fields always holds.
fn held_row(
    alloc: Global,
    types: &ByName<Defined<'_>>,
    inputs: &[InputSyntax],
) -> Result<Listed<u32>, NoMemory>
    ensures { IfOk result (λ row. row ≡ held_row (map defined types.now) (map input_of inputs.now)) }
{
    let mut row = Listed::new(alloc);
    for input in inputs {
        push_held(&mut row, types, &input.kind)?;
    }
    Ok(row)
}

fn push_held(
    row: &mut Listed<u32>,
    types: &ByName<Defined<'_>>,
    kind: &TypeRef,
) -> Result<(), NoMemory>
    ensures { OnOk result (row.new ≡ row.old ++ map (type_place (map defined types.now)) (always_held (map defined types.now) (reference kind.now))) }
{
    match always_held(types, kind) {
        Some(place) => row.push(place),
        None => Ok(()),
    }
}

/// The input object that a value of a type always holds.
fn always_held(types: &ByName<Defined<'_>>, kind: &TypeRef) -> Option<u32>
    ensures { option_to_list result ≡ map (type_place (map defined types.now)) (always_held (map defined types.now) (reference kind.now)) }
{
    match kind {
        TypeRef::NonNull(inner) => held_inside(types, inner.get()),
        TypeRef::Named(_, _) | TypeRef::List(_) => None,
    }
}

/// The input object that a value of the Non-Null of a type always holds.
fn held_inside(types: &ByName<Defined<'_>>, kind: &TypeRef) -> Option<u32>
    ensures { option_to_list result ≡ map (type_place (map defined types.now)) (always_held (map defined types.now) (non_null (reference kind.now))) }
{
    match kind {
        TypeRef::Named(name, _) => input_place(types, name.as_str()),
        TypeRef::List(_) | TypeRef::NonNull(_) => None,
    }
}

/// The place of the input object of a name.
fn input_place(types: &ByName<Defined<'_>>, name: &str) -> Option<u32>
    ensures { option_to_list result ≡ map (type_place (map defined types.now)) (input_objects (map defined types.now) name.now) }
{
    if is_input_named(types, name) {
        Some(defined_place(types, name))
    } else {
        None
    }
}

/// Whether the input object that a field always holds holds the field's own.
pub(crate) fn holds_itself(
    alloc: Global,
    types: &ByName<Defined<'_>>,
    graph: &[Listed<u32>],
    name: &str,
    input: &InputSyntax,
) -> Result<bool, NoMemory>
    requires { graph.now ≡ held_graph (map defined types.now) }
    ensures { IfOk result (λ found. found ≡ holds_itself (map defined types.now) name.now (input_of input.now)) }
{
    let own = defined_place(types, name);
    if own as usize >= graph.len() {
        return Ok(false);
    }
    match always_held(types, &input.kind) {
        Some(held) => reaches(alloc, graph, &[held], own),
        None => Ok(false),
    }
}
