//! Fields, arguments and input fields, as execution sees them.

ghost use Rattle.std.specs.Prelude.{◌≡◌, ◌+◌, ◌<◌, suc, [], length, map, IfOk};
ghost use Rattle.gql_model.specs.SaidSchema.{seen_input, seen_field, said_input, said_field};
ghost use Rattle.gql_model.specs.rules.TypeParts.{input_of, field_of};
ghost use Rattle.gql_model.specs.rules.types.DistinctNames.{repeated_names};
ghost use Rattle.gql_model.specs.rules.types.InputCycles.{input_field_count};
ghost use Rattle.gql_schema.specs.Seen.{defined};

use super::defaults::default_of;
use super::numbers::use_of;
use crate::defined::Defined;
use gql_model::{ByName, FieldDef, FieldSyntax, InputDef, InputSyntax};
use gql_tree::{Listed, NoMemory, TryCopy};
use std::alloc::Global;

/// The fields of an object or an interface.
pub(crate) fn fields_of(
    alloc: Global,
    types: &ByName<Defined<'_>>,
    chain: usize,
    fields: &[FieldSyntax],
) -> Result<Listed<FieldDef>, NoMemory>
    requires few { length types.now + 4 < 4294967296 }
    requires names { repeated_names (map defined types.now) ≡ [] }
    requires chain { chain ≡ suc (input_field_count (map defined types.now)) }
    ensures { IfOk result (λ made. map seen_field made ≡ map (said_field (map defined types.now)) (map field_of fields.now)) }
{
    let mut made = Listed::new(alloc);
    for field in fields {
        made.push(field_of(alloc, types, chain, field)?)?;
    }
    Ok(made)
}

fn field_of(
    alloc: Global,
    types: &ByName<Defined<'_>>,
    chain: usize,
    field: &FieldSyntax,
) -> Result<FieldDef, NoMemory>
    requires few { length types.now + 4 < 4294967296 }
    requires names { repeated_names (map defined types.now) ≡ [] }
    requires chain { chain ≡ suc (input_field_count (map defined types.now)) }
    ensures { IfOk result (λ made. seen_field made ≡ said_field (map defined types.now) (field_of field.now)) }
{
    Ok(FieldDef {
        name: field.name.name.copy()?,
        arguments: inputs_of(alloc, types, chain, field.arguments.as_slice())?,
        kind: use_of(alloc, types, &field.kind)?,
    })
}

/// The arguments of a field, or the fields of an input object.
pub(crate) fn inputs_of(
    alloc: Global,
    types: &ByName<Defined<'_>>,
    chain: usize,
    inputs: &[InputSyntax],
) -> Result<Listed<InputDef>, NoMemory>
    requires few { length types.now + 4 < 4294967296 }
    requires names { repeated_names (map defined types.now) ≡ [] }
    requires chain { chain ≡ suc (input_field_count (map defined types.now)) }
    ensures { IfOk result (λ made. map seen_input made ≡ map (said_input (map defined types.now)) (map input_of inputs.now)) }
{
    let mut made = Listed::new(alloc);
    for input in inputs {
        made.push(input_of(alloc, types, chain, input)?)?;
    }
    Ok(made)
}

fn input_of(
    alloc: Global,
    types: &ByName<Defined<'_>>,
    chain: usize,
    input: &InputSyntax,
) -> Result<InputDef, NoMemory>
    requires few { length types.now + 4 < 4294967296 }
    requires names { repeated_names (map defined types.now) ≡ [] }
    requires chain { chain ≡ suc (input_field_count (map defined types.now)) }
    ensures { IfOk result (λ made. seen_input made ≡ said_input (map defined types.now) (input_of input.now)) }
{
    Ok(InputDef {
        name: input.name.name.copy()?,
        kind: use_of(alloc, types, &input.kind)?,
        default: default_of(alloc, types, chain, input)?,
    })
}
