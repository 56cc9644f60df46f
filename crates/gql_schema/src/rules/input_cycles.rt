ghost use Rattle.std.specs.Prelude.{◌≡◌, ◌||◌, map, flat_map, IfOk};
ghost use Rattle.gql_model.specs.rules.TypeParts.{input_of};
ghost use Rattle.gql_model.specs.rules.types.InputCycles.{cycles_at, holds_itself, input_cycles, needs_itself};
ghost use Rattle.gql_schema.specs.FirstPlace.{first_place};
ghost use Rattle.gql_schema.specs.InputGraphs.{firsts_from, held_graph, needs_graph};
ghost use Rattle.gql_schema.specs.Seen.{defined};

mod held;
mod needed;

use self::held::{held_graph, holds_itself};
use self::needed::{first_numbers, needs_graph, needs_itself};
use super::rule::{TryRule, place_if, try_first_among};
use crate::defined::Defined;
use gql_model::{ByName, InputSyntax};
use gql_tree::{Listed, NoMemory, Spot};
use std::alloc::Global;

/// No input object reaches itself by Non-Null fields that aren't lists, and no input field's default
/// needs itself, directly or through others (Circular References, section 3.10 of the standard, and the
/// same section of its working draft).
pub(crate) fn input_cycle(
    alloc: Global,
    types: &ByName<Defined<'_>>,
) -> Result<Option<Spot>, NoMemory>
    ensures { IfOk result (λ found. found ≡ first_place (input_cycles (map defined types.now))) }
{
    let held = held_graph(alloc, types)?;
    let firsts = first_numbers(alloc, types)?;
    let needs = needs_graph(alloc, types, firsts.as_slice())?;
    let rule = InputCycles {
        alloc,
        types,
        held,
        firsts,
        needs,
    };
    try_first_among(&rule, types.as_slice())
}

#[derive(Drop)]
struct InputCycles<'t, 'a> {
    alloc: Global,
    types: &'t ByName<Defined<'a>>,
    /// Of each type those that its values always hold.
    held: Listed<Listed<u32>>,
    /// Of each type the number of its first input field.
    firsts: Listed<u32>,
    /// Of each input field those whose defaults its own needs.
    needs: Listed<Listed<u32>>,
    ghost holds: { held ≡ held_graph (map defined types.now) },
    ghost numbers: { firsts ≡ firsts_from 0 (map defined types.now) },
    ghost leads: { needs ≡ needs_graph (map defined types.now) },
}

impl<'t, 'a> InputCycles<'t, 'a> {
    /// Whether an input field of the type of a name is on a cycle.
    fn is_on_cycle(&self, of: &str, input: &InputSyntax) -> Result<bool, NoMemory>
        ensures { IfOk result (λ found. found ≡ (holds_itself (map defined self.now.types.now) of.now (input_of input.now) || needs_itself (map defined self.now.types.now) of.now (input_of input.now))) }
    {
        if holds_itself(self.alloc, self.types, self.held.as_slice(), of, input)? {
            return Ok(true);
        }
        needs_itself(
            self.alloc,
            self.types,
            self.firsts.as_slice(),
            self.needs.as_slice(),
            of,
            input,
        )
    }
}

impl<'t, 'a, 'd> TryRule<Defined<'d>> for InputCycles<'t, 'a> {
    ghost places = { λ it of. flat_map (cycles_at (map defined it.types.now) (defined of)) (map input_of of.inputs.now) };

    fn first_in(&self, of: &Defined<'d>) -> Result<Option<Spot>, NoMemory> {
        try_first_among(&OfType { cycles: self, of }, of.inputs)
    }
}

/// The rule, of the input fields of a type.
#[derive(Drop)]
struct OfType<'c, 't, 'a, 'd> {
    cycles: &'c InputCycles<'t, 'a>,
    of: &'c Defined<'d>,
}

impl<'c, 't, 'a, 'd> TryRule<InputSyntax> for OfType<'c, 't, 'a, 'd> {
    ghost places = { λ it input. cycles_at (map defined it.cycles.now.types.now) (defined it.of.now) (input_of input) };

    fn first_in(&self, of: &InputSyntax) -> Result<Option<Spot>, NoMemory> {
        let found = self.cycles.is_on_cycle(self.of.name.name.as_str(), of)?;
        Ok(place_if(found, of.name.spot))
    }
}
