//! The first rule that a document of type definitions breaks.

ghost use Rattle.std.specs.Prelude.{◌≡◌, map, option_map, IfOk};
ghost use Rattle.gql_model.specs.rules.Places.{first_broken};
ghost use Rattle.gql_model.specs.rules.TypeParts.{definitions, types as types_in};
ghost use Rattle.gql_schema.specs.Seen.{defined};
ghost use Rattle.gql_model.specs.rules.SchemaRules.{first_broken_rule};
ghost use Rattle.gql_schema.specs.Groups.{told, name_rules, root_rules, part_rules, interface_rules, input_rules};

use crate::defined::Defined;
use crate::rules::distinct_names::repeated_name;
use crate::rules::distinct_types::repeated_type;
use crate::rules::fitting_defaults::misfitting_default;
use crate::rules::implemented_arguments::misfitting_argument;
use crate::rules::implemented_fields::unimplemented_field;
use crate::rules::implemented_interfaces::faulty_interface;
use crate::rules::inherited_interfaces::missing_interface;
use crate::rules::input_cycles::input_cycle;
use crate::rules::input_types::output_taken_in;
use crate::rules::known_types::unknown_type;
use crate::rules::no_empty_types::empty_type;
use crate::rules::no_scalars::scalar_definition;
use crate::rules::one_schema::repeated_schema;
use crate::rules::other_roots::faulty_root;
use crate::rules::output_types::input_given_out;
use crate::rules::query_root::faulty_query;
use crate::rules::reserved_names::reserved_name;
use crate::rules::union_members::faulty_member;
use gql_model::{ByName, TypeDocument};
use gql_tree::{NoMemory, Spot};
use std::alloc::Global;

/// A rule that is broken, by its number from 1, and the first place that breaks it.
#[derive(Debug, Drop)]
pub(crate) struct Broken {
    pub rule: u32,
    pub spot: Spot,
}

/// The first rule that a document breaks, and its first place.
pub(crate) fn first_broken(
    alloc: Global,
    document: &TypeDocument,
    types: &ByName<Defined<'_>>,
) -> Result<Option<Broken>, NoMemory>
    requires { map defined types.now ≡ types_in (definitions document.now) }
    ensures { IfOk result (λ found. option_map told found ≡ first_broken_rule document.now) }
{
    if let Some(broken) = broken_by_names(document, types) {
        return Ok(Some(broken));
    }
    if let Some(broken) = broken_by_roots(document, types) {
        return Ok(Some(broken));
    }
    if let Some(broken) = broken_by_parts(alloc, types) {
        return Ok(Some(broken));
    }
    if let Some(broken) = broken_by_interfaces(alloc, types)? {
        return Ok(Some(broken));
    }
    broken_by_inputs(alloc, types)
}

/// Of the rules 1 to 4.
fn broken_by_names(document: &TypeDocument, types: &ByName<Defined<'_>>) -> Option<Broken>
    requires { map defined types.now ≡ types_in (definitions document.now) }
    ensures { option_map told result ≡ first_broken 1 (name_rules (map defined types.now) (definitions document.now)) }
{
    if let Some(spot) = repeated_type(types) {
        return Some(Broken { rule: 1, spot });
    }
    if let Some(spot) = reserved_name(types.as_slice()) {
        return Some(Broken { rule: 2, spot });
    }
    if let Some(spot) = scalar_definition(types.as_slice()) {
        return Some(Broken { rule: 3, spot });
    }
    if let Some(spot) = unknown_type(document, types) {
        return Some(Broken { rule: 4, spot });
    }
    None
}

/// Of the rules 5 to 7.
fn broken_by_roots(document: &TypeDocument, types: &ByName<Defined<'_>>) -> Option<Broken>
    ensures { option_map told result ≡ first_broken 5 (root_rules (map defined types.now) (definitions document.now)) }
{
    if let Some(spot) = repeated_schema(document) {
        return Some(Broken { rule: 5, spot });
    }
    if let Some(spot) = faulty_query(document, types) {
        return Some(Broken { rule: 6, spot });
    }
    if let Some(spot) = faulty_root(document, types) {
        return Some(Broken { rule: 7, spot });
    }
    None
}

/// Of the rules 8 to 12.
fn broken_by_parts(alloc: Global, types: &ByName<Defined<'_>>) -> Option<Broken>
    ensures { option_map told result ≡ first_broken 8 (part_rules (map defined types.now)) }
{
    if let Some(spot) = empty_type(types.as_slice()) {
        return Some(Broken { rule: 8, spot });
    }
    if let Some(spot) = repeated_name(alloc, types.as_slice()) {
        return Some(Broken { rule: 9, spot });
    }
    if let Some(spot) = input_given_out(types) {
        return Some(Broken { rule: 10, spot });
    }
    if let Some(spot) = output_taken_in(types) {
        return Some(Broken { rule: 11, spot });
    }
    if let Some(spot) = faulty_member(alloc, types) {
        return Some(Broken { rule: 12, spot });
    }
    None
}

/// Of the rules 13 to 16.
fn broken_by_interfaces(
    alloc: Global,
    types: &ByName<Defined<'_>>,
) -> Result<Option<Broken>, NoMemory>
    ensures { IfOk result (λ found. option_map told found ≡ first_broken 13 (interface_rules (map defined types.now))) }
{
    if let Some(spot) = faulty_interface(alloc, types) {
        return Ok(Some(Broken { rule: 13, spot }));
    }
    if let Some(spot) = missing_interface(alloc, types)? {
        return Ok(Some(Broken { rule: 14, spot }));
    }
    if let Some(spot) = unimplemented_field(types) {
        return Ok(Some(Broken { rule: 15, spot }));
    }
    if let Some(spot) = misfitting_argument(types) {
        return Ok(Some(Broken { rule: 16, spot }));
    }
    Ok(None)
}

/// Of the rules 17 and 18.
fn broken_by_inputs(alloc: Global, types: &ByName<Defined<'_>>) -> Result<Option<Broken>, NoMemory>
    ensures { IfOk result (λ found. option_map told found ≡ first_broken 17 (input_rules (map defined types.now))) }
{
    if let Some(spot) = misfitting_default(types) {
        return Ok(Some(Broken { rule: 17, spot }));
    }
    if let Some(spot) = input_cycle(alloc, types)? {
        return Ok(Some(Broken { rule: 18, spot }));
    }
    Ok(None)
}
