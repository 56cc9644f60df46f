//! A module a rule.

pub(crate) mod distinct_names;
pub(crate) mod distinct_types;
pub(crate) mod fitting;
pub(crate) mod fitting_defaults;
pub(crate) mod implemented_arguments;
pub(crate) mod implemented_fields;
pub(crate) mod implemented_interfaces;
mod in_turn;
pub(crate) mod inherited_interfaces;
pub(crate) mod input_cycles;
pub(crate) mod input_types;
mod interface_fields;
pub(crate) mod known_types;
pub(crate) mod no_empty_types;
pub(crate) mod no_scalars;
pub(crate) mod one_schema;
pub(crate) mod other_roots;
pub(crate) mod output_types;
pub(crate) mod query_root;
pub(crate) mod reserved_names;
mod rule;
pub(crate) mod union_members;
