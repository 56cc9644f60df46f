//! From type definitions that keep the rules to the schema that they say.

mod defaults;
mod fields;
mod integers;
pub(crate) mod numbers;
pub(crate) mod schema;
mod types;
