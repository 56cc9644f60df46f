//! The reader of schemas: type definitions, judged by their rules, and the schema that they say (chapter
//! 3 of the standard of October 2021).
//!
//! A document of type definitions breaks rules at places. What is told is the first rule, in the order
//! of `gql_model`'s `specs/rules/SchemaRules`, that is broken, and its first place in order of the text.
//! Each rule has a module in `rules`, which finds the first place of that rule; `build` makes the schema
//! of definitions that keep them all.
#![tactic(auto)]

mod broken;
mod build;
mod defined;
mod graph;
mod laws;
mod named;
mod reading;
mod refusal;
mod roots;
mod rules;
mod used;

pub use laws::a_text_says_one_schema;
pub use reading::read_schema;
pub use refusal::SchemaRefusal;
