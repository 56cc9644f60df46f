//! Executable documents and type definitions, by chapters 2 and 3 of the standard of October 2021.
//!
//! `parse` reads a document, or says what is in the way of one. Its contract rests on the grammar, a
//! relation between tokens and documents (specs/Grammar.antt), and on what the first thing in the way
//! of a document is (specs/Answer.antt); a text has one answer by the contract of
//! `a_text_has_one_answer`. How the parser's own functions read is specs/inner/Reading.antt, of
//! which no public clause speaks; proofs/Productions.antt shows that it is the grammar.
//!
//! `parse_types` reads type definitions in the same way, by the grammar of specs/TypeGrammar.antt; a
//! text has one answer by the contract of `type_definitions_have_one_answer`. The parser's functions
//! read them as specs/inner/TypeReading.antt has it, which proofs/TypeProductions.antt shows to be the
//! grammar.
//!
//! `print` writes a document (specs/Printed.antt), and what it writes is that document again: the
//! contract of `a_printed_document_reads_back`. `string_value` says what a string token means
//! (specs/StringValue.antt), which is what the standard says of it: the contract of
//! `strings_mean_what_the_standard_says`.
#![tactic(auto)]

mod block_string;
mod definitions;
mod laws;
mod parser;
mod parsing;
mod printing;
mod quoted_string;
mod refusal;
mod selections;
mod string_token;
mod terminal;
mod type_definitions;
mod type_documents;
mod type_fields;
mod type_names;
mod values;
mod variables;

pub use laws::{
    a_printed_document_reads_back, a_printed_string_reads_back, a_text_has_one_answer,
    strings_mean_what_the_standard_says, type_definitions_have_one_answer,
};
pub use parsing::{parse, parse_types};
pub use printing::print;
pub use refusal::ParseRefusal;
pub use string_token::string_value;
