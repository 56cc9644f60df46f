//! Tests of the lexer, the parser and the printer, over their public calls alone: documents, refusals and their places,
//! hostile texts; and of look-ups in schemas. They show what no contract says: that calls succeed where memory is ample, and worked rows. They stand
//! apart since a crate with tests is proved a second time with them.
#![tactic(auto)]

#[cfg(test)]
mod doc;
#[cfg(test)]
mod lex;
#[cfg(test)]
mod schema;
#[cfg(test)]
mod shared;
