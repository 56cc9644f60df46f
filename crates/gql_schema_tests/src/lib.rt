//! Tests of the reader of schemas, over its public calls alone: rules and their places, what schemas say, hostile texts.
//! They show what no contract says: that calls succeed where memory is ample, and worked rows. They stand apart since a
//! crate with tests is proved a second time with them.
#![tactic(auto)]

#[cfg(test)]
mod hostile;
#[cfg(test)]
mod rules;
#[cfg(test)]
mod schemas;
