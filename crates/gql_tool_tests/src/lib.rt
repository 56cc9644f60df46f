//! Tests of the commands, over the one call that the program makes: command lines, documents, tables and bodies, with the
//! status and every byte that is written. They show what no contract says: that a command succeeds where memory is ample,
//! and worked rows. They stand apart since a crate with tests is proved a second time with them.
#![tactic(auto)]

#[cfg(test)]
mod bodies;
#[cfg(test)]
mod requests;
#[cfg(test)]
mod running;
#[cfg(test)]
mod tables;
