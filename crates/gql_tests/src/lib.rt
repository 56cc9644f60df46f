//! Tests of the crates between bytes and a merged response, over their public calls alone: values, payload texts,
//! bodies, merging and the client. They show what no contract says: that calls succeed where memory is ample, and worked
//! rows. They stand apart since a crate with tests is proved a second time with them.
#![tactic(auto)]

#[cfg(test)]
mod client;
#[cfg(test)]
mod merge;
#[cfg(test)]
mod multipart;
#[cfg(test)]
mod payload;
#[cfg(test)]
mod tree;
#[cfg(test)]
mod values;
