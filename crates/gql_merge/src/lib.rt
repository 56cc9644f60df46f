//! A client's answer, merged from the payloads of one operation.
//!
//! A `Merger` takes the payloads in the order in which they come. The first has the initial data; later
//! ones bring the fields and items of what was announced. It stands between the reader of multipart bodies
//! and the report of a command.
//!
//! Its contract: `Merger::apply` is `Apply` of specs/Apply.antt, which goes by maps from paths to marks.
//! After a refusal the merger is what it was.
#![tactic(auto)]

mod apply;
mod laws;
mod merger;
mod order;
mod parts;
mod refusal;
mod state;

pub use laws::{a_payload_has_one_answer, apply_all, runs_from_the_start};
pub use merger::Merger;
pub use order::{compare_failures, compare_faults};
pub use refusal::MergeRefusal;
pub use state::State;
