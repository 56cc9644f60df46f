//! Values, paths, and what regions and payloads hold.
#![tactic(auto)]

mod as_json;
mod bytes;
mod copy;
mod delivery;
mod fields;
mod from_json;
mod graft;
mod laws;
mod listed;
mod memory;
mod path;
mod replace;
mod shared;
mod text;
mod unite;
mod value;

pub use bytes::Bytes;
pub use copy::TryCopy;
pub use delivery::{
    Asked, Completed, Content, Detail, Entry, Failure, Fault, Frag, FragId, Group, Occurrence,
    Outcome, Payload, Pending, RegionResult, Row, Spot, Stream, Task, TaskWork,
};
pub use fields::{Fields, Named};
pub use from_json::NumberRefusal;
pub use graft::GraftRefusal;
pub use laws::{
    a_forest_has_one_response, deliveries, flat_is_finite, one_json_is_one_value, unions_exist,
};
pub use listed::Listed;
pub use memory::NoMemory;
pub use path::{Key, Path};
pub use shared::types_may_be_shared;
pub use text::Text;
pub use value::{Member, Value};
