//! Payloads as compact JSON.
//!
//! `encode` writes one message of an incremental answer: first `data` and `pending`, later
//! `incremental` and `completed`, with `hasNext` where more than one message comes. `decode` reads
//! one, from any server that keeps the format. It is the layer between the payloads that a delivery
//! makes, or a client puts together, and the frames that carry them.
//!
//! Their contracts: the bytes are `payload_text` of the payload (specs/PayloadText.antt); what is
//! read is the `payload` of specs/Reading.antt, one definition for each object; and what was written
//! is read as the same payload, up to the order of members.
#![tactic(auto)]

mod from_objects;
mod from_serde;
mod laws;
mod objects;
mod parts;
mod read;
mod refusal;
mod report;
mod text;

pub use laws::{
    a_payload_has_no_wrong_member, payload_text_is_one_line, payload_text_is_read_back,
    payload_texts,
};
pub use read::decode;
pub use refusal::PayloadRefusal;
pub use report::encode_report;
pub use text::encode;
