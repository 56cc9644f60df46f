//! A payload's bytes.

ghost use Rattle.std.specs.Prelude.{◌≡◌, ◌≤◌, IfOk};
ghost use Rattle.serde_json.specs.Data.{depth};
ghost use Rattle.gql_tree.specs.declared.delivery.Payload.{Payload};
ghost use Rattle.gql_payload.specs.PayloadText.{payload_data, payload_text};
ghost use Rattle.gql_tree.specs.Sound.{IsSound, SamePayload};
ghost use Rattle.gql_payload.specs.Reading.{Decodes};

use crate::parts::ToSerde;
use gql_tree::{Bytes, NoMemory, Payload};
use std::alloc::Global;

/// The compact JSON of a payload, in UTF-8.
///
/// Takes any payload. In those that make sense line and column of each error are both 0 or both
/// not (line 0 leaves the locations out), `data` is null or an object, and the fields of an entry
/// are an object; where such a text nests at most 127 deep, it decodes to the same payload up to
/// the order of members. Refuses only for want of memory.
pub fn encode(alloc: Global, payload: &Payload) -> Result<Bytes, NoMemory>
    ensures text { IfOk result (λ bytes. bytes ≡ payload_text payload.now) }
    ensures back { IfOk result (λ bytes. IsSound payload.now → depth (payload_data payload.now) ≤ 127
        → (again : Payload) × Decodes bytes again × SamePayload payload.now again) }
{
    let json = payload.to_serde(alloc)?;
    Ok(Bytes::from_vec(json.to_string(alloc)?.into_bytes()))
}
