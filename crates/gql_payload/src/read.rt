//! A payload from its bytes.

ghost use Rattle.std.specs.Prelude.{◌≡◌, List, ℕ, None, Some, Ok, Err, IfOk, IfErr, IsUtf8};
ghost use Rattle.serde_json.specs.Data.{Data};
ghost use Rattle.serde_json.specs.Find.{as_object};
ghost use Rattle.serde_json.specs.Read.{read};
ghost use Rattle.serde_json.specs.View.{view};
ghost use Rattle.gql_payload.specs.Reading.{payload, wrong_member, IsJson, IsJsonObject, Decodes};
ghost use Rattle.gql_payload.specs.inner.WrongAt.{WrongAt};
ghost use Rattle.gql_payload.specs.declared.from_serde.Misfit.TheVariants as misfit;
ghost use Rattle.gql_payload.specs.declared.refusal.PayloadRefusal.TheVariants.{NotJson, NotAnObject, Wrong, NoMemory};

use crate::from_objects::initial;
use crate::from_serde::{Misfit, optional, optional_list};
use crate::refusal::PayloadRefusal;
use gql_tree::{NoMemory, Payload, Text};
use serde_json::Value;
use std::alloc::Global;

/// The payload that the bytes are.
///
/// Takes what `encode` writes, and what else a server may write: white space, names in any order,
/// members of other names anywhere, and null or an empty list for what may be left out.
pub fn decode(alloc: Global, bytes: &[u8]) -> Result<Payload, PayloadRefusal>
    ensures ok { IfOk result (λ payload. Decodes bytes.now payload) }
    ensures not_json { result ≡ Err NotJson → IsUtf8 bytes.now → read bytes.now ≡ None }
    ensures not_an_object { result ≡ Err NotAnObject → (d : Data) × IsJson bytes.now d × (as_object d ≡ None) }
    ensures wrong { (member : List ℕ) → result ≡ Err (Wrong member)
        → (d : Data) × IsJsonObject bytes.now d × (wrong_member d ≡ Some member) }
{
    match Value::from_slice(alloc, bytes) {
        Ok(json) => {
            if json.is_object() {
                payload_in(alloc, &json)
            } else {
                Err(PayloadRefusal::NotAnObject)
            }
        }
        Err(error) => {
            if error.is_memory() {
                Err(PayloadRefusal::NoMemory)
            } else {
                Err(PayloadRefusal::NotJson)
            }
        }
    }
}

/// The payload that an object is: its members in byte order of their names.
fn payload_in(alloc: Global, json: &Value) -> Result<Payload, PayloadRefusal>
    ensures ok { IfOk result (λ it. payload (view json.now) ≡ Some it) }
    ensures err { IfErr result (WrongAt (λ member. wrong_member (view json.now) ≡ Some member)) }
{
    let completed = at(alloc, "completed", optional_list(alloc, json, "completed"))?;
    let initial = at(alloc, "data", initial(alloc, json))?;
    let errors = at(alloc, "errors", optional_list(alloc, json, "errors"))?;
    let has_next = at(alloc, "hasNext", optional(alloc, json, "hasNext"))?;
    let incremental = at(
        alloc,
        "incremental",
        optional_list(alloc, json, "incremental"),
    )?;
    let pending = at(alloc, "pending", optional_list(alloc, json, "pending"))?;
    Ok(Payload {
        initial,
        errors,
        pending,
        incremental,
        completed,
        has_next,
    })
}

/// What was read at a member of a payload.
fn at<T: Drop>(alloc: Global, name: &str, read: Result<T, Misfit>) -> Result<T, PayloadRefusal>
    ensures ok { IfOk result (λ it. read ≡ Ok it) }
    ensures err { IfErr result (WrongAt (λ member. (member ≡ name.now) × (read ≡ Err misfit.Wrong))) }
{
    match read {
        Ok(it) => Ok(it),
        Err(Misfit::Wrong) => Err(PayloadRefusal::Wrong {
            member: Text::copy_of(alloc, name)?,
        }),
        Err(Misfit::NoMemory) => Err(PayloadRefusal::NoMemory),
    }
}
