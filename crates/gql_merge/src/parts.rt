//! What the steps read off a payload and off the open pendings.

ghost use Rattle.std.specs.Prelude.{◌≡◌, ◌++◌, Some, None, IfOk, OnOk};
ghost use Rattle.std.specs.Option.{option_copied};
ghost use Rattle.gql_merge.specs.declared.refusal.MergeRefusal.TheVariants.{BadInitial, UnknownId};
ghost use Rattle.gql_merge.specs.Apply.{OnRefusal, begun, first_value, is_known, opened, target, without, failed, faults_of, is_last};

use crate::MergeRefusal;
use gql_tree::{
    Entry, Failure, Fault, Key, Listed, NoMemory, Payload, Pending, Text, TryCopy, Value,
};

/// The value that a first payload gives: null where it has errors alone.
fn first_value(payload: &Payload) -> Result<Value, MergeRefusal>
    ensures ok { IfOk result (λ value. first_value payload.now.initial payload.now.errors ≡ Some value) }
    ensures refused { OnRefusal result (λ e. (e ≡ BadInitial) × (first_value payload.now.initial payload.now.errors ≡ None)) }
{
    match &payload.initial {
        Some(value) => Ok(value.copy()?),
        None => {
            if payload.errors.is_empty() {
                return Err(MergeRefusal::BadInitial);
            }
            Ok(Value::Null)
        }
    }
}

/// The value behind a payload's beginning: a later payload has no data, and keeps what stands.
pub(crate) fn begun(value: Option<Value>, payload: &Payload) -> Result<Value, MergeRefusal>
    ensures ok { IfOk result (λ new. begun value payload.now ≡ Some new) }
    ensures refused { OnRefusal result (λ e. (e ≡ BadInitial) × (begun value payload.now ≡ None)) }
{
    match value {
        None => first_value(payload),
        Some(value) => match &payload.initial {
            Some(_) => Err(MergeRefusal::BadInitial),
            None => Ok(value),
        },
    }
}

pub(crate) fn is_known(id: &str, ids: &[Text]) -> bool
    ensures { result ≡ is_known id.now ids.now }
{
    ids.iter().any(|known| known.as_str() == id)
}

/// The open pending of an id.
pub(crate) fn opened<'a>(id: &str, pendings: &'a [Pending]) -> Option<&'a Pending>
    ensures { option_copied result ≡ opened id.now pendings.now }
{
    for pending in pendings {
        if pending.id.as_str() == id {
            return Some(pending);
        }
    }
    None
}

/// The path that an entry is for.
pub(crate) fn target(entry: &Entry, pendings: &[Pending]) -> Result<Listed<Key>, MergeRefusal>
    ensures ok { IfOk result (λ path. target entry.now pendings.now ≡ Some path) }
    ensures refused { OnRefusal result (λ e. (e ≡ UnknownId) × (target entry.now pendings.now ≡ None)) }
{
    match opened(entry.id.as_str(), pendings) {
        None => Err(MergeRefusal::UnknownId),
        Some(pending) => {
            let mut keys = pending.path.keys.copy()?;
            keys.append(entry.sub_path.keys.copy()?)?;
            Ok(keys)
        }
    }
}

pub(crate) fn without(id: &str, pendings: Listed<Pending>) -> Listed<Pending>
    ensures { result ≡ without id.now pendings }
{
    let mut items = pendings.into_vec();
    items.retain(|pending| pending.id.as_str() != id);
    Listed::from_vec(items)
}

/// Adds a failure of the pending where there are errors.
pub(crate) fn add_failed(
    failures: &mut Listed<Failure>,
    pending: &Pending,
    errors: &Listed<Fault>,
) -> Result<(), NoMemory>
    ensures { OnOk result (failures.new ≡ failures.old ++ failed pending.now errors.now) }
{
    if errors.is_empty() {
        return Ok(());
    }
    failures.push(Failure {
        path: pending.path.copy()?,
        label: pending.label.copy()?,
        errors: errors.copy()?,
    })
}

/// The payload's own errors, and then those of its entries.
pub(crate) fn faults_of(payload: &Payload) -> Result<Listed<Fault>, NoMemory>
    ensures { IfOk result (λ faults. faults ≡ faults_of payload.now) }
{
    let mut faults = payload.errors.copy()?;
    for entry in payload.incremental.as_slice() {
        faults.append(entry.errors.copy()?)?;
    }
    Ok(faults)
}

/// Whether no further payload comes.
pub(crate) fn is_last(has_next: Option<bool>) -> bool
    ensures { result ≡ is_last has_next }
{
    match has_next {
        Some(more) => !more,
        None => true,
    }
}
