//! The payloads of a document of heroes.

ghost use Rattle.std.specs.Prelude.{◌≡◌, ◌∷◌, [], true, false, IfOk, decimal};
ghost use Rattle.gql_tool.specs.hero.Hero.{hero_object as hero_object_of, single as single_of, announcing as announcing_of, completing_by};

use crate::hero::region::{Leaves, hero_path};
use gql_tree::{
    Completed, Content, Entry, Fault, Fields, Listed, NoMemory, Path, Payload, Pending, Text, Value,
};
use std::alloc::Global;

fn list_of<T: Drop>(alloc: Global, item: T) -> Result<Listed<T>, NoMemory>
    ensures { IfOk result (λ list. list ≡ item ∷ []) }
{
    let mut list = Listed::new(alloc);
    list.push(item)?;
    Ok(list)
}

/// The object whose one member is `hero`.
fn hero_object(alloc: Global, value: Value) -> Result<Value, NoMemory>
    ensures { IfOk result (λ object. object ≡ hero_object_of value) }
{
    let mut fields = Fields::new(alloc);
    fields.push(Text::copy_of(alloc, "hero")?, value)?;
    Ok(Value::Object(fields))
}

/// The one payload of a response in which nothing waits.
pub(crate) fn single(
    alloc: Global,
    value: Value,
    faults: Listed<Fault>,
) -> Result<Payload, NoMemory>
    ensures { IfOk result (λ payload. payload ≡ single_of value faults) }
{
    Ok(Payload {
        initial: Some(hero_object(alloc, value)?),
        errors: faults,
        pending: Listed::new(alloc),
        incremental: Listed::new(alloc),
        completed: Listed::new(alloc),
        has_next: None,
    })
}

/// The id of the one deferred fragment.
#[tactic(auto, using(crate::proofs::Digits::decimal_zero))]
fn first_id(alloc: Global) -> Result<Text, NoMemory>
    ensures { IfOk result (λ id. id ≡ decimal 0) }
{
    Text::copy_of(alloc, "0")
}

/// The first of two payloads.
pub(crate) fn announcing(
    alloc: Global,
    value: Value,
    faults: Listed<Fault>,
    label: Option<Text>,
) -> Result<Payload, NoMemory>
    ensures { IfOk result (λ payload. payload ≡ announcing_of value faults label) }
{
    let pending = Pending {
        id: first_id(alloc)?,
        path: hero_path(alloc)?,
        label,
    };
    Ok(Payload {
        initial: Some(hero_object(alloc, value)?),
        errors: faults,
        pending: list_of(alloc, pending)?,
        incremental: Listed::new(alloc),
        completed: Listed::new(alloc),
        has_next: Some(true),
    })
}

/// A completed record of the deferred fragment; it failed where there are errors.
fn completed(alloc: Global, errors: Listed<Fault>) -> Result<Listed<Completed>, NoMemory>
    ensures { IfOk result (λ list. list ≡ record { id = decimal 0; errors = errors } ∷ []) }
{
    let id = first_id(alloc)?;
    list_of(alloc, Completed { id, errors })
}

/// The deferred leaves that failed.
fn failing(alloc: Global, faults: Listed<Fault>) -> Result<Payload, NoMemory>
    ensures { IfOk result (λ payload. payload ≡ completing_by true Value.Null faults) }
{
    Ok(Payload {
        initial: None,
        errors: Listed::new(alloc),
        pending: Listed::new(alloc),
        incremental: Listed::new(alloc),
        completed: completed(alloc, faults)?,
        has_next: Some(false),
    })
}

/// The deferred leaves' values, with the errors that came on the way.
fn delivering(alloc: Global, value: Value, errors: Listed<Fault>) -> Result<Payload, NoMemory>
    ensures { IfOk result (λ payload. payload ≡ completing_by false value errors) }
{
    let entry = Entry {
        id: first_id(alloc)?,
        sub_path: Path {
            keys: Listed::new(alloc),
        },
        content: Content::Fields(value),
        errors,
    };
    Ok(Payload {
        initial: None,
        errors: Listed::new(alloc),
        pending: Listed::new(alloc),
        incremental: list_of(alloc, entry)?,
        completed: completed(alloc, Listed::new(alloc))?,
        has_next: Some(false),
    })
}

/// The payload that completes the deferred leaves.
pub(crate) fn completing(alloc: Global, leaves: Leaves) -> Result<Payload, NoMemory>
    ensures { IfOk result (λ payload. payload ≡ completing_by leaves.bubbled (Value.Object leaves.members) leaves.faults) }
{
    if leaves.bubbled {
        failing(alloc, leaves.faults)
    } else {
        delivering(alloc, Value::Object(leaves.members), leaves.faults)
    }
}
