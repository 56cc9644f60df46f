//! What has a meaning as JSON, and the members and lists of it.

ghost use Rattle.std.specs.Prelude.{◌≡◌, None, Some, Err, IfOk, option_map};
ghost use Rattle.serde_json.specs.Find.{get};
ghost use Rattle.serde_json.specs.View.{view, items_view};
ghost use Rattle.gql_payload.specs.Reading.{unless_null, required, optional, each, list_of, optional_list};
ghost use Rattle.gql_payload.specs.declared.from_serde.Misfit.TheVariants.{Wrong, NoMemory};

use gql_tree::{Listed, NoMemory};
use serde_json::Value;
use std::alloc::{AllocError, Global};

/// Why a JSON is not taken for what it should be.
#[derive(Clone, Copy, Debug, PartialEq, Eq)]
pub enum Misfit {
    Wrong,
    NoMemory,
}

impl From<NoMemory> for Misfit {
    ghost from_gives = { λ _ e. e ≡ NoMemory };

    fn from(_: NoMemory) -> Self {
        Misfit::NoMemory
    }
}

impl From<AllocError> for Misfit {
    ghost from_gives = { λ _ e. e ≡ NoMemory };

    fn from(_: AllocError) -> Self {
        Misfit::NoMemory
    }
}

/// What payloads hold, each kind with what a JSON means as it.
pub trait FromSerde: Drop + Sized {
    ghost use Rattle.std.specs.Prelude.{Option};
    ghost use Rattle.serde_json.specs.Data.{Data};

    ghost meaning: { Data → Option Self };

    fn from_serde(alloc: Global, json: &Value) -> Result<Self, Misfit>
        ensures ok { IfOk result (λ it. meaning (view json.now) ≡ Some it) }
        ensures wrong { result ≡ Err Wrong → meaning (view json.now) ≡ None };
}

/// The member of a name, where it is there and not null.
pub fn unless_null<'a>(json: &'a Value, name: &str) -> Option<&'a Value>
    ensures { option_map (λ member. view member.now) result ≡ unless_null (get name.now (view json.now)) }
{
    match json.get(name) {
        Some(Value::Null) => None,
        member => member,
    }
}

/// A member that must be there.
pub fn required<T: FromSerde>(alloc: Global, json: &Value, name: &str) -> Result<T, Misfit>
    ensures ok { IfOk result (λ it. required T.meaning (get name.now (view json.now)) ≡ Some it) }
    ensures wrong { result ≡ Err Wrong → required T.meaning (get name.now (view json.now)) ≡ None }
{
    match json.get(name) {
        Some(member) => T::from_serde(alloc, member),
        None => Err(Misfit::Wrong),
    }
}

/// A member that may be left out.
pub fn optional<T: FromSerde>(alloc: Global, json: &Value, name: &str) -> Result<Option<T>, Misfit>
    ensures ok { IfOk result (λ it. optional T.meaning (unless_null (get name.now (view json.now))) ≡ Some it) }
    ensures wrong { result ≡ Err Wrong → optional T.meaning (unless_null (get name.now (view json.now))) ≡ None }
{
    match unless_null(json, name) {
        Some(member) => Ok(Some(T::from_serde(alloc, member)?)),
        None => Ok(None),
    }
}

/// A list, in order.
pub fn list<T: FromSerde>(alloc: Global, json: &Value) -> Result<Listed<T>, Misfit>
    ensures ok { IfOk result (λ items. list_of T.meaning (view json.now) ≡ Some items) }
    ensures wrong { result ≡ Err Wrong → list_of T.meaning (view json.now) ≡ None }
{
    match json {
        Value::Array(items) => each(alloc, items.as_slice()),
        _ => Err(Misfit::Wrong),
    }
}

fn each<T: FromSerde>(alloc: Global, items: &[Value]) -> Result<Listed<T>, Misfit>
    ensures ok { IfOk result (λ list. each T.meaning (items_view items.now) ≡ Some list) }
    ensures wrong { result ≡ Err Wrong → each T.meaning (items_view items.now) ≡ None }
{
    let mut list = Listed::new(alloc);
    for item in items {
        list.push(T::from_serde(alloc, item)?)?;
    }
    Ok(list)
}

/// A list that may be left out; then it is empty.
pub fn optional_list<T: FromSerde>(
    alloc: Global,
    json: &Value,
    name: &str,
) -> Result<Listed<T>, Misfit>
    ensures ok { IfOk result (λ items. optional_list T.meaning (unless_null (get name.now (view json.now))) ≡ Some items) }
    ensures wrong { result ≡ Err Wrong → optional_list T.meaning (unless_null (get name.now (view json.now))) ≡ None }
{
    match unless_null(json, name) {
        Some(member) => list(alloc, member),
        None => Ok(Listed::new(alloc)),
    }
}
