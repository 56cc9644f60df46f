//! What has JSON, and the members that objects get of it.

ghost use Rattle.std.specs.Prelude.{◌≡◌, IfOk, IfSome, OnOk};
ghost use Rattle.std.specs.List.{AllByRecursion};
ghost use Rattle.serde_json.specs.Data.{put};
ghost use Rattle.serde_json.specs.View.{view, members_view};
ghost use Rattle.gql_payload.specs.PayloadText.{array, unless_empty, if_some};
ghost use Rattle.gql_payload.specs.inner.Members.{put_some};

use gql_tree::NoMemory;
use serde_json::{Map, Value};
use std::alloc::Global;

/// What payloads hold, each kind with its JSON, and with what its type keeps.
pub trait ToSerde {
    ghost use Rattle.serde_json.specs.Data.{Data};

    ghost datum: { Self → Data };

    ghost is_typed: { Self → Type 0 };

    fn to_serde(&self, alloc: Global) -> Result<Value, NoMemory>
        ensures json { IfOk result (λ json. view json ≡ datum self.now) }
        ensures typed { OnOk result (is_typed self.now) };
}

/// The array of the items' JSON.
pub fn array<T: ToSerde>(alloc: Global, items: &[T]) -> Result<Value, NoMemory>
    ensures json { IfOk result (λ json. view json ≡ array T.datum items.now) }
    ensures typed { OnOk result (AllByRecursion T.is_typed items.now) }
{
    let mut list = Vec::new(alloc);
    for item in items {
        list.push(item.to_serde(alloc)?)?;
    }
    Ok(Value::Array(list))
}

/// Puts a value under a name.
fn put_value(
    map: &mut Map<String, Value>,
    alloc: Global,
    name: &str,
    value: Value,
) -> Result<(), NoMemory>
    ensures { OnOk result (members_view map.new.entries
        ≡ put name.now (view value) (members_view map.old.entries)) }
{
    Ok(serde_json::put(map, alloc, name, value)?)
}

/// Puts the JSON of an item under a name.
pub fn put<T: ToSerde>(
    map: &mut Map<String, Value>,
    alloc: Global,
    name: &str,
    item: &T,
) -> Result<(), NoMemory>
    ensures json { OnOk result (members_view map.new.entries
        ≡ put name.now (T.datum item.now) (members_view map.old.entries)) }
    ensures typed { OnOk result (T.is_typed item.now) }
{
    put_value(map, alloc, name, item.to_serde(alloc)?)
}

/// Puts the JSON of what is there under a name.
pub fn put_if_some<T: ToSerde>(
    map: &mut Map<String, Value>,
    alloc: Global,
    name: &str,
    item: &Option<T>,
) -> Result<(), NoMemory>
    ensures json { OnOk result (members_view map.new.entries
        ≡ put_some name.now (if_some T.datum item.now) (members_view map.old.entries)) }
    ensures typed { OnOk result (IfSome item.now T.is_typed) }
{
    match item {
        Some(item) => put(map, alloc, name, item),
        None => Ok(()),
    }
}

/// Puts the array of the items' JSON under a name.
pub fn put_array<T: ToSerde>(
    map: &mut Map<String, Value>,
    alloc: Global,
    name: &str,
    items: &[T],
) -> Result<(), NoMemory>
    ensures json { OnOk result (members_view map.new.entries
        ≡ put name.now (array T.datum items.now) (members_view map.old.entries)) }
    ensures typed { OnOk result (AllByRecursion T.is_typed items.now) }
{
    put_value(map, alloc, name, array(alloc, items)?)
}

/// Puts the array of the items' JSON under a name, or does nothing where there are no items.
pub fn put_unless_empty<T: ToSerde>(
    map: &mut Map<String, Value>,
    alloc: Global,
    name: &str,
    items: &[T],
) -> Result<(), NoMemory>
    ensures json { OnOk result (members_view map.new.entries
        ≡ put_some name.now (unless_empty T.datum items.now) (members_view map.old.entries)) }
    ensures typed { OnOk result (AllByRecursion T.is_typed items.now) }
{
    if items.is_empty() {
        return Ok(());
    }
    put_array(map, alloc, name, items)
}
