//! The JSON of each thing that a payload holds. An object gets its members from the last name to
//! the first, so that each new one comes before the others.

ghost use Rattle.std.specs.Prelude.{◌≡◌, ℕ, Some, IfOk, OnOk, codes};
ghost use Rattle.serde_json.specs.Data.{boolean, string};
ghost use Rattle.serde_json.specs.View.{view, members_view};
ghost use Rattle.gql_tree.specs.Json.{data_of};
ghost use Rattle.gql_payload.specs.PayloadText.{number, key_data, path_data, location_data, locations_data, fault_data, pending_data, fields_data, items_data, entry_data, completed_data, payload_data};
ghost use Rattle.gql_payload.specs.inner.Members.{put_some};
ghost use Rattle.gql_tree.specs.Typed.{IsTypedValue, IsTypedKey, IsTypedPath, IsTypedFault, IsTypedPending, HasTypedFields, HasTypedItems, IsTypedEntry, IsTypedCompleted, IsTypedPayload};

use crate::parts::{ToSerde, array, put, put_array, put_if_some, put_unless_empty};
use gql_tree::{
    Completed, Content, Entry, Fault, Key, NoMemory, Path, Payload, Pending, Spot, Text,
};
use serde_json::{Map, Value};
use std::alloc::Global;

impl ToSerde for gql_tree::Value {
    ghost datum = { data_of };

    ghost is_typed = { IsTypedValue };

    fn to_serde(&self, alloc: Global) -> Result<Value, NoMemory> {
        self.to_serde(alloc)
    }
}

impl ToSerde for bool {
    ghost datum = { boolean };

    ghost is_typed = { λ _. Unit };

    fn to_serde(&self, _: Global) -> Result<Value, NoMemory> {
        Ok(Value::Bool(*self))
    }
}

impl ToSerde for u32 {
    ghost datum = { number };

    ghost is_typed = { λ _. Unit };

    fn to_serde(&self, _: Global) -> Result<Value, NoMemory> {
        Ok(Value::from(*self))
    }
}

impl ToSerde for Text {
    ghost datum = { string };

    ghost is_typed = { λ _. Unit };

    fn to_serde(&self, alloc: Global) -> Result<Value, NoMemory> {
        Ok(Value::try_from_str(alloc, self.as_str())?)
    }
}

impl ToSerde for Key {
    ghost datum = { key_data };

    ghost is_typed = { IsTypedKey };

    fn to_serde(&self, alloc: Global) -> Result<Value, NoMemory> {
        match self {
            Key::Name(name) => name.to_serde(alloc),
            Key::Index(index) => Ok(Value::from(*index)),
        }
    }
}

impl ToSerde for Path {
    ghost datum = { path_data };

    ghost is_typed = { IsTypedPath };

    fn to_serde(&self, alloc: Global) -> Result<Value, NoMemory> {
        array(alloc, self.keys.as_slice())
    }
}

/// A place in the text of a request.
impl ToSerde for Spot {
    ghost datum = { λ spot. location_data spot.line spot.column };

    ghost is_typed = { λ _. Unit };

    fn to_serde(&self, alloc: Global) -> Result<Value, NoMemory> {
        let mut map = Map::new(alloc);
        put(&mut map, alloc, "line", &self.line)?;
        put(&mut map, alloc, "column", &self.column)?;
        Ok(Value::Object(map))
    }
}

/// Puts the list of an error's one place; line 0 means that it has none.
fn put_locations(
    map: &mut Map<String, Value>,
    alloc: Global,
    line: u32,
    column: u32,
) -> Result<(), NoMemory>
    ensures { OnOk result (members_view map.new.entries
        ≡ put_some (codes "locations") (locations_data line column) (members_view map.old.entries)) }
{
    if line == 0 {
        return Ok(());
    }
    put_array(map, alloc, "locations", &[Spot { line, column }])
}

impl ToSerde for Fault {
    ghost datum = { fault_data };

    ghost is_typed = { IsTypedFault };

    fn to_serde(&self, alloc: Global) -> Result<Value, NoMemory> {
        let mut map = Map::new(alloc);
        put_if_some(&mut map, alloc, "path", &self.path)?;
        put(&mut map, alloc, "message", &self.message)?;
        put_locations(&mut map, alloc, self.line, self.column)?;
        Ok(Value::Object(map))
    }
}

impl ToSerde for Pending {
    ghost datum = { pending_data };

    ghost is_typed = { IsTypedPending };

    fn to_serde(&self, alloc: Global) -> Result<Value, NoMemory> {
        let mut map = Map::new(alloc);
        put(&mut map, alloc, "path", &self.path)?;
        put_if_some(&mut map, alloc, "label", &self.label)?;
        put(&mut map, alloc, "id", &self.id)?;
        Ok(Value::Object(map))
    }
}

/// Puts the fields of an entry, where it has fields.
fn put_fields(
    map: &mut Map<String, Value>,
    alloc: Global,
    content: &Content,
) -> Result<(), NoMemory>
    ensures json { OnOk result (members_view map.new.entries
        ≡ put_some (codes "data") (fields_data content.now) (members_view map.old.entries)) }
    ensures typed { OnOk result (HasTypedFields content.now) }
{
    match content {
        Content::Fields(fields) => put(map, alloc, "data", fields),
        Content::Items(_) => Ok(()),
    }
}

/// Puts the items of an entry, where it has items: an empty list too.
fn put_items(map: &mut Map<String, Value>, alloc: Global, content: &Content) -> Result<(), NoMemory>
    ensures json { OnOk result (members_view map.new.entries
        ≡ put_some (codes "items") (items_data content.now) (members_view map.old.entries)) }
    ensures typed { OnOk result (HasTypedItems content.now) }
{
    match content {
        Content::Fields(_) => Ok(()),
        Content::Items(items) => put_array(map, alloc, "items", items.as_slice()),
    }
}

impl ToSerde for Entry {
    ghost datum = { entry_data };

    ghost is_typed = { IsTypedEntry };

    fn to_serde(&self, alloc: Global) -> Result<Value, NoMemory> {
        let mut map = Map::new(alloc);
        put_unless_empty(&mut map, alloc, "subPath", self.sub_path.keys.as_slice())?;
        put_items(&mut map, alloc, &self.content)?;
        put(&mut map, alloc, "id", &self.id)?;
        put_unless_empty(&mut map, alloc, "errors", self.errors.as_slice())?;
        put_fields(&mut map, alloc, &self.content)?;
        Ok(Value::Object(map))
    }
}

impl ToSerde for Completed {
    ghost datum = { completed_data };

    ghost is_typed = { IsTypedCompleted };

    fn to_serde(&self, alloc: Global) -> Result<Value, NoMemory> {
        let mut map = Map::new(alloc);
        put(&mut map, alloc, "id", &self.id)?;
        put_unless_empty(&mut map, alloc, "errors", self.errors.as_slice())?;
        Ok(Value::Object(map))
    }
}

impl ToSerde for Payload {
    ghost datum = { payload_data };

    ghost is_typed = { IsTypedPayload };

    fn to_serde(&self, alloc: Global) -> Result<Value, NoMemory> {
        let mut map = Map::new(alloc);
        put_unless_empty(&mut map, alloc, "pending", self.pending.as_slice())?;
        put_unless_empty(&mut map, alloc, "incremental", self.incremental.as_slice())?;
        put_if_some(&mut map, alloc, "hasNext", &self.has_next)?;
        put_unless_empty(&mut map, alloc, "errors", self.errors.as_slice())?;
        put_if_some(&mut map, alloc, "data", &self.initial)?;
        put_unless_empty(&mut map, alloc, "completed", self.completed.as_slice())?;
        Ok(Value::Object(map))
    }
}
