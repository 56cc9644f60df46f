//! What a JSON means as each thing that a payload holds. Members of other names mean nothing.

ghost use Rattle.std.specs.Prelude.{◌≡◌, None, Some, Err, IfOk, codes};
ghost use Rattle.serde_json.specs.Find.{get, as_str, as_bool};
ghost use Rattle.serde_json.specs.View.{view};
ghost use Rattle.gql_payload.specs.Reading.{unless_null, required, whole, counted, value, fields, key, path, location, locations, fault, pending, content, entry, completed, initial_of};
ghost use Rattle.gql_payload.specs.declared.from_serde.Misfit.TheVariants.{Wrong};

use crate::from_serde::{FromSerde, Misfit, list, optional, optional_list, required, unless_null};
use gql_tree::{Completed, Content, Entry, Fault, Key, NumberRefusal, Path, Pending, Spot, Text};
use serde_json::Value;
use std::alloc::Global;

impl FromSerde for Text {
    ghost meaning = { as_str };

    fn from_serde(alloc: Global, json: &Value) -> Result<Self, Misfit> {
        match json.as_str() {
            Some(text) => Ok(Text::copy_of(alloc, text)?),
            None => Err(Misfit::Wrong),
        }
    }
}

impl FromSerde for bool {
    ghost meaning = { as_bool };

    fn from_serde(_: Global, json: &Value) -> Result<Self, Misfit> {
        match json.as_bool() {
            Some(truth) => Ok(truth),
            None => Err(Misfit::Wrong),
        }
    }
}

impl FromSerde for gql_tree::Value {
    ghost meaning = { value };

    fn from_serde(alloc: Global, json: &Value) -> Result<Self, Misfit> {
        match gql_tree::Value::from_json(alloc, json) {
            Ok(value) => Ok(value),
            Err(NumberRefusal::BadNumber) => Err(Misfit::Wrong),
            Err(NumberRefusal::NoMemory) => Err(Misfit::NoMemory),
        }
    }
}

/// An object of values.
fn fields(alloc: Global, json: &Value) -> Result<gql_tree::Value, Misfit>
    ensures ok { IfOk result (λ it. fields (view json.now) ≡ Some it) }
    ensures wrong { result ≡ Err Wrong → fields (view json.now) ≡ None }
{
    match json {
        Value::Object(_) => gql_tree::Value::from_serde(alloc, json),
        _ => Err(Misfit::Wrong),
    }
}

/// A whole number from 0 to 4,294,967,295.
fn whole(json: &Value) -> Option<u32>
    ensures { result ≡ whole (view json.now) }
{
    match json.as_u64() {
        Some(number) => {
            if number < 4_294_967_296 {
                Some(number as u32)
            } else {
                None
            }
        }
        None => None,
    }
}

/// A member that is such a number, and not 0.
fn counted(json: &Value, name: &str) -> Option<u32>
    ensures { result ≡ required counted (get name.now (view json.now)) }
{
    let number = whole(json.get(name)?)?;
    if 0 < number { Some(number) } else { None }
}

impl FromSerde for Key {
    ghost meaning = { key };

    fn from_serde(alloc: Global, json: &Value) -> Result<Self, Misfit> {
        match json {
            Value::String(text) => Ok(Key::Name(Text::from_string(text.clone()?))),
            _ => match whole(json) {
                Some(index) => Ok(Key::Index(index)),
                None => Err(Misfit::Wrong),
            },
        }
    }
}

impl FromSerde for Path {
    ghost meaning = { path };

    fn from_serde(alloc: Global, json: &Value) -> Result<Self, Misfit> {
        Ok(Path {
            keys: list(alloc, json)?,
        })
    }
}

/// A place in the text of a request.
fn location(json: &Value) -> Option<Spot>
    ensures { result ≡ location (view json.now) }
{
    let line = counted(json, "line")?;
    let column = counted(json, "column")?;
    Some(Spot { line, column })
}

/// The first place of an error; line 0 and column 0 where it has none.
fn locations(json: &Value) -> Option<Spot>
    ensures { result ≡ locations (unless_null (get (codes "locations") (view json.now))) }
{
    let nowhere = Spot { line: 0, column: 0 };
    match unless_null(json, "locations") {
        Some(Value::Array(items)) => match items.as_slice().first() {
            Some(item) => location(item),
            None => Some(nowhere),
        },
        Some(_) => None,
        None => Some(nowhere),
    }
}

impl FromSerde for Fault {
    ghost meaning = { fault };

    fn from_serde(alloc: Global, json: &Value) -> Result<Self, Misfit> {
        let message = required(alloc, json, "message")?;
        let Some(spot) = locations(json) else {
            return Err(Misfit::Wrong);
        };
        let path = optional(alloc, json, "path")?;
        Ok(Fault {
            message,
            line: spot.line,
            column: spot.column,
            path,
        })
    }
}

impl FromSerde for Pending {
    ghost meaning = { pending };

    fn from_serde(alloc: Global, json: &Value) -> Result<Self, Misfit> {
        let id = required(alloc, json, "id")?;
        let path = required(alloc, json, "path")?;
        let label = optional(alloc, json, "label")?;
        Ok(Pending { id, path, label })
    }
}

/// The fields or the items of an entry: exactly one of the two.
fn content(alloc: Global, json: &Value) -> Result<Content, Misfit>
    ensures ok { IfOk result (λ it. content (get (codes "data") (view json.now)) (get (codes "items") (view json.now)) ≡ Some it) }
    ensures wrong { result ≡ Err Wrong → content (get (codes "data") (view json.now)) (get (codes "items") (view json.now)) ≡ None }
{
    match json.get("data") {
        Some(data) => match json.get("items") {
            Some(_) => Err(Misfit::Wrong),
            None => Ok(Content::Fields(fields(alloc, data)?)),
        },
        None => match json.get("items") {
            Some(items) => Ok(Content::Items(list(alloc, items)?)),
            None => Err(Misfit::Wrong),
        },
    }
}

impl FromSerde for Entry {
    ghost meaning = { entry };

    fn from_serde(alloc: Global, json: &Value) -> Result<Self, Misfit> {
        let id = required(alloc, json, "id")?;
        let keys = optional_list(alloc, json, "subPath")?;
        let content = content(alloc, json)?;
        let errors = optional_list(alloc, json, "errors")?;
        Ok(Entry {
            id,
            sub_path: Path { keys },
            content,
            errors,
        })
    }
}

impl FromSerde for Completed {
    ghost meaning = { completed };

    fn from_serde(alloc: Global, json: &Value) -> Result<Self, Misfit> {
        let id = required(alloc, json, "id")?;
        let errors = optional_list(alloc, json, "errors")?;
        Ok(Completed { id, errors })
    }
}

/// The `data` of a payload: an object, or null.
pub fn initial(alloc: Global, json: &Value) -> Result<Option<gql_tree::Value>, Misfit>
    ensures ok { IfOk result (λ it. initial_of (view json.now) ≡ Some it) }
    ensures wrong { result ≡ Err Wrong → initial_of (view json.now) ≡ None }
{
    match json.get("data") {
        Some(Value::Null) => Ok(Some(gql_tree::Value::Null)),
        Some(data) => Ok(Some(fields(alloc, data)?)),
        None => Ok(None),
    }
}
