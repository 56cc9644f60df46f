//! Values from JSON.

ghost use Rattle.std.specs.Prelude.{◌≡◌, true, false, map, IfOk, OnOk, Err};
ghost use Rattle.serde_json.specs.Data.{no_members};
ghost use Rattle.serde_json.specs.View.{view, items_view, members_view};
ghost use Rattle.gql_tree.specs.Json.{put_all, data_of};
ghost use Rattle.gql_tree.specs.FromJson.{has_bad_number, items_have_bad_number, members_have_bad_number, value_of, values_of, fields_of};
ghost use Rattle.gql_tree.specs.declared.from_json.NumberRefusal.TheVariants.{BadNumber, NoMemory};

use crate::{Fields, Listed, NoMemory, Text, Value};
use serde_json::Map;
use std::alloc::{AllocError, Global};
use thiserror::Error;

/// Why a JSON is not taken as a value.
#[derive(Clone, Copy, Debug, PartialEq, Eq, Error)]
pub enum NumberRefusal {
    /// A number in it is no integer of 64 signed bits.
    #[error("a number is no integer of 64 bits")]
    BadNumber,
    #[error("no memory left")]
    NoMemory,
}

impl From<NoMemory> for NumberRefusal {
    ghost from_gives = { λ _ e. e ≡ NoMemory };

    fn from(_: NoMemory) -> Self {
        NumberRefusal::NoMemory
    }
}

impl From<AllocError> for NumberRefusal {
    ghost from_gives = { λ _ e. e ≡ NoMemory };

    fn from(_: AllocError) -> Self {
        NumberRefusal::NoMemory
    }
}

impl Value {
    /// The value of a JSON. Refuses a number that is no integer of 64 signed bits: one with a point
    /// or an exponent, `-0`, and an integer outside of that range.
    #[cycle(read)]
    pub fn from_json(alloc: Global, json: &serde_json::Value) -> Result<Value, NumberRefusal>
        ensures ok { IfOk result (λ value. value ≡ value_of (view json.now)) }
        ensures datum { IfOk result (λ value. data_of value ≡ view json.now) }
        ensures whole { OnOk result (has_bad_number (view json.now) ≡ false) }
        ensures bad { result ≡ Err BadNumber → has_bad_number (view json.now) ≡ true }
    {
        match json {
            serde_json::Value::Null => Ok(Value::Null),
            serde_json::Value::Bool(truth) => Ok(Value::Bool(*truth)),
            serde_json::Value::Number(number) => match number.as_i64() {
                Some(number) => Ok(Value::Int(number)),
                None => Err(NumberRefusal::BadNumber),
            },
            serde_json::Value::String(text) => Ok(Value::Text(Text::from_string(text.clone()?))),
            serde_json::Value::Array(items) => {
                Ok(Value::List(items_from(alloc, items.as_slice())?))
            }
            serde_json::Value::Object(members) => {
                Ok(Value::Object(members_from(alloc, members)?))
            }
        }
    }
}

#[cycle(read)]
fn items_from(alloc: Global, items: &[serde_json::Value]) -> Result<Listed<Value>, NumberRefusal>
    ensures ok { IfOk result (λ values. values ≡ values_of (items_view items.now)) }
    ensures datum { IfOk result (λ values. map data_of values ≡ map view items.now) }
    ensures whole { OnOk result (items_have_bad_number (items_view items.now) ≡ false) }
    ensures bad { result ≡ Err BadNumber → items_have_bad_number (items_view items.now) ≡ true }
{
    let mut values = Listed::new(alloc);
    for item in items {
        values.push(Value::from_json(alloc, item)?)?;
    }
    Ok(values)
}

#[cycle(read)]
fn members_from(
    alloc: Global,
    members: &Map<String, serde_json::Value>,
) -> Result<Fields<Value>, NumberRefusal>
    ensures ok { IfOk result (λ fields. fields ≡ fields_of (members_view members.now.entries)) }
    ensures datum { IfOk result (λ fields. put_all data_of no_members fields ≡ members_view members.now.entries) }
    ensures whole { OnOk result (members_have_bad_number (members_view members.now.entries) ≡ false) }
    ensures bad { result ≡ Err BadNumber → members_have_bad_number (members_view members.now.entries) ≡ true }
{
    let mut fields = Fields::new(alloc);
    for (key, member) in members.iter() {
        let name = Text::from_string(key.clone()?);
        fields.push(name, Value::from_json(alloc, member)?)?;
    }
    Ok(fields)
}
