//! Values as JSON.

ghost use Rattle.std.specs.Prelude.{◌≡◌, IfOk, OnOk, IsTrue};
ghost use Rattle.serde_json.specs.View.{view};
ghost use Rattle.serde_json.specs.Written.{compact_text};
ghost use Rattle.gql_tree.specs.Json.{data_of};
ghost use Rattle.gql_tree.specs.Typed.{is_typed};

use crate::{NoMemory, Text, Value};
use serde_json::Map;
use std::alloc::Global;

impl Value {
    /// The same value as the JSON crate holds it, with the members of each object in byte order of
    /// their names.
    pub fn to_serde(&self, alloc: Global) -> Result<serde_json::Value, NoMemory>
        ensures datum { IfOk result (λ json. view json ≡ data_of self.now) }
        ensures typed { OnOk result (IsTrue (is_typed self.now)) }
    {
        match self {
            Value::Null => Ok(serde_json::Value::Null),
            Value::Bool(truth) => Ok(serde_json::Value::Bool(*truth)),
            Value::Int(number) => Ok(serde_json::Value::from(*number)),
            Value::Text(text) => Ok(serde_json::Value::try_from_str(alloc, text.as_str())?),
            Value::List(items) => {
                let mut list = Vec::new(alloc);
                for item in items.as_slice() {
                    list.push(item.to_serde(alloc)?)?;
                }
                Ok(serde_json::Value::Array(list))
            }
            Value::Object(members) => {
                let mut map = Map::new(alloc);
                for member in members.as_slice() {
                    let value = member.value.to_serde(alloc)?;
                    serde_json::put(&mut map, alloc, member.name.as_str(), value)?;
                }
                Ok(serde_json::Value::Object(map))
            }
        }
    }

    /// Compact JSON: no space between tokens, the shortest escapes, and the names of each object in
    /// byte order.
    pub fn to_json(&self, alloc: Global) -> Result<Text, NoMemory>
        ensures { IfOk result (λ text. text ≡ compact_text (data_of self.now)) }
    {
        let json = self.to_serde(alloc)?;
        Ok(Text::from_string(json.to_string(alloc)?))
    }
}
