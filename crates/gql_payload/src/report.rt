//! The report of a merged answer.

ghost use Rattle.std.specs.Prelude.{◌≡◌, IfOk, OnOk};
ghost use Rattle.serde_json.specs.View.{view};
ghost use Rattle.gql_payload.specs.ReportText.{failure_data, report_data, report_text};
ghost use Rattle.gql_tree.specs.Typed.{IsTypedFailure, IsTypedValue};

use crate::parts::{ToSerde, put, put_array, put_if_some};
use gql_tree::{Failure, Fault, NoMemory, Text, Value};
use serde_json::Map;
use std::alloc::Global;

impl ToSerde for Failure {
    ghost datum = { failure_data };

    ghost is_typed = { IsTypedFailure };

    fn to_serde(&self, alloc: Global) -> Result<serde_json::Value, NoMemory> {
        let mut map = Map::new(alloc);
        put(&mut map, alloc, "path", &self.path)?;
        put_if_some(&mut map, alloc, "label", &self.label)?;
        put_array(&mut map, alloc, "errors", self.errors.as_slice())?;
        Ok(serde_json::Value::Object(map))
    }
}

fn report_json(
    alloc: Global,
    value: &Value,
    errors: &[Fault],
    failures: &[Failure],
) -> Result<serde_json::Value, NoMemory>
    ensures json { IfOk result (λ json. view json ≡ report_data value.now errors.now failures.now) }
    ensures typed { OnOk result (IsTypedValue value.now) }
{
    let mut map = Map::new(alloc);
    put_array(&mut map, alloc, "failures", failures)?;
    put_array(&mut map, alloc, "errors", errors)?;
    put(&mut map, alloc, "data", value)?;
    Ok(serde_json::Value::Object(map))
}

/// The compact JSON of an answer's data, its errors, and what was announced and failed. All three
/// members are there; a failure has no label where there is none. Refuses only for want of memory.
pub fn encode_report(
    alloc: Global,
    value: &Value,
    errors: &[Fault],
    failures: &[Failure],
) -> Result<Text, NoMemory>
    ensures text { IfOk result (λ text. text ≡ report_text value.now errors.now failures.now) }
    ensures typed { OnOk result (IsTypedValue value.now) }
{
    let json = report_json(alloc, value, errors, failures)?;
    Ok(Text::from_string(json.to_string(alloc)?))
}
