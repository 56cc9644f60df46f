//! Values to JSON and from it.

use crate::values::text;
use gql_tree::{Fields, Listed, NoMemory, NumberRefusal, Text, Value};
use std::alloc::Global;
use std::process::Abort;
use std::test::Fail;

fn string(alloc: Global, letters: &str) -> Result<Value, NoMemory> {
    Ok(Value::Text(text(alloc, letters)?))
}

fn list(alloc: Global, first: Value, second: Value) -> Result<Value, NoMemory> {
    let mut items = Listed::new(alloc);
    items.push(first)?;
    items.push(second)?;
    Ok(Value::List(items))
}

/// An object whose members are given in the order `b`, `a`.
fn unsorted(alloc: Global, b: Value, a: Value) -> Result<Value, NoMemory> {
    let mut members = Fields::new(alloc);
    members.insert(text(alloc, "b")?, b)?;
    members.insert(text(alloc, "a")?, a)?;
    Ok(Value::Object(members))
}

fn nested(alloc: Global) -> Result<Value, NoMemory> {
    let inner = unsorted(alloc, Value::Int(2), string(alloc, "x")?)?;
    let items = list(alloc, Value::Null, inner)?;
    unsorted(alloc, items, Value::List(Listed::new(alloc)))
}

/// The value is written so.
fn is_written(rt: &impl Abort, alloc: Global, value: &Value, want: &str) -> Result<(), Fail> {
    let json = value.to_json(alloc)?;
    assert_eq!(rt; json.as_str(), want);
    Ok(())
}

#[test]
fn writes_scalars(rt: HostRuntime) -> Result<(), Fail> {
    let alloc = rt.alloc();
    is_written(&rt, alloc, &Value::Null, "null")?;
    is_written(&rt, alloc, &Value::Bool(true), "true")?;
    is_written(&rt, alloc, &Value::Int(-5), "-5")?;
    let escaped = string(alloc, "a\"b\\c\nd\u{1}e")?;
    is_written(&rt, alloc, &escaped, "\"a\\\"b\\\\c\\nd\\u0001e\"")
}

#[test]
fn writes_lists_and_objects(rt: HostRuntime) -> Result<(), Fail> {
    let alloc = rt.alloc();
    let items = list(alloc, Value::Int(1), Value::Bool(false))?;
    is_written(&rt, alloc, &items, "[1,false]")?;
    let members = unsorted(alloc, Value::Int(2), Value::Int(1))?;
    is_written(&rt, alloc, &members, "{\"a\":1,\"b\":2}")?;
    is_written(
        &rt,
        alloc,
        &nested(alloc)?,
        "{\"a\":[],\"b\":[null,{\"a\":\"x\",\"b\":2}]}",
    )
}

/// The value of a JSON text, written again; what is no JSON is written as nothing.
fn read_and_written(alloc: Global, text: &str) -> Result<Text, NumberRefusal> {
    match serde_json::Value::from_str(alloc, text) {
        Ok(json) => Ok(Value::from_json(alloc, &json)?.to_json(alloc)?),
        Err(_) => Ok(Text::copy_of(alloc, "")?),
    }
}

#[test]
fn reads_values(rt: HostRuntime) -> Result<(), Fail> {
    let alloc = rt.alloc();
    for &(text, want) in &[
        ("null", Some("null")),
        (" [true, \"a\\u00e9\", -5] ", Some("[true,\"aé\",-5]")),
        (
            "{\"b\":{\"d\":[],\"c\":1},\"a\":2,\"b\":3}",
            Some("{\"a\":2,\"b\":3}"),
        ),
        ("9223372036854775807", Some("9223372036854775807")),
        ("-9223372036854775808", Some("-9223372036854775808")),
        ("9223372036854775808", None),
        ("-9223372036854775809", None),
        ("[0,{\"a\":-0}]", None),
        ("{\"a\":1.0}", None),
        ("1e2", None),
        ("1e400", Some("")),
    ] {
        let written = read_and_written(alloc, text);
        let refused = matches!(&written, Err(NumberRefusal::BadNumber));
        assert_eq!(rt; refused, want.is_none(), "{text}");
        if let Some(want) = want {
            assert_eq!(rt; written.map_err(|_| NoMemory)?.as_str(), want);
        }
    }
    Ok(())
}
