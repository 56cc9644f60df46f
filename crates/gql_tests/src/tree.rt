//! Values and paths: that the calls succeed with ample memory, on values whose answers are known.

mod as_json;
mod copies;
mod grafts;

use crate::values::{object, one, path, text};
use gql_tree::{Fields, NoMemory, Text, Value};
use std::alloc::Global;
use std::test::Fail;

/// The object with a member for each letter, in this order: a letter's value is its code.
fn lettered(alloc: Global, letters: &str) -> Result<Value, NoMemory> {
    let mut fields = Fields::new(alloc);
    for letter in letters.split(' ') {
        let code = letter.bytes().next().unwrap_or(0);
        fields.insert(text(alloc, letter)?, Value::Int(code as i64))?;
    }
    Ok(Value::Object(fields))
}

/// `{"hero":[{"a":97,"b":98}]}`
fn hero(alloc: Global) -> Result<Value, NoMemory> {
    let list = Value::List(one(alloc, lettered(alloc, "a b")?)?);
    object(alloc, "hero", list)
}

fn json_at(alloc: Global, value: &Value, words: &str) -> Result<Option<Text>, NoMemory> {
    let path = path(alloc, words)?;
    match value.at(path.keys.as_slice()) {
        Some(found) => Ok(Some(found.to_json(alloc)?)),
        None => Ok(None),
    }
}

#[test]
fn values_at_paths(rt: HostRuntime) -> Result<(), Fail> {
    let value = hero(rt.alloc())?;
    for &(words, expected) in &[
        ("", Some("{\"hero\":[{\"a\":97,\"b\":98}]}")),
        ("hero/0", Some("{\"a\":97,\"b\":98}")),
        ("hero/0/b", Some("98")),
        ("hero/1", None),
        ("hero/b", None),
        ("hero/0/0", None),
        ("hero/0/b/c", None),
        ("villain", None),
    ] {
        let found = json_at(rt.alloc(), &value, words)?;
        assert_eq!(rt;
            found.as_ref().map(|text| text.as_str()),
            expected,
            "at {words}"
        );
    }
    Ok(())
}

#[test]
fn equal_up_to_key_order(rt: HostRuntime) -> Result<(), Fail> {
    for &(first, second, expected) in &[
        ("a b", "b a", true),
        ("a b", "a", false),
        ("a", "a b", false),
        ("a", "b", false),
    ] {
        let first = lettered(rt.alloc(), first)?;
        let second = lettered(rt.alloc(), second)?;
        assert_eq!(rt; first.same(&second), expected, "{first:?} and {second:?}");
        let first = Value::List(one(rt.alloc(), first)?);
        let second = Value::List(one(rt.alloc(), second)?);
        assert_eq!(rt; first.same(&second), expected, "{first:?} and {second:?}");
        assert!(rt; !first.same(&Value::Null));
    }
    Ok(())
}

#[test]
fn paths_in_order(rt: HostRuntime) -> Result<(), Fail> {
    let ascending = ["", "0", "2", "2/a", "10", "a", "a/0", "a/b", "ab", "b"];
    for i in 0..ascending.len() {
        let first = path(rt.alloc(), ascending[i])?;
        for j in 0..ascending.len() {
            let second = path(rt.alloc(), ascending[j])?;
            let order = first.compare(&second);
            let expected = i.cmp(&j);
            assert!(rt; order == expected, "{first:?} and {second:?}");
        }
    }
    Ok(())
}

#[test]
fn a_name_stands_once(rt: HostRuntime) -> Result<(), Fail> {
    let mut fields = Fields::new(rt.alloc());
    for &(name, number) in &[("b", 1), ("a", 2), ("b", 3)] {
        fields.insert(text(rt.alloc(), name)?, Value::Int(number))?;
    }
    assert!(rt; matches!(fields.get("a"), Some(Value::Int(2))));
    assert!(rt; matches!(fields.get("b"), Some(Value::Int(3))));
    assert!(rt; fields.get("c").is_none());
    assert_eq!(rt; fields.as_slice().len(), 2);
    Ok(())
}
