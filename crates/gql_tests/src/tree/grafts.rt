//! Fields united into an object at a path, and items appended to a list at one.

use crate::values::{object, path, text};
use gql_tree::{Fields, GraftRefusal, Listed, NoMemory, Value};
use std::alloc::Global;
use std::test::Fail;

const OLD: &str = "{\"crew\":[7],\"hero\":{\"id\":1}}";

fn numbers(alloc: Global, given: &[i64]) -> Result<Listed<Value>, NoMemory> {
    let mut items = Listed::new(alloc);
    for number in given {
        items.push(Value::Int(*number))?;
    }
    Ok(items)
}

/// The value of `OLD`.
fn answer(alloc: Global) -> Result<Value, NoMemory> {
    let mut fields = Fields::new(alloc);
    let hero = object(alloc, "id", Value::Int(1))?;
    fields.insert(text(alloc, "hero")?, hero)?;
    let crew = Value::List(numbers(alloc, &[7])?);
    fields.insert(text(alloc, "crew")?, crew)?;
    Ok(Value::Object(fields))
}

fn name_of(answer: Result<(), GraftRefusal>) -> &'static str {
    match answer {
        Ok(()) => "Ok",
        Err(GraftRefusal::NoSuchPlace) => "NoSuchPlace",
        Err(GraftRefusal::Clash) => "Clash",
        Err(GraftRefusal::NotAList) => "NotAList",
        Err(GraftRefusal::NoMemory) => "NoMemory",
    }
}

#[test]
fn fields_grafted(rt: HostRuntime) -> Result<(), Fail> {
    let alloc = rt.alloc();
    let grown = "{\"crew\":[7],\"hero\":{\"age\":20,\"id\":1}}";
    for &(place, name, number, answered, expected) in &[
        ("hero", "age", 20, "Ok", grown),
        ("hero", "id", 1, "Ok", OLD),
        ("hero", "id", 2, "Clash", OLD),
        ("", "hero", 1, "Clash", OLD),
        ("hero/id", "age", 20, "NoSuchPlace", OLD),
        ("crew", "age", 20, "NoSuchPlace", OLD),
        ("villain", "age", 20, "NoSuchPlace", OLD),
    ] {
        let mut value = answer(alloc)?;
        let fields = object(alloc, name, Value::Int(number))?;
        let given = value.graft(path(alloc, place)?.keys.as_slice(), fields);
        assert_eq!(rt; name_of(given), answered, "{name} at {place}");
        assert_eq!(rt;
            value.to_json(alloc)?.as_str(),
            expected,
            "{name} at {place}"
        );
    }
    Ok(())
}

#[test]
fn texts_grafted(rt: HostRuntime) -> Result<(), Fail> {
    let alloc = rt.alloc();
    let id = object(alloc, "id", Value::Text(text(alloc, "1")?))?;
    let name = object(alloc, "name", Value::Text(text(alloc, "Luke")?))?;
    let mut value = object(alloc, "hero", id)?;
    let given = value.graft(path(alloc, "hero")?.keys.as_slice(), name);
    assert_eq!(rt; name_of(given), "Ok");
    assert_eq!(rt;
        value.to_json(alloc)?.as_str(),
        "{\"hero\":{\"id\":\"1\",\"name\":\"Luke\"}}"
    );
    Ok(())
}

#[test]
fn lists_extended(rt: HostRuntime) -> Result<(), Fail> {
    let alloc = rt.alloc();
    let grown = "{\"crew\":[7,8,9],\"hero\":{\"id\":1}}";
    for &(place, items, answered, expected) in &[
        ("crew", &[8, 9][..], "Ok", grown),
        ("crew", &[][..], "Ok", OLD),
        ("hero", &[8][..], "NotAList", OLD),
        ("crew/0", &[8][..], "NotAList", OLD),
        ("crew/0/0", &[8][..], "NoSuchPlace", OLD),
        ("villain", &[][..], "NoSuchPlace", OLD),
    ] {
        let mut value = answer(alloc)?;
        let items = numbers(alloc, items)?;
        let given = value.extend(path(alloc, place)?.keys.as_slice(), items);
        assert_eq!(rt; name_of(given), answered, "at {place}");
        assert_eq!(rt; value.to_json(alloc)?.as_str(), expected, "at {place}");
    }
    Ok(())
}
