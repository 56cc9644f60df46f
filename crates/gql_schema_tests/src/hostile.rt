//! Long texts, and types that lead to one another in long rings.

use crate::rules::shown;
use std::alloc::Global;
use std::process::Abort;
use std::test::Fail;

/// A ring of definitions: each is a piece, its number, a second piece, the number of the next one and a
/// last piece; behind the last one comes the first.
fn ring(alloc: Global, count: u32, pieces: [&str; 3]) -> Result<String, Fail> {
    let [first, second, third] = pieces;
    let mut text = format!(in alloc; "type Query {{ a: Int }}")?;
    for number in 0..count {
        let next = if number.wrapping_add(1) == count {
            0
        } else {
            number.wrapping_add(1)
        };
        let piece = format!(in alloc; "\n{first}{number}{second}{next}{third}")?;
        text.push_str(piece.as_str())?;
    }
    Ok(text)
}

#[test]
fn rings(rt: HostRuntime) -> Result<(), Fail> {
    let alloc = rt.alloc();
    let table = [
        (
            1_000,
            ["interface I", " implements I", " { a: Int }"],
            "rule 14 at 2:11",
        ),
        (5_000, ["input A", " { a: A", "! }"], "rule 18 at 2:12"),
        (5_000, ["input A", " { a: A", " = {} }"], "rule 18 at 2:12"),
        (5_000, ["input A", " { a: A", " }"], "ok"),
        (5_000, ["input A", " { a: [A", "!]! }"], "ok"),
    ];
    for (count, pieces, want) in table {
        let text = ring(alloc, count, pieces)?;
        let got = shown(alloc, text.as_str())?;
        assert_eq!(&rt; got.as_str(), want);
    }
    Ok(())
}

/// The names of all interfaces but one, as they stand behind `implements`.
fn others(alloc: Global, count: u32, but: u32) -> Result<String, Fail> {
    let mut names = String::new(alloc);
    for number in 0..count {
        if number != but {
            names.push_str(format!(in alloc; " & I{number}")?.as_str())?;
        }
    }
    Ok(names)
}

#[test]
fn interfaces_of_one_another(rt: HostRuntime) -> Result<(), Fail> {
    let alloc = rt.alloc();
    let count = 1_000;
    let mut text = format!(in alloc; "type Query {{ a: Int }}")?;
    for number in 0..count {
        let names = others(alloc, count, number)?;
        let piece = format!(in alloc; "\ninterface I{number} implements{names} {{ a: Int }}")?;
        text.push_str(piece.as_str())?;
    }
    let got = shown(alloc, text.as_str())?;
    assert_eq!(&rt; got.as_str(), "rule 14 at 2:11");
    Ok(())
}

/// An enum of so many values, the last of which has the name of one more.
fn many_values(alloc: Global, count: u32, last: u32) -> Result<String, Fail> {
    let mut text = format!(in alloc; "type Query {{ a: Int }} enum A {{")?;
    for number in 0..count {
        text.push_str(format!(in alloc; "\nV{number}")?.as_str())?;
    }
    text.push_str(format!(in alloc; "\nV{last} }}")?.as_str())?;
    Ok(text)
}

#[test]
fn long_lists_of_names(rt: HostRuntime) -> Result<(), Fail> {
    let alloc = rt.alloc();
    let table = [
        (15, 7, "rule 9 at 17:1"),
        (16, 0, "rule 9 at 18:1"),
        (17, 16, "rule 9 at 19:1"),
        (17, 17, "ok"),
        (100_000, 99_999, "rule 9 at 100002:1"),
        (100_000, 100_000, "ok"),
    ];
    for (count, last, want) in table {
        let text = many_values(alloc, count, last)?;
        let got = shown(alloc, text.as_str())?;
        assert_eq!(&rt; got.as_str(), want);
    }
    Ok(())
}

#[test]
fn long_and_short_texts(rt: HostRuntime) -> Result<(), Fail> {
    let alloc = rt.alloc();
    let table = [
        ("", 1, "Unexpected at 1:1"),
        ("x", 1, "Unexpected at 1:1"),
        ("{", 1_000_000, "Unexpected at 1:1"),
        (" ", 1_000_000, "Unexpected at 1:1000001"),
        ("\"", 1_000_000, "Unexpected at 1:7"),
    ];
    for (piece, count, want) in table {
        let text = piece.repeat(alloc, count)?;
        let got = shown(alloc, text.as_str())?;
        assert_eq!(&rt; got.as_str(), want, "{piece}");
    }
    Ok(())
}
