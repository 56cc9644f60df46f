//! Type definitions, and texts that are none with what is in the way, by hand.

use crate::doc::documents::refusal_shown;
use crate::shared::titled;
use gql_doc::parse_types;
use gql_model::{FieldSyntax, InputSyntax, NameAt, OperationKind, RootSyntax, TypeSyntax};
use gql_tree::{Listed, Spot};
use std::alloc::Global;
use std::process::Abort;
use std::test::Fail;

/// How many definitions a text has, or its refusal.
fn shown(alloc: Global, text: &str) -> Result<String, Fail> {
    match parse_types(alloc, text) {
        Ok(document) => Ok(format!(in alloc; "{}", document.definitions.len())?),
        Err(refusal) => refusal_shown(alloc, refusal),
    }
}

/// Each text is shown as it stands beside it.
fn each_shown(rt: &impl Abort, alloc: Global, table: &[(&str, &str)]) -> Result<(), Fail> {
    for &(text, want) in table {
        let got = shown(alloc, text)?;
        assert_eq!(rt; got.as_str(), want, "{text}");
    }
    Ok(())
}

/// The schema of the example.
const EXAMPLE: &str = "type Query { hero: Person crew: [Person!] cast: [Person] none: [Person] }
type Person { id: ID! name: String! age: Int boom: String!
  nick(upper: Boolean = false): String friends: [Person!]! rival: Person }
";

/// A kind, a name and its place.
fn named(alloc: Global, kind: &str, name: &NameAt) -> Result<String, Fail> {
    titled(alloc, kind, name.name.as_str(), name.spot)
}

/// Names with their places.
fn names_shown(alloc: Global, names: &Listed<NameAt>) -> Result<String, Fail> {
    let mut shown = String::new(alloc);
    for name in names.as_slice() {
        shown.push_str(named(alloc, " ", name)?.as_str())?;
    }
    Ok(shown)
}

/// Arguments or input fields with their places, and which have a default.
fn inputs_shown(alloc: Global, inputs: &Listed<InputSyntax>) -> Result<String, Fail> {
    let mut shown = String::new(alloc);
    for input in inputs.as_slice() {
        shown.push_str(named(alloc, " ", &input.name)?.as_str())?;
        shown.push_str(if input.default.is_some() { "=" } else { "" })?;
    }
    Ok(shown)
}

/// Fields with their places and arguments.
fn fields_shown(alloc: Global, fields: &Listed<FieldSyntax>) -> Result<String, Fail> {
    let mut shown = String::new(alloc);
    for field in fields.as_slice() {
        let name = named(alloc, " ", &field.name)?;
        let inputs = inputs_shown(alloc, &field.arguments)?;
        shown.push_str(format!(in alloc; "{name}({inputs})")?.as_str())?;
    }
    Ok(shown)
}

/// What a root's word is.
fn kind_shown(kind: OperationKind) -> &'static str {
    match kind {
        OperationKind::Query => " query",
        OperationKind::Mutation => " mutation",
        OperationKind::Subscription => " subscription",
    }
}

/// A `schema` definition with the places of its words.
fn schema_shown(alloc: Global, roots: &Listed<RootSyntax>, spot: Spot) -> Result<String, Fail> {
    let mut shown = titled(alloc, "schema", "", spot)?;
    for root in roots.as_slice() {
        let kind = titled(alloc, kind_shown(root.kind), "", root.kind_spot)?;
        let name = named(alloc, "", &root.name)?;
        shown.push_str(format!(in alloc; "{kind} {name}")?.as_str())?;
    }
    Ok(shown)
}

/// An object or an interface.
fn object_shown(
    alloc: Global,
    first: String,
    implemented: &Listed<NameAt>,
    fields: &Listed<FieldSyntax>,
) -> Result<String, Fail> {
    let implemented = names_shown(alloc, implemented)?;
    let fields = fields_shown(alloc, fields)?;
    Ok(format!(in alloc; "{first}:{implemented};{fields}")?)
}

/// A definition that isn't an object or an interface, with what is listed in it.
fn listed_shown(alloc: Global, first: String, listed: String) -> Result<String, Fail> {
    Ok(format!(in alloc; "{first}:{listed}")?)
}

/// A definition with all of its names and their places.
fn definition_shown(alloc: Global, definition: &TypeSyntax) -> Result<String, Fail> {
    match definition {
        TypeSyntax::Schema(roots, spot) => schema_shown(alloc, roots, *spot),
        TypeSyntax::Scalar(name) => named(alloc, "scalar ", name),
        TypeSyntax::Object(name, implemented, fields) => {
            object_shown(alloc, named(alloc, "type ", name)?, implemented, fields)
        }
        TypeSyntax::Interface(name, implemented, fields) => {
            object_shown(
                alloc,
                named(alloc, "interface ", name)?,
                implemented,
                fields,
            )
        }
        TypeSyntax::Union(name, members) => {
            listed_shown(
                alloc,
                named(alloc, "union ", name)?,
                names_shown(alloc, members)?,
            )
        }
        TypeSyntax::Enum(name, values) => {
            listed_shown(
                alloc,
                named(alloc, "enum ", name)?,
                names_shown(alloc, values)?,
            )
        }
        TypeSyntax::Input(name, fields) => {
            listed_shown(
                alloc,
                named(alloc, "input ", name)?,
                inputs_shown(alloc, fields)?,
            )
        }
        TypeSyntax::Directive(name, inputs, locations) => {
            let inputs = inputs_shown(alloc, inputs)?;
            let locations = names_shown(alloc, locations)?;
            let name = named(alloc, "directive ", name)?;
            Ok(format!(in alloc; "{name}:{inputs};{locations}")?)
        }
    }
}

/// A definition of a text, by its number.
fn nth_shown(alloc: Global, text: &str, at: usize) -> Result<String, Fail> {
    let document = match parse_types(alloc, text) {
        Ok(document) => document,
        Err(refusal) => return refusal_shown(alloc, refusal),
    };
    match document.definitions.get(at) {
        Some(definition) => definition_shown(alloc, definition),
        None => Ok(format!(in alloc; "none")?),
    }
}

#[test]
fn parts_of_type_definitions(rt: HostRuntime) -> Result<(), Fail> {
    let alloc = rt.alloc();
    let table = [
        (
            EXAMPLE,
            0,
            "type Query 1:6:; hero 1:14() crew 1:27() cast 1:43() none 1:58()",
        ),
        (
            EXAMPLE,
            1,
            "type Person 2:6:; id 2:15() name 2:23() age 2:37() boom 2:46() nick 3:3( upper 3:8=) friends 3:40() rival 3:60()",
        ),
        (EXAMPLE, 2, "none"),
        (
            "\"d\"schema@a{mutation:M query:Q subscription:S}",
            0,
            "schema 1:4 mutation 1:13 M 1:22 query 1:24 Q 1:30 subscription 1:32 S 1:45",
        ),
        ("scalar S@a", 0, "scalar S 1:8"),
        ("type T implements&I&J", 0, "type T 1:6: I 1:19 J 1:21;"),
        (
            "interface I implements J{\"d\"a:A}",
            0,
            "interface I 1:11: J 1:24; a 1:29()",
        ),
        ("union U=|B|A", 0, "union U 1:7: B 1:10 A 1:12"),
        ("enum E{B@d \"\"A}", 0, "enum E 1:6: B 1:8 A 1:14"),
        ("input I{b:B=1 a:A}", 0, "input I 1:7: b 1:9= a 1:15"),
        (
            "directive@d(a:A=1)repeatable on|X|FIELD",
            0,
            "directive d 1:11: a 1:13=; X 1:33 FIELD 1:35",
        ),
    ];
    for &(text, at, want) in &table {
        let got = nth_shown(alloc, text, at)?;
        assert_eq!(rt; got.as_str(), want, "{text}");
    }
    Ok(())
}

#[test]
fn type_definitions(rt: HostRuntime) -> Result<(), Fail> {
    each_shown(
        &rt,
        rt.alloc(),
        &[
            ("schema{query:Q}", "1"),
            ("\"d\"schema@a(b:1){query:Q mutation:M,subscription:S}", "1"),
            ("scalar S", "1"),
            ("scalar S@a scalar implements", "2"),
            ("type T", "1"),
            (
                "type T implements I&J@a{a:A b(c:C=1@d,\"e\"e:[E!]!):B@f}",
                "1",
            ),
            ("type T implements&I type type", "2"),
            ("interface I implements J{\"\"\"d\"\"\"a:A!}", "1"),
            ("union U", "1"),
            ("union U=|A|B union V=C", "2"),
            ("enum E{A\"d\"B@a on}", "1"),
            ("enum E\"d\"enum F", "2"),
            ("input I{a:A=[{b:1}]@c b:[B]}", "1"),
            ("directive@d on FIELD", "1"),
            ("directive@d(a:A)repeatable on|FIELD|QUERY type on", "2"),
        ],
    )
}

#[test]
fn type_definitions_refused(rt: HostRuntime) -> Result<(), Fail> {
    each_shown(
        &rt,
        rt.alloc(),
        &[
            ("", "Unexpected 1:1"),
            ("a", "Unexpected 1:1"),
            ("{", "Unexpected 1:1"),
            ("\"d\"", "Unexpected 1:4"),
            ("\"d\"\"e\"scalar S", "Unexpected 1:4"),
            ("extend type T{a:A}", "Unexpected 1:1"),
            ("scalar S extend", "Unexpected 1:10"),
            ("query Q{a}", "Unexpected 1:1"),
            ("schema", "Unexpected 1:7"),
            ("schema{}", "Unexpected 1:8"),
            ("schema{a:Q}", "Unexpected 1:8"),
            ("scalar", "Unexpected 1:7"),
            ("type T{}", "Unexpected 1:8"),
            ("type T{a}", "Unexpected 1:9"),
            ("type T{a():A}", "Unexpected 1:10"),
            ("type T{a:A=1}", "Unexpected 1:11"),
            ("type T implements", "Unexpected 1:18"),
            ("type T implements&&I", "Unexpected 1:19"),
            ("type T@a(b:$c)", "Unexpected 1:12"),
            ("union U=", "Unexpected 1:9"),
            ("union U=A|", "Unexpected 1:11"),
            ("enum E{true}", "Unexpected 1:8"),
            ("enum E{A null}", "Unexpected 1:10"),
            ("input I{a:A=$b}", "Unexpected 1:13"),
            ("input I{a(b:B):A}", "Unexpected 1:10"),
            ("directive d on A", "Unexpected 1:11"),
            ("directive@d", "Unexpected 1:12"),
            ("directive@d repeatable", "Unexpected 1:23"),
            ("input I{a:A=1.5}", "FloatToken 1:13"),
            ("type T{a:A=1.5}", "Unexpected 1:11"),
            ("type T ?", "BadCharacter 1:8"),
        ],
    )
}

#[test]
fn long_type_definitions(rt: HostRuntime) -> Result<(), Fail> {
    let alloc = rt.alloc();
    let table = [
        ("", "{", 1_000_000, "Unexpected 1:1"),
        ("type T{a:", "[", 1_000_000, "TooDeep 1:137"),
        ("input I{a:A=", "[", 1_000, "TooDeep 1:140"),
        ("input I{a:A=", "{a:", 1_000, "TooDeep 1:394"),
        ("type T", "@a(b:[{", 1_000, "Unexpected 1:14"),
        ("scalar S", " ", 10_000, "1"),
        ("scalar S", "\n", 10_000, "1"),
        ("", " ", 10_000, "Unexpected 1:10001"),
        ("union U=A", "|A", 10_000, "1"),
        ("scalar S", " scalar S", 10_000, "10001"),
    ];
    for &(front, piece, count, want) in &table {
        let pieces = piece.repeat(alloc, count)?;
        let got = shown(alloc, format!(in alloc; "{front}{pieces}")?.as_str())?;
        assert_eq!(rt; got.as_str(), want, "{front}{piece}");
    }
    Ok(())
}
