//! Texts that break rules, and texts that nearly do, by hand.

use gql_doc::ParseRefusal;
use gql_schema::{SchemaRefusal, read_schema};
use gql_tree::Spot;
use std::alloc::Global;
use std::process::Abort;
use std::test::Fail;

/// A refusal's name or number, and its place where it has one.
fn refusal_shown(alloc: Global, refusal: SchemaRefusal) -> Result<String, Fail> {
    match refusal {
        SchemaRefusal::Parse(why) => parse_refusal_shown(alloc, why),
        SchemaRefusal::Rule { number, spot } => {
            let Spot { line, column } = spot;
            Ok(format!(in alloc; "rule {number} at {line}:{column}")?)
        }
        SchemaRefusal::NoMemory => Ok(format!(in alloc; "no memory")?),
    }
}

fn parse_refusal_shown(alloc: Global, why: ParseRefusal) -> Result<String, Fail> {
    let name = why.name();
    match why.spot() {
        Some(Spot { line, column }) => Ok(format!(in alloc; "{name} at {line}:{column}")?),
        None => Ok(format!(in alloc; "{name}")?),
    }
}

/// `ok` for a schema, or its refusal.
pub(crate) fn shown(alloc: Global, text: &str) -> Result<String, Fail> {
    match read_schema(alloc, text) {
        Ok(_) => Ok(format!(in alloc; "ok")?),
        Err(refusal) => refusal_shown(alloc, refusal),
    }
}

/// Each text is shown as it stands beside it.
fn each_shown(rt: &impl Abort, alloc: Global, table: &[(&str, &str)]) -> Result<(), Fail> {
    for &(text, want) in table {
        let got = shown(alloc, text)?;
        assert_eq!(rt; got.as_str(), want, "{text}");
    }
    Ok(())
}

/// Texts that break one rule.
const BROKEN: &[(&str, &str)] = &[
    // names of types are distinct and are no built-in scalar's
    (
        "type Query { a: Int } type Query { b: Int }",
        "rule 1 at 1:28",
    ),
    (
        "type Query { a: Int } enum A { X } input A { x: Int } union A = Query",
        "rule 1 at 1:42",
    ),
    ("type Query { a: Int } enum Int { X }", "rule 1 at 1:28"),
    ("type Query { a: Int } scalar ID", "rule 1 at 1:30"),
    // no name begins with two underscores
    (
        "type Query { a: Int } type __A { b: Int }",
        "rule 2 at 1:28",
    ),
    ("type Query { __a: Int b(__x: Int): Int }", "rule 2 at 1:14"),
    ("type Query { a(__x: Int): Int __a: Int }", "rule 2 at 1:16"),
    ("type Query { a: Int } enum A { X __Y }", "rule 2 at 1:34"),
    (
        "type Query { a: Int } input A { __x: Int }",
        "rule 2 at 1:33",
    ),
    // there is no scalar definition
    ("type Query { a: Date } scalar Date", "rule 3 at 1:31"),
    // each type that is named is there
    ("type Query { a: Foo }", "rule 4 at 1:17"),
    ("type Query { a(x: [Foo!]): Int }", "rule 4 at 1:20"),
    ("type Query implements Node { a: Int }", "rule 4 at 1:23"),
    (
        "type Query { a: Int } union A = Query | B",
        "rule 4 at 1:41",
    ),
    ("type Query { a: Int } input A { x: B }", "rule 4 at 1:36"),
    (
        "type Query { a: Int } schema { query: A }",
        "rule 4 at 1:39",
    ),
    // there is one schema definition at most, with each kind at most once
    (
        "schema { query: A } schema { query: A } type A { a: Int }",
        "rule 5 at 1:21",
    ),
    (
        "schema { query: A query: A } type A { a: Int }",
        "rule 5 at 1:19",
    ),
    // the query root is there and is an object type
    ("type A { a: Int }", "rule 6 at 1:1"),
    ("interface Query { a: Int }", "rule 6 at 1:11"),
    ("schema { query: A } enum A { X }", "rule 6 at 1:17"),
    ("type A { a: Int } schema { mutation: A }", "rule 6 at 1:19"),
    // the other roots are object types, and the roots differ
    (
        "type Query { a: Int } enum Mutation { X }",
        "rule 7 at 1:28",
    ),
    (
        "schema { query: A mutation: A } type A { a: Int }",
        "rule 7 at 1:29",
    ),
    (
        "schema { subscription: A query: A } type A { a: Int }",
        "rule 7 at 1:33",
    ),
    (
        "schema { query: A subscription: B } type A { a: Int } enum B { X }",
        "rule 7 at 1:33",
    ),
    // no type is without its parts
    ("type Query { a: Int } type A", "rule 8 at 1:28"),
    ("type Query { a: Int } interface A", "rule 8 at 1:33"),
    ("type Query { a: Int } union A", "rule 8 at 1:29"),
    ("type Query { a: Int } enum A", "rule 8 at 1:28"),
    ("type Query { a: Int } input A", "rule 8 at 1:29"),
    // names of one list are distinct
    ("type Query { a: Int a: Int }", "rule 9 at 1:21"),
    ("type Query { a(x: Int x: Int): Int }", "rule 9 at 1:23"),
    (
        "type Query { a: Int } input A { x: Int y: Int x: Int }",
        "rule 9 at 1:47",
    ),
    ("type Query { a: Int } enum A { X X X }", "rule 9 at 1:34"),
    // no field gives an input object
    ("type Query { a: A } input A { x: Int }", "rule 10 at 1:17"),
    (
        "type Query { a: Int } interface I { a: [A!] } input A { x: Int }",
        "rule 10 at 1:41",
    ),
    // arguments and input fields take inputs
    ("type Query { a(x: Query): Int }", "rule 11 at 1:19"),
    (
        "type Query { a: Int } interface I { a(y: Int x: [I]): Int }",
        "rule 11 at 1:50",
    ),
    (
        "type Query { a: Int } input A { x: U } union U = Query",
        "rule 11 at 1:36",
    ),
    // members are distinct object types
    (
        "type Query { a: U } union U = Query | Query",
        "rule 12 at 1:39",
    ),
    (
        "type Query { a: U } union U = E enum E { X }",
        "rule 12 at 1:31",
    ),
    ("type Query { a: U } union U = U", "rule 12 at 1:31"),
    // implemented are distinct interfaces
    ("type Query implements Query { a: Int }", "rule 13 at 1:23"),
    (
        "type Query implements I & I { a: Int } interface I { a: Int }",
        "rule 13 at 1:27",
    ),
    (
        "type Query implements E { a: Int } enum E { X }",
        "rule 13 at 1:23",
    ),
    // interfaces of interfaces are implemented, and none by itself
    (
        "interface I implements J { a: Int } interface J { a: Int } type Query implements I { a: Int }",
        "rule 14 at 1:65",
    ),
    (
        "type Query { a: Int } interface I implements I { a: Int }",
        "rule 14 at 1:46",
    ),
    (
        "type Query { a: Int } interface I implements J { a: Int } interface J implements I { a: Int }",
        "rule 14 at 1:33",
    ),
    // fields of interfaces are there with a subtype
    (
        "type Query implements I { a: Int } interface I { b: Int }",
        "rule 15 at 1:6",
    ),
    (
        "type Query implements I { a: Int } interface I { a: String }",
        "rule 15 at 1:27",
    ),
    (
        "type Query implements I { a: Int } interface I { a: Int! }",
        "rule 15 at 1:27",
    ),
    (
        "type Query implements I { a: [Int] } interface I { a: [Int!] }",
        "rule 15 at 1:27",
    ),
    (
        "type Query implements I { a: J } interface I { a: Query } interface J { a: Int }",
        "rule 15 at 1:27",
    ),
    // and their arguments are there
    (
        "type Query implements I { a: Int } interface I { a(x: Int): Int }",
        "rule 16 at 1:27",
    ),
    (
        "type Query implements I { a(x: Int!): Int } interface I { a(x: Int): Int }",
        "rule 16 at 1:27",
    ),
    (
        "type Query implements I { a(x: Int!): Int } interface I { a: Int }",
        "rule 16 at 1:27",
    ),
    // defaults fit
    ("type Query { a(x: Int = \"s\"): Int }", "rule 17 at 1:25"),
    (
        "type Query { a(x: Int = 2147483648): Int }",
        "rule 17 at 1:25",
    ),
    ("type Query { a(x: Int! = null): Int }", "rule 17 at 1:26"),
    (
        "type Query { a(x: [Int] = [1 \"s\" true]): Int }",
        "rule 17 at 1:30",
    ),
    (
        "type Query { a(x: A = {}): Int } input A { x: Int! }",
        "rule 17 at 1:23",
    ),
    (
        "type Query { a(x: A = {x: 1 y: 2}): Int } input A { x: Int! }",
        "rule 17 at 1:29",
    ),
    (
        "type Query { a(x: E = Y): Int } enum E { X }",
        "rule 17 at 1:23",
    ),
    (
        "type Query { a: Int } input A { x: Boolean = 1 }",
        "rule 17 at 1:46",
    ),
    ("type Query { a(x: Int = [1]): Int }", "rule 17 at 1:25"),
    // nothing holds or needs itself
    ("type Query { a: Int } input A { a: A! }", "rule 18 at 1:33"),
    (
        "type Query { a: Int } input A { x: B! } input B { b: C! } input C { b: B! }",
        "rule 18 at 1:51",
    ),
    (
        "type Query { a: Int } input A { a: A = {} }",
        "rule 18 at 1:33",
    ),
    (
        "type Query { a: Int } input A { y: Int = 1 a: B = {} } input B { b: [A] = [{}] }",
        "rule 18 at 1:44",
    ),
];

/// Texts that break two rules: the lower number comes, though it may stand later in the text.
const BROKEN_TWICE: &[(&str, &str)] = &[
    (
        "type Query { a: Foo } type Query { b: Int }",
        "rule 1 at 1:28",
    ),
    (
        "type Query { a: Foo b: Int } scalar Foo enum __E { X }",
        "rule 2 at 1:46",
    ),
    (
        "type Query implements I { a: Int a: Int }",
        "rule 4 at 1:23",
    ),
    ("enum Mutation { X } enum Query { X }", "rule 6 at 1:26"),
    (
        "type Query { a(x: Int = \"s\"): Int a: Int }",
        "rule 9 at 1:35",
    ),
    (
        "type Query implements I & I { b: Int } interface I { a: Int }",
        "rule 13 at 1:27",
    ),
    (
        "type Query { a: Int } input A { a: A! b: Int = \"s\" }",
        "rule 17 at 1:48",
    ),
];

/// Texts that are nearly broken, rule by rule.
const KEPT: &[&str] = &[
    "type Query { a: Int } type query { b: Int }",
    "type Query { a: _A _b: Int } enum _A { _X }",
    "type Query { a(x: Int): Query } union U = Query interface I { a: ID b: String c: Boolean }",
    "schema { mutation: B query: A } type A { a: Int } type B { a: Int } enum Query { X }",
    "type Query { a: Int } type Mutation { a: Int } type Subscription { a: Int }",
    "type Query { a(x: Int): Int b(x: Int): Int } enum A { a x }",
    "type Query { a: E } enum E { X }",
    "type Query { a(x: E y: A z: [Int!]!): Int } input A { x: E } enum E { X }",
    "type Query { a: U } union U = A | Query type A { a: U }",
    "interface I implements J { a: Int } interface J { a: Int } type Query implements I & J { a: Int }",
    "type Query implements I { a: Int! b: [Query!]! c: A } interface I { a: Int b: [I] c: U } union U = A type A { a: Int }",
    "type Query implements I { a(y: Int! = 1 z: Int x: Int): Int } interface I { a(x: Int): Int }",
    "type Query { a(x: Int = -2147483648 y: ID = 1 z: ID = \"s\" l: [[Int]] = [1 [2 null]] n: Int = null): Int }",
    "type Query { a(x: A! = {y: [X]}): Int } input A { x: Int! = 3 y: [E] } enum E { X }",
    "type Query { a: Int } input A { a: A b: [A!]! c: B! } input B { a: A d: A = null }",
    "type Query { a: Int } input A { a: B = {b: null} } input B { b: A = {a: null} }",
];

#[test]
fn one_rule_is_broken(rt: HostRuntime) -> Result<(), Fail> {
    each_shown(&rt, rt.alloc(), BROKEN)
}

#[test]
fn the_first_of_two_rules_is_told(rt: HostRuntime) -> Result<(), Fail> {
    each_shown(&rt, rt.alloc(), BROKEN_TWICE)
}

#[test]
fn rules_are_kept(rt: HostRuntime) -> Result<(), Fail> {
    let alloc = rt.alloc();
    for &text in KEPT {
        let got = shown(alloc, text)?;
        assert_eq!(&rt; got.as_str(), "ok", "{text}");
    }
    Ok(())
}
