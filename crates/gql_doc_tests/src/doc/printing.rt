//! Documents built by hand, and their texts.

use gql_doc::{parse, print};
use gql_model::{
    Argument, Boxed, Definition, DirectiveUse, Document, FieldNode, FragmentDef, InlineNode,
    Literal, OperationDef, OperationKind, Selection, Sparse, SpreadNode, TypeRef, VariableDef,
};
use gql_tree::{Listed, NoMemory, Spot, Text};
use std::alloc::Global;
use std::test::Fail;

const HERE: Spot = Spot { line: 1, column: 1 };

fn text(alloc: Global, letters: &str) -> Result<Text, NoMemory> {
    Text::copy_of(alloc, letters)
}

fn one<T: Drop>(alloc: Global, item: T) -> Result<Listed<T>, NoMemory> {
    let mut items = Listed::new(alloc);
    items.push(item)?;
    Ok(items)
}

fn two<T: Drop>(alloc: Global, first: T, second: T) -> Result<Listed<T>, NoMemory> {
    let mut items = Listed::new(alloc);
    items.push(first)?;
    items.push(second)?;
    Ok(items)
}

fn argument(alloc: Global, name: &str, value: Literal) -> Result<Argument, NoMemory> {
    Ok(Argument {
        name: text(alloc, name)?,
        value,
        spot: HERE,
    })
}

/// A directive with one argument.
fn directive(alloc: Global, name: &str, given: Argument) -> Result<DirectiveUse, NoMemory> {
    Ok(DirectiveUse {
        name: text(alloc, name)?,
        arguments: one(alloc, given)?,
        spot: HERE,
    })
}

/// A field without an alias and arguments.
fn field(
    alloc: Global,
    name: &str,
    directives: Listed<DirectiveUse>,
    selections: Listed<Selection>,
) -> Result<Selection, NoMemory> {
    Ok(Selection::Field(FieldNode {
        alias: None,
        name: text(alloc, name)?,
        arguments: Sparse::new(),
        directives: Sparse::from_listed(alloc, directives)?,
        selections,
        spot: HERE,
    }))
}

fn leaf(alloc: Global, name: &str) -> Result<Selection, NoMemory> {
    field(alloc, name, Listed::new(alloc), Listed::new(alloc))
}

/// A query without a name, variables and directives.
fn short_query(alloc: Global, selections: Listed<Selection>) -> OperationDef {
    OperationDef {
        kind: OperationKind::Query,
        name: None,
        variables: Listed::new(alloc),
        directives: Listed::new(alloc),
        selections,
        spot: HERE,
    }
}

fn printed(alloc: Global, definition: Definition) -> Result<Text, NoMemory> {
    let document = Document {
        definitions: one(alloc, definition)?,
    };
    print(alloc, &document)
}

/// The text of a query of one field with one argument.
fn with_argument(alloc: Global, value: Literal) -> Result<Text, NoMemory> {
    let given = argument(alloc, "of", value)?;
    let asked = Selection::Field(FieldNode {
        alias: Some(Boxed::new(alloc, text(alloc, "b")?)?),
        name: text(alloc, "a")?,
        arguments: Sparse::from_listed(alloc, one(alloc, given)?)?,
        directives: Sparse::new(),
        selections: Listed::new(alloc),
        spot: HERE,
    });
    printed(
        alloc,
        Definition::Operation(short_query(alloc, one(alloc, asked)?)),
    )
}

#[test]
fn operations(rt: HostRuntime) -> Result<(), Fail> {
    let alloc = rt.alloc();
    let condition = argument(alloc, "if", Literal::Variable(text(alloc, "a")?, HERE))?;
    let include = one(alloc, directive(alloc, "include", condition)?)?;
    let id = field(alloc, "id", include, Listed::new(alloc))?;
    let hero = field(alloc, "hero", Listed::new(alloc), one(alloc, id)?)?;
    let variable = VariableDef {
        name: text(alloc, "a")?,
        kind: TypeRef::Named(text(alloc, "Boolean")?, HERE),
        default: Some(Literal::Bool(true, HERE)),
        directives: Listed::new(alloc),
        spot: HERE,
    };
    let mut query = short_query(alloc, one(alloc, hero)?);
    query.name = Some(text(alloc, "Q")?);
    query.variables = one(alloc, variable)?;
    let got = printed(alloc, Definition::Operation(query))?;
    assert_eq!(rt;
        got.as_str(),
        "query Q ( $ a : Boolean = true ) { hero { id @ include ( if : $ a ) } }"
    );

    let mut mutation = short_query(alloc, one(alloc, leaf(alloc, "id")?)?);
    mutation.kind = OperationKind::Mutation;
    let got = printed(alloc, Definition::Operation(mutation))?;
    assert_eq!(rt; got.as_str(), "mutation { id }");
    Ok(())
}

/// `... on Droid { id name }`
fn on_droids(alloc: Global) -> Result<Selection, NoMemory> {
    let selections = two(alloc, leaf(alloc, "id")?, leaf(alloc, "name")?)?;
    Ok(Selection::Inline(InlineNode {
        condition: Some(text(alloc, "Droid")?),
        directives: Sparse::new(),
        selections,
        spot: HERE,
    }))
}

fn spread(alloc: Global, name: &str) -> Result<Selection, NoMemory> {
    Ok(Selection::Spread(SpreadNode {
        name: text(alloc, name)?,
        directives: Sparse::new(),
        spot: HERE,
    }))
}

/// A fragment on heroes without directives.
fn on_heroes(
    alloc: Global,
    name: &str,
    selections: Listed<Selection>,
) -> Result<Definition, NoMemory> {
    Ok(Definition::Fragment(FragmentDef {
        name: text(alloc, name)?,
        condition: text(alloc, "Hero")?,
        condition_spot: HERE,
        directives: Listed::new(alloc),
        selections,
        spot: HERE,
    }))
}

#[test]
fn fragments(rt: HostRuntime) -> Result<(), Fail> {
    let alloc = rt.alloc();
    let selections = two(alloc, on_droids(alloc)?, spread(alloc, "More")?)?;
    let got = printed(alloc, on_heroes(alloc, "F", selections)?)?;
    assert_eq!(rt;
        got.as_str(),
        "fragment F on Hero { ... on Droid { id name } ... More }"
    );
    Ok(())
}

#[test]
fn strings(rt: HostRuntime) -> Result<(), Fail> {
    let alloc = rt.alloc();
    let table = [
        ("", "{ b : a ( of : \"\" ) }"),
        ("x y", "{ b : a ( of : \"x y\" ) }"),
        ("\"\\\n", "{ b : a ( of : \"\\\"\\\\\\n\" ) }"),
        (
            "\u{0}\t\r\u{1f}",
            "{ b : a ( of : \"\\u0000\\u0009\\u000d\\u001f\" ) }",
        ),
        (
            "\u{e9}\u{1f600}\u{7f}",
            "{ b : a ( of : \"\u{e9}\u{1f600}\u{7f}\" ) }",
        ),
    ];
    for &(value, want) in &table {
        let got = with_argument(alloc, Literal::Text(text(alloc, value)?, HERE))?;
        assert_eq!(rt; got.as_str(), want, "{value}");
    }
    Ok(())
}

#[test]
fn values(rt: HostRuntime) -> Result<(), Fail> {
    let alloc = rt.alloc();
    let number = Literal::Int(text(alloc, "-7")?, HERE);
    let items = two(alloc, number, Literal::Null(HERE))?;
    let member = argument(alloc, "c", Literal::Enum(text(alloc, "RED")?, HERE))?;
    let object = Literal::Object(one(alloc, member)?, HERE);
    let list = Literal::List(two(alloc, Literal::List(items, HERE), object)?, HERE);
    let got = with_argument(alloc, list)?;
    assert_eq!(rt;
        got.as_str(),
        "{ b : a ( of : [ [ -7 null ] { c : RED } ] ) }"
    );
    Ok(())
}

/// What is printed of the document that a text is.
fn reprinted(alloc: Global, text: &str) -> Result<Text, Fail> {
    match parse(alloc, text) {
        Ok(document) => Ok(print(alloc, &document)?),
        Err(_) => Err(Fail::new("no document")),
    }
}

#[test]
fn printed_and_read_back(rt: HostRuntime) -> Result<(), Fail> {
    let alloc = rt.alloc();
    let table = [
        ("query{a,b}", "{ a b }"),
        (
            "query Q($a:Boolean=true){hero{id @include(if:$a)}}",
            "query Q ( $ a : Boolean = true ) { hero { id @ include ( if : $ a ) } }",
        ),
        (
            "{a:b(c:[1{d:null}]e:\"\"\"\n f\n\"\"\"){...F...on T@g{h}...{i}}}#",
            "{ a : b ( c : [ 1 { d : null } ] e : \"f\" ) { ... F ... on T @ g { h } ... { i } } }",
        ),
        (
            "fragment F on T@a(b:\"\\\"\\n\\u0009\\u00e9\"){c}subscription{d}",
            "fragment F on T @ a ( b : \"\\\"\\n\\u0009\u{e9}\" ) { c } subscription { d }",
        ),
        (
            "mutation($a:[[T!]]!=[] @b,$c:D){e}",
            "mutation ( $ a : [ [ T ! ] ] ! = [ ] @ b $ c : D ) { e }",
        ),
    ];
    for &(text, want) in &table {
        let once = reprinted(alloc, text)?;
        assert_eq!(rt; once.as_str(), want);
        let again = reprinted(alloc, once.as_str())?;
        assert_eq!(rt; again.as_str(), want);
    }
    Ok(())
}
