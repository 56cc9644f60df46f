//! Parts of documents that are read: kinds, names, values and places, by hand.

use crate::shared::titled;
use gql_doc::parse;
use gql_model::{Definition, Document, FieldNode, Literal, OperationDef, OperationKind, Selection};
use gql_tree::{Listed, Text};
use std::alloc::Global;
use std::test::Fail;

/// The text, or `-`.
fn text_or(text: &Option<Text>) -> &str {
    match text {
        Some(text) => text.as_str(),
        None => "-",
    }
}

/// A kind, and how many stand inside.
fn counted(alloc: Global, kind: &str, count: usize) -> Result<String, Fail> {
    Ok(format!(in alloc; "{kind} of {count}")?)
}

/// A value's kind, what it says and its place.
fn literal_shown(alloc: Global, literal: &Literal) -> Result<String, Fail> {
    match literal {
        Literal::Variable(name, spot) => titled(alloc, "Variable ", name.as_str(), *spot),
        Literal::Int(text, spot) => titled(alloc, "Int ", text.as_str(), *spot),
        Literal::Text(text, spot) => titled(alloc, "Text ", text.as_str(), *spot),
        Literal::Bool(true, spot) => titled(alloc, "Bool ", "true", *spot),
        Literal::Bool(false, spot) => titled(alloc, "Bool ", "false", *spot),
        Literal::Null(spot) => titled(alloc, "Null", "", *spot),
        Literal::Enum(text, spot) => titled(alloc, "Enum ", text.as_str(), *spot),
        Literal::List(items, spot) => {
            let kind = counted(alloc, "List", items.len())?;
            titled(alloc, kind.as_str(), "", *spot)
        }
        Literal::Object(fields, spot) => {
            let kind = counted(alloc, "Object", fields.len())?;
            titled(alloc, kind.as_str(), "", *spot)
        }
    }
}

/// A field's alias, name and place, with how many arguments, directives and selections it has.
fn field_shown(alloc: Global, field: &FieldNode) -> Result<String, Fail> {
    let alias = match &field.alias {
        Some(alias) => alias.get().as_str(),
        None => "-",
    };
    let name = field.name.as_str();
    let (arguments, directives) = (field.arguments.len(), field.directives.len());
    let selections = field.selections.len();
    let kind = format!(in alloc; "Field {alias} {name} {arguments} {directives} {selections}")?;
    titled(alloc, kind.as_str(), "", field.spot)
}

/// A selection's kind, names and place.
fn selection_shown(alloc: Global, selection: &Selection) -> Result<String, Fail> {
    match selection {
        Selection::Field(field) => field_shown(alloc, field),
        Selection::Spread(spread) => titled(alloc, "Spread ", spread.name.as_str(), spread.spot),
        Selection::Inline(inline) => {
            titled(alloc, "Inline ", text_or(&inline.condition), inline.spot)
        }
    }
}

/// The kind of an operation.
fn kind_shown(kind: OperationKind) -> &'static str {
    match kind {
        OperationKind::Query => "Query ",
        OperationKind::Mutation => "Mutation ",
        OperationKind::Subscription => "Subscription ",
    }
}

/// A definition's kind, name and place.
fn definition_shown(alloc: Global, definition: &Definition) -> Result<String, Fail> {
    match definition {
        Definition::Operation(operation) => {
            let name = text_or(&operation.name);
            titled(alloc, kind_shown(operation.kind), name, operation.spot)
        }
        Definition::Fragment(fragment) => {
            let kind = titled(
                alloc,
                "on ",
                fragment.condition.as_str(),
                fragment.condition_spot,
            )?;
            let name = fragment.name.as_str();
            let kind = format!(in alloc; "Fragment {kind} ")?;
            titled(alloc, kind.as_str(), name, fragment.spot)
        }
    }
}

/// The selections of a definition.
fn selections_of(definition: &Definition) -> &Listed<Selection> {
    match definition {
        Definition::Operation(operation) => &operation.selections,
        Definition::Fragment(fragment) => &fragment.selections,
    }
}

/// The first selection of a document, where it is a field.
fn first_field(document: &Document) -> Option<&FieldNode> {
    match selections_of(document.definitions.get(0)?).get(0)? {
        Selection::Field(field) => Some(field),
        _ => None,
    }
}

/// The document of a text.
fn document_of(alloc: Global, text: &str) -> Result<Document, Fail> {
    match parse(alloc, text) {
        Ok(document) => Ok(document),
        Err(_) => Err(Fail::new("no document")),
    }
}

#[test]
fn definitions_read(rt: HostRuntime) -> Result<(), Fail> {
    let alloc = rt.alloc();
    let text = "{a} query{b}\nmutation M($c:D){e} subscription\nS@f{g} fragment H on I{j}";
    let document = document_of(alloc, text)?;
    let wants = [
        "Query - 1:1",
        "Query - 1:5",
        "Mutation M 2:1",
        "Subscription S 2:21",
        "Fragment on I 3:22 H 3:17",
    ];
    assert_eq!(rt; document.definitions.len(), 5);
    for (definition, want) in document.definitions.as_slice().iter().zip(&wants) {
        let got = definition_shown(alloc, definition)?;
        assert_eq!(rt; got.as_str(), *want);
    }
    Ok(())
}

#[test]
fn selections_read(rt: HostRuntime) -> Result<(), Fail> {
    let alloc = rt.alloc();
    let text = "{a:b(c:1 d:2)@e{f g h} i, ...J@k ... on L{m}\n...{n} ...@o{p} on @q@r}";
    let document = document_of(alloc, text)?;
    let wants = [
        "Field a b 2 1 3 1:2",
        "Field - i 0 0 0 1:24",
        "Spread J 1:30",
        "Inline L 1:41",
        "Inline - 2:1",
        "Inline - 2:8",
        "Field - on 0 2 0 2:17",
    ];
    let Some(definition) = document.definitions.get(0) else {
        return Err(Fail::new("no definition"));
    };
    let selections = selections_of(definition);
    assert_eq!(rt; selections.len(), 7);
    for (selection, want) in selections.as_slice().iter().zip(&wants) {
        let got = selection_shown(alloc, selection)?;
        assert_eq!(rt; got.as_str(), *want);
    }
    Ok(())
}

#[test]
fn values_read(rt: HostRuntime) -> Result<(), Fail> {
    let alloc = rt.alloc();
    let text =
        "{a(b:$c d:-10 e:\"x\\u0041\" f:\"\"\"\n  y\"\"\"g:true h:false,i:null j:K l:[1[2]]m:{n:3}o:[]p:{})}";
    let document = document_of(alloc, text)?;
    let wants = [
        "Variable c 1:6",
        "Int -10 1:11",
        "Text xA 1:17",
        "Text y 1:29",
        "Bool true 2:9",
        "Bool false 2:16",
        "Null 2:24",
        "Enum K 2:31",
        "List of 2 2:35",
        "Object of 1 2:43",
        "List of 0 2:50",
        "Object of 0 2:54",
    ];
    let Some(field) = first_field(&document) else {
        return Err(Fail::new("no field"));
    };
    assert_eq!(rt; field.arguments.len(), 12);
    for (argument, want) in field.arguments.as_slice().iter().zip(&wants) {
        let got = literal_shown(alloc, &argument.value)?;
        assert_eq!(rt; got.as_str(), *want);
    }
    Ok(())
}
