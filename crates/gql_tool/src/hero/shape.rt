//! Which documents are executed: a query of `hero` for leaves, of which a last piece may be deferred.
//!
//! ```text
//! { hero { LEAF+ DEFERRED? } }
//! DEFERRED = ... @defer(label: "L") { LEAF+ }
//! LEAF     = id | name | age | boom
//! ```

ghost use Rattle.std.specs.Prelude.{◌≡◌, ◌+◌, ◌==◌, ◌≤◌, ◌&&◌, length, IfOk, Some, option_map};
ghost use Rattle.gql_model.specs.declared.syntax.FieldNode.{out-FieldNode};
ghost use Rattle.gql_model.specs.declared.syntax.InlineNode.{out-InlineNode};
ghost use Rattle.gql_model.specs.declared.syntax.Literal.{out-Literal};
ghost use Rattle.gql_model.specs.declared.syntax.Argument.{out-Argument};
ghost use Rattle.gql_tool.specs.hero.Shape.{leaf_name, is_plain, leaf_in, leaf_of, leaves_of, behind_leaves, string_in, label_in, label_of, defer_of, deferred_by, deferred_in, deferred_of, ending_of, hero_by, hero_in, root_of, is_query, is_plain_query, operation_in, document_of, same_name, times, deferred_leaves_of, stands_once, once_each, hero_of};

use gql_model::{
    Argument, Definition, DirectiveUse, Document, FieldNode, InlineNode, Literal, OperationDef,
    OperationKind, Selection,
};
use gql_tree::{Listed, NoMemory, Spot, Text, TryCopy};
use std::alloc::Global;

/// The fields that a document may ask of the hero.
#[derive(Clone, Copy, Debug, PartialEq, Eq)]
pub enum LeafName {
    Id,
    Name,
    Age,
    Boom,
}

/// A field without a selection, with where its name begins.
#[derive(Clone, Copy, Debug, PartialEq, Eq)]
pub struct Leaf {
    pub name: LeafName,
    pub spot: Spot,
}

/// `... @defer(label: "L") { LEAVES }`, at least one leaf.
#[derive(Debug, Drop)]
pub struct Deferred {
    /// What its string means.
    pub label: Option<Text>,
    /// Where `...` begins.
    pub spot: Spot,
    pub leaves: Listed<Leaf>,
}

/// `{ hero { LEAVES DEFERRED } }`, at least one leaf before the deferred piece, and each leaf at most
/// once in all.
#[derive(Debug, Drop)]
pub struct HeroDocument {
    /// Where the operation begins.
    pub spot: Spot,
    /// Where `hero` begins.
    pub hero: Spot,
    pub leaves: Listed<Leaf>,
    pub deferred: Option<Deferred>,
}

/// The query of the hero that a document is, or `None` where it is another document.
pub fn hero_of(alloc: Global, document: &Document) -> Result<Option<HeroDocument>, NoMemory>
    ensures { IfOk result (λ hero. hero ≡ hero_of document.now) }
{
    let Some(hero) = document_of(alloc, document.definitions.as_slice())? else {
        return Ok(None);
    };
    Ok(once_each(hero))
}

// ---- leaves

/// The leaf of this name.
fn leaf_name(word: &str) -> Option<LeafName>
    ensures { result ≡ leaf_name word.now }
{
    if word == "id" {
        Some(LeafName::Id)
    } else if word == "name" {
        Some(LeafName::Name)
    } else if word == "age" {
        Some(LeafName::Age)
    } else if word == "boom" {
        Some(LeafName::Boom)
    } else {
        None
    }
}

/// A field without alias, arguments and directives.
fn is_plain(field: &FieldNode) -> bool
    ensures { result ≡ is_plain (out-FieldNode field.now) }
{
    field.alias.is_none() && field.arguments.len() == 0 && field.directives.len() == 0
}

/// The leaf that a field is: its name alone, without braces.
fn leaf_in(field: &FieldNode) -> Option<Leaf>
    ensures { result ≡ leaf_in (out-FieldNode field.now) }
{
    if !is_plain(field) || field.selections.len() != 0 {
        return None;
    }
    let name = leaf_name(field.name.as_str())?;
    Some(Leaf {
        name,
        spot: field.spot,
    })
}

fn leaf_of(selection: &Selection) -> Option<Leaf>
    ensures { result ≡ leaf_of selection.now }
{
    match selection {
        Selection::Field(field) => leaf_in(field),
        _ => None,
    }
}

/// The leaves at the front.
fn leaves_of(alloc: Global, selections: &[Selection]) -> Result<Listed<Leaf>, NoMemory>
    ensures value { IfOk result (λ leaves. leaves ≡ leaves_of selections.now) }
    ensures within { IfOk result (λ leaves. length leaves ≤ length selections.now) }
{
    let mut leaves = Listed::new(alloc);
    for selection in selections {
        let Some(leaf) = leaf_of(selection) else {
            return Ok(leaves);
        };
        leaves.push(leaf)?;
    }
    Ok(leaves)
}

// ---- the deferred piece

/// What a string means, whatever its characters.
fn string_in(value: &Literal) -> Result<Option<Text>, NoMemory>
    ensures { IfOk result (λ text. text ≡ string_in (out-Literal value.now)) }
{
    match value {
        Literal::Text(text, _) => Ok(Some(text.copy()?)),
        _ => Ok(None),
    }
}

fn label_in(argument: &Argument) -> Result<Option<Text>, NoMemory>
    ensures { IfOk result (λ label. label ≡ label_in (out-Argument argument.now)) }
{
    if argument.name.as_str() != "label" {
        return Ok(None);
    }
    string_in(&argument.value)
}

/// No argument, or only a string `label`.
fn label_of(arguments: &[Argument]) -> Result<Option<Option<Text>>, NoMemory>
    ensures { IfOk result (λ label. label ≡ label_of arguments.now) }
{
    match arguments {
        [] => Ok(Some(None)),
        [argument] => Ok(label_in(argument)?.map(Some)),
        _ => Ok(None),
    }
}

/// The single directive `@defer`, by its label.
fn defer_of(directives: &[DirectiveUse]) -> Result<Option<Option<Text>>, NoMemory>
    ensures { IfOk result (λ label. label ≡ defer_of directives.now) }
{
    let [directive] = directives else {
        return Ok(None);
    };
    if directive.name.as_str() != "defer" {
        return Ok(None);
    }
    label_of(directive.arguments.as_slice())
}

/// Leaves with this label, and nothing behind them.
fn deferred_by(
    alloc: Global,
    spot: Spot,
    selections: &[Selection],
    label: Option<Text>,
) -> Result<Option<Deferred>, NoMemory>
    ensures { IfOk result (λ deferred. deferred
        ≡ deferred_by spot (leaves_of selections.now) (behind_leaves selections.now) label) }
{
    let leaves = leaves_of(alloc, selections)?;
    if leaves.is_empty() || !selections[leaves.len()..].is_empty() {
        return Ok(None);
    }
    Ok(Some(Deferred {
        label,
        spot,
        leaves,
    }))
}

/// An inline fragment without a type condition that is deferred.
fn deferred_in(alloc: Global, fragment: &InlineNode) -> Result<Option<Deferred>, NoMemory>
    ensures { IfOk result (λ deferred. deferred ≡ deferred_in (out-InlineNode fragment.now)) }
{
    if fragment.condition.is_some() {
        return Ok(None);
    }
    let Some(label) = defer_of(fragment.directives.as_slice())? else {
        return Ok(None);
    };
    deferred_by(alloc, fragment.spot, fragment.selections.as_slice(), label)
}

fn deferred_of(alloc: Global, selection: &Selection) -> Result<Option<Deferred>, NoMemory>
    ensures { IfOk result (λ deferred. deferred ≡ deferred_of selection.now) }
{
    match selection {
        Selection::Inline(fragment) => deferred_in(alloc, fragment),
        _ => Ok(None),
    }
}

// ---- the query

/// What stands behind the hero's leaves: nothing, or a deferred piece.
fn ending_of(alloc: Global, selections: &[Selection]) -> Result<Option<Option<Deferred>>, NoMemory>
    ensures { IfOk result (λ ending. ending ≡ ending_of selections.now) }
{
    match selections {
        [] => Ok(Some(None)),
        [selection] => Ok(deferred_of(alloc, selection)?.map(Some)),
        _ => Ok(None),
    }
}

/// A hero with leaves and what stands behind them.
fn hero_by(
    alloc: Global,
    spot: Spot,
    hero: Spot,
    selections: &[Selection],
) -> Result<Option<HeroDocument>, NoMemory>
    ensures { IfOk result (λ document. document
        ≡ hero_by spot hero (leaves_of selections.now) (behind_leaves selections.now)) }
{
    let leaves = leaves_of(alloc, selections)?;
    if leaves.is_empty() {
        return Ok(None);
    }
    let Some(deferred) = ending_of(alloc, &selections[leaves.len()..])? else {
        return Ok(None);
    };
    Ok(Some(HeroDocument {
        spot,
        hero,
        leaves,
        deferred,
    }))
}

fn hero_in(alloc: Global, spot: Spot, field: &FieldNode) -> Result<Option<HeroDocument>, NoMemory>
    ensures { IfOk result (λ document. document ≡ hero_in spot (out-FieldNode field.now)) }
{
    if !is_plain(field) || field.name.as_str() != "hero" {
        return Ok(None);
    }
    hero_by(alloc, spot, field.spot, field.selections.as_slice())
}

/// `hero` alone.
fn root_of(
    alloc: Global,
    spot: Spot,
    selections: &[Selection],
) -> Result<Option<HeroDocument>, NoMemory>
    ensures { IfOk result (λ document. document ≡ root_of spot selections.now) }
{
    match selections {
        [Selection::Field(field)] => hero_in(alloc, spot, field),
        _ => Ok(None),
    }
}

fn is_query(kind: OperationKind) -> bool
    ensures { result ≡ is_query kind }
{
    matches!(kind, OperationKind::Query)
}

/// A query without name, variables and directives.
fn is_plain_query(operation: &OperationDef) -> bool
    ensures { result ≡ is_plain_query operation.now }
{
    is_query(operation.kind)
        && operation.name.is_none()
        && operation.variables.len() == 0
        && operation.directives.len() == 0
}

fn operation_in(alloc: Global, operation: &OperationDef) -> Result<Option<HeroDocument>, NoMemory>
    ensures { IfOk result (λ document. document ≡ operation_in operation.now) }
{
    if !is_plain_query(operation) {
        return Ok(None);
    }
    root_of(alloc, operation.spot, operation.selections.as_slice())
}

/// One operation alone, before each leaf is counted.
fn document_of(alloc: Global, definitions: &[Definition]) -> Result<Option<HeroDocument>, NoMemory>
    ensures { IfOk result (λ document. document ≡ document_of definitions.now) }
{
    match definitions {
        [Definition::Operation(operation)] => operation_in(alloc, operation),
        _ => Ok(None),
    }
}

// ---- each leaf once

fn same_name(left: LeafName, right: LeafName) -> bool
    ensures { result ≡ same_name left right }
{
    left == right
}

/// How often a name stands in leaves.
fn times(name: LeafName, leaves: &[Leaf]) -> usize
    ensures { result ≡ times name leaves.now }
{
    leaves
        .iter()
        .filter(|leaf| same_name(leaf.name, name))
        .count()
}

/// How often a name stands in the deferred piece.
fn times_deferred(name: LeafName, deferred: &Option<Deferred>) -> usize
    ensures { result ≡ times name (deferred_leaves_of deferred.now) }
{
    match deferred {
        Some(deferred) => times(name, deferred.leaves.as_slice()),
        None => 0,
    }
}

/// Whether a name stands at most once in the document.
fn stands_once(document: &HeroDocument, name: LeafName) -> bool
    ensures { result ≡ stands_once document.now name }
{
    let own = times(name, document.leaves.as_slice());
    own.saturating_add(times_deferred(name, &document.deferred)) <= 1
}

/// The document, if each name stands at most once in it.
fn once_each(document: HeroDocument) -> Option<HeroDocument>
    ensures { result ≡ once_each document }
{
    let once = stands_once(&document, LeafName::Id)
        && stands_once(&document, LeafName::Name)
        && stands_once(&document, LeafName::Age)
        && stands_once(&document, LeafName::Boom);
    once.then_some(document)
}
