//! Running the regions of a document of heroes: the initial one, and that of its deferred leaves.

ghost use Rattle.std.specs.Prelude.{◌≡◌, ◌≤◌, ◌||◌, ◌++◌, [], ◌∷◌, true, false, is_none, IfOk, OnOk, Some, None};
ghost use Rattle.gql_tree.specs.Names.{has_name};
ghost use Rattle.gql_tool.specs.hero.Shape.{times};
ghost use Rattle.gql_model.specs.Complete.{fault_at, null_message};
ghost use Rattle.gql_tool.specs.hero.Operation.{name_of};
ghost use Rattle.gql_tool.specs.hero.Hero.{hero_path, leaf_path, is_required as is_required_spec, cell_under, cell_part, null_faults, some_bubble, leaf_members, leaf_faults, fault_list, value_or_null, IsPart};

use crate::hero::shape::{Leaf, LeafName};
use crate::hero::tables::{LeafCell, Person};
use gql_tree::{Fault, Fields, Key, Listed, NoMemory, Path, Spot, Text, TryCopy, Value};
use std::alloc::Global;

/// What a leaf completes to: no value where a null may not stand, and the error that came with it.
#[derive(Debug, Drop)]
struct LeafPart {
    value: Option<Value>,
    fault: Option<Fault>,
}

/// What the leaves of an object complete to.
#[derive(Debug, Drop)]
pub(crate) struct Leaves {
    /// Whether a null may not stand at one of them.
    pub(crate) bubbled: bool,
    pub(crate) members: Fields<Value>,
    pub(crate) faults: Listed<Fault>,
}

fn name_text(alloc: Global, name: LeafName) -> Result<Text, NoMemory>
    ensures { IfOk result (λ text. text ≡ name_of name) }
{
    match name {
        LeafName::Id => Text::copy_of(alloc, "id"),
        LeafName::Name => Text::copy_of(alloc, "name"),
        LeafName::Age => Text::copy_of(alloc, "age"),
        LeafName::Boom => Text::copy_of(alloc, "boom"),
    }
}

pub(crate) fn hero_path(alloc: Global) -> Result<Path, NoMemory>
    ensures { IfOk result (λ path. path.keys ≡ hero_path) }
{
    let mut keys = Listed::new(alloc);
    keys.push(Key::Name(Text::copy_of(alloc, "hero")?))?;
    Ok(Path { keys })
}

fn leaf_path(alloc: Global, name: LeafName) -> Result<Path, NoMemory>
    ensures { IfOk result (λ path. path.keys ≡ leaf_path name) }
{
    let mut path = hero_path(alloc)?;
    path.keys.push(Key::Name(name_text(alloc, name)?))?;
    Ok(path)
}

/// Whether the leaf's type is Non-Null.
fn is_required(name: LeafName) -> bool
    ensures { result ≡ is_required_spec name }
{
    match name {
        LeafName::Id | LeafName::Name | LeafName::Boom => true,
        LeafName::Age => false,
    }
}

fn cell_of(person: &Person, name: LeafName) -> &LeafCell
    ensures { result.now ≡ cell_under person.now name }
{
    match name {
        LeafName::Id => &person.id,
        LeafName::Name => &person.name,
        LeafName::Age => &person.age,
        LeafName::Boom => &person.boom,
    }
}

fn fault_of(alloc: Global, leaf: &Leaf, message: Text) -> Result<Fault, NoMemory>
    ensures { IfOk result (λ fault. fault ≡ fault_at leaf.now.spot message (leaf_path leaf.now.name)) }
{
    Ok(Fault {
        message,
        line: leaf.spot.line,
        column: leaf.spot.column,
        path: Some(leaf_path(alloc, leaf.name)?),
    })
}

/// Null, where it may stand.
fn null_at(name: LeafName) -> Option<Value>
    ensures { result ≡ elim (is_required_spec name) [ true ↦ None | false ↦ Some Value.Null ] }
{
    if is_required(name) {
        None
    } else {
        Some(Value::Null)
    }
}

/// The error of a null without one.
fn null_fault(alloc: Global, leaf: &Leaf) -> Result<Option<Fault>, NoMemory>
    ensures { IfOk result (λ fault. fault_list fault ≡ null_faults (is_required_spec leaf.now.name) leaf.now.spot (leaf_path leaf.now.name)) }
{
    if !is_required(leaf.name) {
        return Ok(None);
    }
    let message = Text::copy_of(alloc, "Null in a non-null position")?;
    Ok(Some(fault_of(alloc, leaf, message)?))
}

/// Completes a leaf's cell by the leaf's type.
fn complete_leaf(alloc: Global, leaf: &Leaf, cell: &LeafCell) -> Result<LeafPart, NoMemory>
    ensures { IfOk result (λ part. IsPart part.value part.fault (cell_part (is_required_spec leaf.now.name) leaf.now.spot (leaf_path leaf.now.name) cell.now)) }
{
    match cell {
        LeafCell::Null => {
            let fault = null_fault(alloc, leaf)?;
            let value = null_at(leaf.name);
            Ok(LeafPart { value, fault })
        }
        LeafCell::Int(number) => Ok(LeafPart {
            value: Some(Value::Int(*number)),
            fault: None,
        }),
        LeafCell::Text(text) => Ok(LeafPart {
            value: Some(Value::Text(text.copy()?)),
            fault: None,
        }),
        LeafCell::Error(message) => {
            let fault = Some(fault_of(alloc, leaf, message.copy()?)?);
            let value = null_at(leaf.name);
            Ok(LeafPart { value, fault })
        }
    }
}

impl Leaves {
    fn new(alloc: Global) -> Self
        ensures bubbled { result.bubbled ≡ false }
        ensures members { result.members ≡ [] }
        ensures faults { result.faults ≡ [] }
    {
        Leaves {
            bubbled: false,
            members: Fields::new(alloc),
            faults: Listed::new(alloc),
        }
    }

    /// Adds a leaf that isn't there yet.
    fn push(&mut self, name: Text, part: LeafPart) -> Result<(), NoMemory>
        requires { has_name name self.old.members ≡ false }
        ensures bubbled { OnOk result (self.new.bubbled ≡ self.old.bubbled || is_none part.value) }
        ensures members { OnOk result (self.new.members ≡ self.old.members ++ record { name = name; value = value_or_null part.value } ∷ []) }
        ensures faults { OnOk result (self.new.faults ≡ self.old.faults ++ fault_list part.fault) }
    {
        let LeafPart { value, fault } = part;
        if let Some(fault) = fault {
            self.faults.push(fault)?;
        }
        match value {
            Some(value) => self.members.push(name, value),
            None => {
                self.bubbled = true;
                self.members.push(name, Value::Null)
            }
        }
    }
}

/// Runs leaves of a person, of which none stands twice.
pub(crate) fn run_leaves(
    alloc: Global,
    leaves: &Listed<Leaf>,
    person: &Person,
) -> Result<Leaves, NoMemory>
    requires { (name : LeafName) → times name leaves.now ≤ 1 }
    ensures bubbled { IfOk result (λ run. run.bubbled ≡ some_bubble person.now leaves.now) }
    ensures members { IfOk result (λ run. run.members ≡ leaf_members person.now leaves.now) }
    ensures faults { IfOk result (λ run. run.faults ≡ leaf_faults person.now leaves.now) }
{
    let mut run = Leaves::new(alloc);
    for leaf in leaves.as_slice() {
        let part = complete_leaf(alloc, leaf, cell_of(person, leaf.name))?;
        run.push(name_text(alloc, leaf.name)?, part)?;
    }
    Ok(run)
}

/// The error of the hero's own cell.
pub(crate) fn hero_fault(
    alloc: Global,
    spot: Spot,
    message: &Text,
) -> Result<Listed<Fault>, NoMemory>
    ensures { IfOk result (λ faults. faults ≡ fault_at spot message.now hero_path ∷ []) }
{
    let fault = Fault {
        message: message.copy()?,
        line: spot.line,
        column: spot.column,
        path: Some(hero_path(alloc)?),
    };
    let mut faults = Listed::new(alloc);
    faults.push(fault)?;
    Ok(faults)
}
