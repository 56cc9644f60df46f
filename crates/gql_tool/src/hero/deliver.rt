//! Answering a request that is built: each payload is put as it is made, and fed to the client.

ghost use Rattle.std.specs.Prelude.{◌≡◌, ◌<◌, ◌≤◌, ◌∷◌, [], IfOk, IsErrOf};
ghost use Rattle.gql_io.specs.Faults.{Counts};
ghost use Rattle.gql_tree.specs.Inline.{inline_payloads};
ghost use Rattle.gql_tool.specs.hero.Shape.{times};
ghost use Rattle.gql_tool.specs.hero.Built.{regions};
ghost use Rattle.gql_tool.specs.hero.Hero.{EachOnce, RefStands, single as single_of, announcing as announcing_of, completing as completing_of, person_payloads};
ghost use Rattle.gql_tool.specs.inner.Handed.{HandedAll};

use crate::Status;
use crate::handing::{Stage, hand_out};
use crate::hero::delivery::{announcing, completing, single};
use crate::hero::region::{Leaves, hero_fault, run_leaves};
use crate::hero::shape::{Deferred, HeroDocument, LeafName};
use crate::hero::tables::{HeroCell, HeroTables, Person};
use gql_client::Client;
use gql_io::Sink;
use gql_tree::{Fault, Listed, NoMemory, Payload, TryCopy, Value};
use std::alloc::Global;

/// A response in which nothing waits.
fn deliver_single<O: Sink>(
    alloc: Global,
    value: Value,
    faults: Listed<Fault>,
    cut: usize,
    output: &mut O,
    client: &mut Client,
) -> Result<(), Status>
    requires { 0 < cut }
    ensures handed { HandedAll (single_of value faults ∷ []) cut (O.sent output.old) (O.sent output.new) client.old client.new result }
    ensures write_fault { Counts (O.faults output.old) (O.faults output.new) (IsErrOf result Status.WriteFault) }
{
    let payload = single(alloc, value, faults)?;
    hand_out(alloc, &payload, Stage::Only, cut, output, client)
}

/// The payload that announces the deferred leaves.
fn first_payload(alloc: Global, run: Leaves, deferred: &Deferred) -> Result<Payload, NoMemory>
    ensures { IfOk result (λ payload. payload ≡ announcing_of (Value.Object run.members) run.faults deferred.now.label) }
{
    let label = deferred.label.copy()?;
    announcing(alloc, Value::Object(run.members), run.faults, label)
}

/// The payload that completes the deferred leaves, which are run for it.
fn last_payload(alloc: Global, deferred: &Deferred, person: &Person) -> Result<Payload, NoMemory>
    requires { (name : LeafName) → times name deferred.now.leaves ≤ 1 }
    ensures { IfOk result (λ payload. payload ≡ completing_of person.now deferred.now.leaves) }
{
    let leaves = run_leaves(alloc, &deferred.leaves, person)?;
    completing(alloc, leaves)
}

/// A response whose deferred leaves are run once its first payload was handed out.
fn deliver_deferred<O: Sink>(
    alloc: Global,
    run: Leaves,
    deferred: &Deferred,
    person: &Person,
    cut: usize,
    output: &mut O,
    client: &mut Client,
) -> Result<(), Status>
    requires once { (name : LeafName) → times name deferred.now.leaves ≤ 1 }
    requires cut { 0 < cut }
    ensures handed { HandedAll (announcing_of (Value.Object run.members) run.faults deferred.now.label ∷ completing_of person.now deferred.now.leaves ∷ []) cut
        (O.sent output.old) (O.sent output.new) client.old client.new result }
    ensures write_fault { Counts (O.faults output.old) (O.faults output.new) (IsErrOf result Status.WriteFault) }
{
    let first = first_payload(alloc, run, deferred)?;
    hand_out(alloc, &first, Stage::First, cut, output, client)?;
    let last = last_payload(alloc, deferred, person)?;
    hand_out(alloc, &last, Stage::Last, cut, output, client)
}

/// A response whose hero is a person.
fn deliver_person<O: Sink>(
    alloc: Global,
    person: &Person,
    document: &HeroDocument,
    cut: usize,
    output: &mut O,
    client: &mut Client,
) -> Result<(), Status>
    requires once { EachOnce document.now }
    requires cut { 0 < cut }
    ensures handed { HandedAll (person_payloads person.now document.now) cut (O.sent output.old) (O.sent output.new) client.old client.new result }
    ensures write_fault { Counts (O.faults output.old) (O.faults output.new) (IsErrOf result Status.WriteFault) }
{
    let run = run_leaves(alloc, &document.leaves, person)?;
    if run.bubbled {
        return deliver_single(alloc, Value::Null, run.faults, cut, output, client);
    }
    match &document.deferred {
        Some(deferred) if !deferred.leaves.is_empty() => {
            deliver_deferred(alloc, run, deferred, person, cut, output, client)
        }
        _ => {
            let value = Value::Object(run.members);
            deliver_single(alloc, value, run.faults, cut, output, client)
        }
    }
}

/// Runs a document over tables, and hands out each payload as it is made: it is put, and fed to the client.
pub(crate) fn deliver<O: Sink>(
    alloc: Global,
    tables: &HeroTables,
    document: &HeroDocument,
    cut: usize,
    output: &mut O,
    client: &mut Client,
) -> Result<(), Status>
    requires once { EachOnce document.now }
    requires stands { RefStands tables.now }
    requires cut { 0 < cut }
    ensures handed { HandedAll (inline_payloads (regions tables.now document.now)) cut (O.sent output.old) (O.sent output.new) client.old client.new result }
    ensures write_fault { Counts (O.faults output.old) (O.faults output.new) (IsErrOf result Status.WriteFault) }
{
    match &tables.hero {
        HeroCell::Null => {
            let faults = Listed::new(alloc);
            deliver_single(alloc, Value::Null, faults, cut, output, client)
        }
        HeroCell::Error(message) => {
            let faults = hero_fault(alloc, document.hero, message)?;
            deliver_single(alloc, Value::Null, faults, cut, output, client)
        }
        HeroCell::Ref(number) => {
            let persons = tables.persons.as_slice();
            let person = &persons[*number as usize];
            deliver_person(alloc, person, document, cut, output, client)
        }
    }
}
