//! Copies of what is delivered, and of what requests and failures hold.

use super::hero;
use crate::values::{one, path, text};
use gql_tree::{
    Asked, Bytes, Completed, Content, Detail, Entry, Failure, Fault, FragId, Group, Listed,
    NoMemory, Occurrence, Outcome, Payload, Pending, RegionResult, Row, Stream, Task, TaskWork,
    TryCopy, Value,
};
use std::alloc::Global;
use std::fmt::Debug;
use std::test::Fail;

fn faults(alloc: Global) -> Result<Listed<Fault>, NoMemory> {
    let message = text(alloc, "bang")?;
    let path = Some(path(alloc, "hero/boom")?);
    one(
        alloc,
        Fault {
            message,
            line: 1,
            column: 41,
            path,
        },
    )
}

fn pending(alloc: Global) -> Result<Pending, NoMemory> {
    Ok(Pending {
        id: text(alloc, "0")?,
        path: path(alloc, "hero")?,
        label: Some(text(alloc, "A")?),
    })
}

fn entry(alloc: Global, content: Content) -> Result<Entry, NoMemory> {
    Ok(Entry {
        id: text(alloc, "0")?,
        sub_path: path(alloc, "friends/0")?,
        content,
        errors: faults(alloc)?,
    })
}

fn entries(alloc: Global) -> Result<Listed<Entry>, NoMemory> {
    let fields = Content::Fields(hero(alloc)?);
    let mut entries = one(alloc, entry(alloc, fields)?)?;
    let items = Content::Items(one(alloc, Value::Null)?);
    entries.push(entry(alloc, items)?)?;
    Ok(entries)
}

fn completed(alloc: Global) -> Result<Listed<Completed>, NoMemory> {
    let id = text(alloc, "0")?;
    let errors = faults(alloc)?;
    one(alloc, Completed { id, errors })
}

fn payload(alloc: Global) -> Result<Payload, NoMemory> {
    Ok(Payload {
        initial: Some(hero(alloc)?),
        errors: faults(alloc)?,
        pending: one(alloc, pending(alloc)?)?,
        incremental: entries(alloc)?,
        completed: completed(alloc)?,
        has_next: Some(true),
    })
}

fn owner(alloc: Global) -> Result<FragId, NoMemory> {
    Ok(FragId {
        place: 3,
        path: path(alloc, "hero")?,
    })
}

fn field(alloc: Global) -> Result<Detail, NoMemory> {
    let tag = Some(owner(alloc)?);
    Ok(Detail {
        key: text(alloc, "name")?,
        nodes: one(alloc, Occurrence { node: 4, tag })?,
    })
}

fn group(alloc: Global) -> Result<Group, NoMemory> {
    Ok(Group {
        owners: one(alloc, owner(alloc)?)?,
        path: path(alloc, "hero")?,
        row: Row { kind: 1, number: 0 },
        fields: one(alloc, field(alloc)?)?,
    })
}

fn stream(alloc: Global) -> Result<Stream, NoMemory> {
    Ok(Stream {
        path: path(alloc, "hero/friends")?,
        row: Row { kind: 1, number: 0 },
        field: field(alloc)?,
        label: None,
        place: 4,
        first: 1,
        length: 3,
    })
}

fn region(alloc: Global) -> Result<RegionResult, NoMemory> {
    Ok(RegionResult {
        outcome: Outcome::Good(hero(alloc)?),
        faults: faults(alloc)?,
        fragments: Listed::new(alloc),
        groups: one(alloc, group(alloc)?)?,
        streams: one(alloc, stream(alloc)?)?,
    })
}

/// Whether a copy is written as its source is.
fn is_copied<T: TryCopy + Debug>(alloc: Global, source: T) -> Result<bool, Fail> {
    let copy = source.copy()?;
    let copy = format!(in alloc; "{copy:?}")?;
    let source = format!(in alloc; "{source:?}")?;
    Ok(copy.as_str() == source.as_str())
}

#[test]
fn copies_of_what_is_delivered(rt: HostRuntime) -> Result<(), Fail> {
    let alloc = rt.alloc();
    assert!(rt; is_copied(alloc, payload(alloc)?)?);
    assert!(rt; is_copied(alloc, region(alloc)?)?);
    let work = TaskWork::Fields(group(alloc)?);
    assert!(rt; is_copied(alloc, Task { number: 0, work })?);
    let work = TaskWork::Item(stream(alloc)?, 1);
    assert!(rt; is_copied(alloc, Task { number: 1, work })?);
    Ok(())
}

fn failure(alloc: Global) -> Result<Failure, NoMemory> {
    Ok(Failure {
        path: path(alloc, "hero")?,
        label: None,
        errors: faults(alloc)?,
    })
}

fn asked(alloc: Global) -> Result<Asked, NoMemory> {
    Ok(Asked {
        query: text(alloc, "{ hero { id } }")?,
        operation_name: None,
        variables: Value::Null,
    })
}

#[test]
fn copies_of_what_ends_hold(rt: HostRuntime) -> Result<(), Fail> {
    let alloc = rt.alloc();
    assert!(rt; is_copied(alloc, failure(alloc)?)?);
    assert!(rt; is_copied(alloc, asked(alloc)?)?);
    assert!(rt; is_copied(alloc, Bytes::copy_of(alloc, b"\x00\xff")?)?);
    Ok(())
}
