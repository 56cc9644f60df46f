//! Payloads and texts that are written out by hand.

use crate::values::{object, path, text};
use gql_payload::{decode, encode};
use gql_tree::{
    Bytes, Completed, Content, Entry, Fault, Listed, NoMemory, Payload, Pending, Value,
};
use std::alloc::Global;
use std::process::Abort;
use std::test::Fail;

fn blank(alloc: Global, has_next: Option<bool>) -> Payload {
    Payload {
        initial: None,
        errors: Listed::new(alloc),
        pending: Listed::new(alloc),
        incremental: Listed::new(alloc),
        completed: Listed::new(alloc),
        has_next,
    }
}

/// An entry of id 0 with the name of the hero, at a path below its fragment's.
fn luke(alloc: Global, sub_path: &str) -> Result<Entry, NoMemory> {
    let name = Value::Text(text(alloc, "Luke")?);
    Ok(Entry {
        id: text(alloc, "0")?,
        sub_path: path(alloc, sub_path)?,
        content: Content::Fields(object(alloc, "name", name)?),
        errors: Listed::new(alloc),
    })
}

/// The first payload of `{ hero { id ... @defer(label: "D") { name } } }`.
fn announced(alloc: Global) -> Result<Payload, NoMemory> {
    let hero = object(alloc, "id", Value::Text(text(alloc, "1")?))?;
    let mut payload = blank(alloc, Some(true));
    payload.initial = Some(object(alloc, "hero", hero)?);
    payload.pending.push(Pending {
        id: text(alloc, "0")?,
        path: path(alloc, "hero")?,
        label: Some(text(alloc, "D")?),
    })?;
    Ok(payload)
}

/// Its second payload.
fn delivered(alloc: Global) -> Result<Payload, NoMemory> {
    let mut payload = blank(alloc, Some(false));
    payload.incremental.push(luke(alloc, "")?)?;
    payload.completed.push(Completed {
        id: text(alloc, "0")?,
        errors: Listed::new(alloc),
    })?;
    Ok(payload)
}

/// The only payload of `{ hero { id boom } }`, where `boom` fails and may not be null.
fn failed(alloc: Global) -> Result<Payload, NoMemory> {
    let mut payload = blank(alloc, None);
    payload.initial = Some(object(alloc, "hero", Value::Null)?);
    payload.errors.push(Fault {
        message: text(alloc, "bang")?,
        line: 1,
        column: 13,
        path: Some(path(alloc, "hero/boom")?),
    })?;
    Ok(payload)
}

/// An entry of id 1 with no further items.
fn no_items(alloc: Global) -> Result<Entry, NoMemory> {
    Ok(Entry {
        id: text(alloc, "1")?,
        sub_path: path(alloc, "")?,
        content: Content::Items(Listed::new(alloc)),
        errors: Listed::new(alloc),
    })
}

/// A later payload with fields below its fragment's path, and with no further items.
fn continued(alloc: Global) -> Result<Payload, NoMemory> {
    let mut payload = blank(alloc, Some(true));
    payload.incremental.push(luke(alloc, "hero")?)?;
    payload.incremental.push(no_items(alloc)?)?;
    Ok(payload)
}

/// The payload is written so.
fn is_written(rt: &impl Abort, alloc: Global, payload: &Payload, want: &str) -> Result<(), Fail> {
    let bytes = encode(alloc, payload)?;
    assert_eq!(rt; bytes.as_slice(), want.as_bytes());
    Ok(())
}

#[test]
fn writes_what_is_announced_and_delivered(rt: HostRuntime) -> Result<(), Fail> {
    let alloc = rt.alloc();
    is_written(
        &rt,
        alloc,
        &announced(alloc)?,
        "{\"data\":{\"hero\":{\"id\":\"1\"}},\"hasNext\":true,\"pending\":[{\"id\":\"0\",\"label\":\"D\",\"path\":[\"hero\"]}]}",
    )?;
    is_written(
        &rt,
        alloc,
        &delivered(alloc)?,
        "{\"completed\":[{\"id\":\"0\"}],\"hasNext\":false,\"incremental\":[{\"data\":{\"name\":\"Luke\"},\"id\":\"0\"}]}",
    )
}

#[test]
fn writes_what_failed_and_goes_on(rt: HostRuntime) -> Result<(), Fail> {
    let alloc = rt.alloc();
    is_written(
        &rt,
        alloc,
        &failed(alloc)?,
        "{\"data\":{\"hero\":null},\"errors\":[{\"locations\":[{\"column\":13,\"line\":1}],\"message\":\"bang\",\"path\":[\"hero\",\"boom\"]}]}",
    )?;
    is_written(
        &rt,
        alloc,
        &continued(alloc)?,
        "{\"hasNext\":true,\"incremental\":[{\"data\":{\"name\":\"Luke\"},\"id\":\"0\",\"subPath\":[\"hero\"]},{\"id\":\"1\",\"items\":[]}]}",
    )
}

/// The text of the payload that the bytes are, or the name of why they are none.
fn read_and_written(alloc: Global, bytes: &[u8]) -> Result<Bytes, NoMemory> {
    match decode(alloc, bytes) {
        Ok(payload) => encode(alloc, &payload),
        Err(refusal) => Bytes::copy_of(alloc, refusal.name(alloc)?.as_str().as_bytes()),
    }
}

/// Each text is read, and written as what stands beside it, or refused by that name.
fn each_read(rt: &impl Abort, alloc: Global, table: &[(&[u8], &str)]) -> Result<(), Fail> {
    for &(bytes, want) in table {
        let told = read_and_written(alloc, bytes)?;
        assert_eq!(rt; told.as_slice(), want.as_bytes());
    }
    Ok(())
}

#[test]
fn reads_payloads(rt: HostRuntime) -> Result<(), Fail> {
    let alloc = rt.alloc();
    for &same in &[
        "{}",
        "{\"data\":{}}",
        "{\"data\":null}",
        "{\"hasNext\":false}",
        "{\"data\":{\"hero\":{\"id\":\"1\"}},\"hasNext\":true,\"pending\":[{\"id\":\"0\",\"label\":\"D\",\"path\":[\"hero\"]}]}",
        "{\"completed\":[{\"id\":\"0\"}],\"hasNext\":false,\"incremental\":[{\"data\":{},\"id\":\"0\"}]}",
        "{\"data\":{\"hero\":null},\"errors\":[{\"locations\":[{\"column\":4294967295,\"line\":1}],\"message\":\"bang\",\"path\":[\"hero\",4294967295]}]}",
        "{\"hasNext\":true,\"incremental\":[{\"data\":{\"a\":-5},\"id\":\"0\",\"subPath\":[\"hero\"]},{\"id\":\"1\",\"items\":[]}]}",
    ] {
        let text = read_and_written(alloc, same.as_bytes())?;
        assert_eq!(rt; text.as_slice(), same.as_bytes());
    }
    Ok(())
}

#[test]
fn reads_what_others_write(rt: HostRuntime) -> Result<(), Fail> {
    each_read(
        &rt,
        rt.alloc(),
        &[
            (
                b" {\"pending\":null, \"errors\":[],\n\"hasNext\":null,\"x\":[1.5],\"extensions\":{\"y\":-0}} ",
                "{}",
            ),
            (
                b"{\"hasNext\":true,\"data\":{\"a\":1,\"a\":2},\"hasNext\":false}",
                "{\"data\":{\"a\":2},\"hasNext\":false}",
            ),
            (
                b"{\"pending\":[{\"path\":[],\"label\":null,\"id\":\"0\",\"extensions\":1.5}]}",
                "{\"pending\":[{\"id\":\"0\",\"path\":[]}]}",
            ),
            (
                b"{\"errors\":[{\"message\":\"m\",\"locations\":null,\"path\":null},{\"message\":\"n\",\"locations\":[],\"path\":[]}]}",
                "{\"errors\":[{\"message\":\"m\"},{\"message\":\"n\",\"path\":[]}]}",
            ),
            (
                b"{\"errors\":[{\"message\":\"m\",\"locations\":[{\"line\":1,\"column\":2,\"z\":0},{\"line\":0}],\"extensions\":1e2}]}",
                "{\"errors\":[{\"locations\":[{\"column\":2,\"line\":1}],\"message\":\"m\"}]}",
            ),
            (
                b"{\"incremental\":[{\"id\":\"0\",\"items\":[1],\"errors\":null,\"subPath\":null}],\"completed\":[{\"id\":\"0\",\"errors\":[]}]}",
                "{\"completed\":[{\"id\":\"0\"}],\"incremental\":[{\"id\":\"0\",\"items\":[1]}]}",
            ),
        ],
    )
}

#[test]
fn refuses_what_is_no_object(rt: HostRuntime) -> Result<(), Fail> {
    each_read(
        &rt,
        rt.alloc(),
        &[
            (b"", "NotJson"),
            (b"\xff", "NotJson"),
            (b"{\"x\":\"\xff\"}", "NotJson"),
            (b"\xef\xbb\xbf{}", "NotJson"),
            (b"{\"x\":1e400}", "NotJson"),
            (b"{\"x\":\"\\ud800\"}", "NotJson"),
            (b"{} {}", "NotJson"),
            (b"[]", "NotAnObject"),
            (b"null", "NotAnObject"),
        ],
    )
}

#[test]
fn refuses_wrong_members_of_the_first_payload(rt: HostRuntime) -> Result<(), Fail> {
    each_read(
        &rt,
        rt.alloc(),
        &[
            (b"{\"data\":[],\"errors\":1}", "Wrong data"),
            (b"{\"data\":{\"a\":-0}}", "Wrong data"),
            (b"{\"data\":{\"a\":[1.0]}}", "Wrong data"),
            (b"{\"data\":{\"a\":9223372036854775808}}", "Wrong data"),
            (b"{\"errors\":{},\"hasNext\":1}", "Wrong errors"),
            (b"{\"errors\":[{\"message\":null}]}", "Wrong errors"),
            (
                b"{\"errors\":[{\"message\":\"m\",\"path\":[-1]}]}",
                "Wrong errors",
            ),
            (
                b"{\"errors\":[{\"message\":\"m\",\"path\":[4294967296]}]}",
                "Wrong errors",
            ),
            (
                b"{\"errors\":[{\"message\":\"m\",\"locations\":{}}]}",
                "Wrong errors",
            ),
            (
                b"{\"errors\":[{\"message\":\"m\",\"locations\":[{\"line\":1}]}]}",
                "Wrong errors",
            ),
            (
                b"{\"errors\":[{\"message\":\"m\",\"locations\":[{\"line\":0,\"column\":1}]}]}",
                "Wrong errors",
            ),
            (
                b"{\"errors\":[{\"message\":\"m\",\"locations\":[{\"line\":1.0,\"column\":1}]}]}",
                "Wrong errors",
            ),
        ],
    )
}

#[test]
fn refuses_wrong_members_of_every_payload(rt: HostRuntime) -> Result<(), Fail> {
    each_read(
        &rt,
        rt.alloc(),
        &[
            (b"{\"pending\":1,\"completed\":{}}", "Wrong completed"),
            (b"{\"completed\":[{}]}", "Wrong completed"),
            (b"{\"completed\":[{\"id\":0}]}", "Wrong completed"),
            (
                b"{\"completed\":[{\"id\":\"0\",\"errors\":[1]}]}",
                "Wrong completed",
            ),
            (b"{\"hasNext\":0,\"incremental\":0}", "Wrong hasNext"),
            (b"{\"pending\":[{\"id\":\"0\"}]}", "Wrong pending"),
            (
                b"{\"pending\":[{\"id\":\"0\",\"path\":[],\"label\":5}]}",
                "Wrong pending",
            ),
        ],
    )
}

#[test]
fn refuses_wrong_entries(rt: HostRuntime) -> Result<(), Fail> {
    each_read(
        &rt,
        rt.alloc(),
        &[
            (b"{\"incremental\":{},\"pending\":0}", "Wrong incremental"),
            (b"{\"incremental\":[{\"id\":\"0\"}]}", "Wrong incremental"),
            (
                b"{\"incremental\":[{\"id\":\"0\",\"data\":null}]}",
                "Wrong incremental",
            ),
            (
                b"{\"incremental\":[{\"id\":\"0\",\"data\":{},\"items\":[]}]}",
                "Wrong incremental",
            ),
            (
                b"{\"incremental\":[{\"id\":\"0\",\"items\":[0.5]}]}",
                "Wrong incremental",
            ),
            (
                b"{\"incremental\":[{\"id\":\"0\",\"data\":{},\"subPath\":[null]}]}",
                "Wrong incremental",
            ),
        ],
    )
}

/// An object with an unknown member: a list in a list, and so on, so many deep.
fn nested(alloc: Global, lists: u32) -> Result<String, Fail> {
    let mut text = String::from_str(alloc, "{\"x\":")?;
    for _ in 0..lists {
        text.push_str("[")?;
    }
    for _ in 0..lists {
        text.push_str("]")?;
    }
    text.push_str("}")?;
    Ok(text)
}

#[test]
fn nests_at_most_127_deep(rt: HostRuntime) -> Result<(), Fail> {
    let alloc = rt.alloc();
    for &(lists, want) in &[(126, "{}"), (127, "NotJson")] {
        let text = nested(alloc, lists)?;
        let told = read_and_written(alloc, text.as_str().as_bytes())?;
        assert_eq!(rt; told.as_slice(), want.as_bytes());
    }
    Ok(())
}
