//! The command `replay`: bodies, with the status and what is written.

use crate::running::{NO_FAULT, run};
use gql_io::{MemoryShelf, MemorySource};
use gql_multipart::frame;
use std::alloc::Global;
use std::process::Abort;
use std::test::Fail;

const ANNOUNCED: &str =
    "{\"data\":{\"hero\":{\"id\":\"1\"}},\"hasNext\":true,\"pending\":[{\"id\":\"0\",\"label\":\"D\",\"path\":[\"hero\"]}]}";

const DELIVERED: &str =
    "{\"completed\":[{\"id\":\"0\"}],\"hasNext\":false,\"incremental\":[{\"data\":{\"name\":\"Luke\"},\"id\":\"0\"}]}";

const FIRST: &str = "{\"data\":{\"hero\":{\"id\":\"1\"}},\"errors\":[],\"failures\":[]}";

const WHOLE: &str =
    "{\"data\":{\"hero\":{\"id\":\"1\",\"name\":\"Luke\"}},\"errors\":[],\"failures\":[]}";

/// The body of texts.
fn body(alloc: Global, texts: &[&str]) -> Result<Vec<u8>, Fail> {
    let mut bytes = Vec::new(alloc);
    let mut left = texts.len();
    for text in texts {
        let first = left == texts.len();
        left = left.saturating_sub(1);
        let piece = frame(alloc, text.as_bytes(), first, left == 0)?;
        bytes.extend_from_slice(piece.as_slice())?;
    }
    Ok(bytes)
}

/// What is told of the replay of bytes, of which each call of the input gives `step`, and this call fails.
fn replayed(
    alloc: Global,
    line: &str,
    bytes: &[u8],
    step: usize,
    fails: u64,
) -> Result<String, Fail> {
    let shelf = MemoryShelf::new(Vec::new(alloc), Vec::new(alloc));
    let mut held = Vec::new(alloc);
    held.extend_from_slice(bytes)?;
    let input = MemorySource::new(held, step, vec![in alloc; fails]?);
    run(alloc, line, shelf, input, NO_FAULT)?.told(alloc)
}

/// The same of a body, where no call fails.
fn told(alloc: Global, bytes: &[u8], step: usize) -> Result<String, Fail> {
    replayed(alloc, "replay -", bytes, step, 999_999)
}

/// What is told of a body that is taken, or refused for a reason.
fn expected(alloc: Global, reason: &str, report: &str) -> Result<String, Fail> {
    if reason == "taken" {
        return Ok(format!(in alloc; "0|0|merged {report}\n")?);
    }
    Ok(format!(in alloc; "6|0|refused {reason}\nmerged {report}\n")?)
}

/// The replay of these texts is taken, or refused for a reason, with this report.
fn is_replayed(
    rt: &impl Abort,
    alloc: Global,
    texts: &[&str],
    step: usize,
    reason: &str,
    report: &str,
) -> Result<(), Fail> {
    let bytes = body(alloc, texts)?;
    let want = expected(alloc, reason, report)?;
    assert_eq!(rt;
        told(alloc, bytes.as_slice(), step)?.as_str(),
        want.as_str()
    );
    Ok(())
}

#[test]
fn second_payloads(rt: HostRuntime) -> Result<(), Fail> {
    let alloc = rt.alloc();
    for &(second, reason, report) in &[
        (DELIVERED, "taken", WHOLE),
        (
            "{\"hasNext\":false,\"incremental\":[{\"data\":{\"name\":\"X\"},\"id\":\"9\"}]}",
            "payload 1: UnknownId",
            FIRST,
        ),
        (
            "{\"completed\":[{\"id\":\"0\"},{\"id\":\"0\"}],\"hasNext\":false}",
            "payload 1: UnknownId",
            FIRST,
        ),
        (
            "{\"hasNext\":true,\"pending\":[{\"id\":\"0\",\"path\":[]}]}",
            "payload 1: IdTwice",
            FIRST,
        ),
        (
            "{\"hasNext\":true,\"incremental\":[{\"data\":{\"id\":\"2\"},\"id\":\"0\"}]}",
            "payload 1: Clash",
            FIRST,
        ),
        (
            "{\"hasNext\":true,\"incremental\":[{\"data\":{},\"id\":\"0\",\"subPath\":[\"x\"]}]}",
            "payload 1: NoSuchPlace",
            FIRST,
        ),
        (
            "{\"hasNext\":true,\"incremental\":[{\"id\":\"0\",\"items\":[]}]}",
            "payload 1: NotAList",
            FIRST,
        ),
        ("{\"hasNext\":false}", "payload 1: OpenAtEnd", FIRST),
        (
            "{\"data\":{},\"hasNext\":true}",
            "payload 1: BadInitial",
            FIRST,
        ),
        ("[]", "payload 1: NotAnObject", FIRST),
        ("{\"hasNext\":1}", "payload 1: Wrong hasNext", FIRST),
        ("{", "payload 1: NotJson", FIRST),
        ("{\"hasNext\":true}", "end: NotFinished", FIRST),
    ] {
        is_replayed(&rt, alloc, &[ANNOUNCED, second], 7, reason, report)?;
    }
    Ok(())
}

/// Lists in lists, one deeper than a text may be.
const DEEP: &str =
    "[[[[[[[[[[[[[[[[[[[[[[[[[[[[[[[[[[[[[[[[[[[[[[[[[[[[[[[[[[[[[[[[[[[[[[[[[[[[[[[[[[[[[[[[[[[[[[[[[[[[[[[[[[[[[[[[[[[[[[[[[[[[[[[[]]]]]]]]]]]]]]]]]]]]]]]]]]]]]]]]]]]]]]]]]]]]]]]]]]]]]]]]]]]]]]]]]]]]]]]]]]]]]]]]]]]]]]]]]]]]]]]]]]]]]]]]]]]]]]]]]]]]]]]]]]]]]]]]";

const NULL: &str = "{\"data\":null,\"hasNext\":true,\"pending\":[{\"id\":\"0\",\"path\":[]}]}";

#[test]
fn first_payloads(rt: HostRuntime) -> Result<(), Fail> {
    let alloc = rt.alloc();
    for &(text, reason, report) in &[
        ("{\"hasNext\":true}", "payload 0: BadInitial", "none"),
        (
            "{\"data\":{},\"hasNext\":true,\"pending\":[{\"id\":\"0\",\"path\":[]},{\"id\":\"0\",\"path\":[]}]}",
            "payload 0: IdTwice",
            "none",
        ),
        (DEEP, "payload 0: NotJson", "none"),
        (
            "{\"errors\":[{\"message\":\"x\"}]}",
            "taken",
            "{\"data\":null,\"errors\":[{\"message\":\"x\"}],\"failures\":[]}",
        ),
    ] {
        is_replayed(&rt, alloc, &[text], 1_048_576, reason, report)?;
    }
    Ok(())
}

#[test]
fn an_entry_below_null(rt: HostRuntime) -> Result<(), Fail> {
    let alloc = rt.alloc();
    let entry = "{\"hasNext\":true,\"incremental\":[{\"data\":{},\"id\":\"0\"}]}";
    is_replayed(
        &rt,
        alloc,
        &[NULL, entry],
        1_048_576,
        "payload 1: NoSuchPlace",
        "{\"data\":null,\"errors\":[],\"failures\":[]}",
    )
}

#[test]
fn third_payloads(rt: HostRuntime) -> Result<(), Fail> {
    let alloc = rt.alloc();
    let ended = "{\"completed\":[{\"id\":\"0\"}],\"hasNext\":true}";
    for &(second, reason, report) in &[
        (DELIVERED, "payload 2: AfterEnd", WHOLE),
        (ended, "payload 2: UnknownId", FIRST),
    ] {
        let texts = [ANNOUNCED, second, DELIVERED];
        is_replayed(&rt, alloc, &texts, 1_048_576, reason, report)?;
    }
    Ok(())
}

#[test]
fn fronts_and_cuttings(rt: HostRuntime) -> Result<(), Fail> {
    let alloc = rt.alloc();
    let bytes = body(alloc, &[ANNOUNCED, DELIVERED])?;
    assert_eq!(rt; bytes.len(), 305);
    for &(length, reason, report) in &[
        (0, "end: Truncated", "none"),
        (153, "end: Truncated", FIRST),
        (302, "end: Truncated", WHOLE),
        (303, "taken", WHOLE),
        (304, "taken", WHOLE),
        (305, "taken", WHOLE),
    ] {
        let want = expected(alloc, reason, report)?;
        for &cut in &[1, 2, 7, 1_048_576] {
            assert_eq!(rt;
                told(alloc, &bytes[..length.min(bytes.len())], cut)?.as_str(),
                want.as_str()
            );
        }
    }
    Ok(())
}

#[test]
fn another_byte_behind_the_last_mark(rt: HostRuntime) -> Result<(), Fail> {
    let alloc = rt.alloc();
    let mut bytes = body(alloc, &[ANNOUNCED, DELIVERED])?;
    assert_eq!(rt; bytes.len(), 305);
    bytes[301] = b'x';
    let want = expected(alloc, "byte 302: BadDelimiter", WHOLE)?;
    assert_eq!(rt; told(alloc, bytes.as_slice(), 7)?.as_str(), want.as_str());
    Ok(())
}

#[test]
fn every_front_of_three_parts(rt: HostRuntime) -> Result<(), Fail> {
    let alloc = rt.alloc();
    let bytes = body(
        alloc,
        &[
            "{\"data\":{\"hero\":{\"id\":\"1\"}},\"hasNext\":true,\"pending\":[{\"id\":\"0\",\"label\":\"A\",\"path\":[\"hero\"]},{\"id\":\"1\",\"label\":\"B\",\"path\":[\"hero\"]}]}",
            "{\"completed\":[{\"errors\":[{\"locations\":[{\"column\":41,\"line\":1}],\"message\":\"bang\",\"path\":[\"hero\",\"boom\"]}],\"id\":\"0\"}],\"hasNext\":true}",
            "{\"completed\":[{\"id\":\"1\"}],\"hasNext\":false,\"incremental\":[{\"data\":{\"name\":\"Luke\"},\"id\":\"1\"},{\"data\":{\"age\":20},\"id\":\"1\"}]}",
        ],
    )?;
    let last = bytes.len().saturating_sub(2);
    for length in 0..=bytes.len() {
        let told = told(alloc, &bytes[..length], 64)?;
        let front = if length < last {
            "6|0|refused end: Truncated\n"
        } else {
            "0|0|merged "
        };
        assert!(rt; told.starts_with(front), "{length}");
    }
    assert!(rt;
        told(alloc, bytes.as_slice(), 64)?.ends_with(
            "\"errors\":[],\"failures\":[{\"errors\":[{\"locations\":[{\"column\":41,\"line\":1}],\"message\":\"bang\",\"path\":[\"hero\",\"boom\"]}],\"label\":\"A\",\"path\":[\"hero\"]}]}\n"
        )
    );
    Ok(())
}

#[test]
fn what_is_replayed(rt: HostRuntime) -> Result<(), Fail> {
    let alloc = rt.alloc();
    // A command line, an input, and what is told.
    for &(line, bytes, told) in &[
        (
            "replay ",
            "",
            "6|0|refused byte 0: BadBoundary\nmerged none\n",
        ),
        (
            "replay -",
            "-----",
            "6|0|refused byte 4: BadDelimiter\nmerged none\n",
        ),
        (
            "replay -",
            "---\n",
            "6|0|refused byte 4: BadDelimiter\nmerged none\n",
        ),
        (
            "replay -",
            "---\r\nContent\r\n",
            "6|0|refused byte 13: BadHeader\nmerged none\n",
        ),
        (
            "replay -",
            "---\r\n\r\n{\"data\":{}}\r\n-----",
            "0|0|merged {\"data\":{},\"errors\":[],\"failures\":[]}\n",
        ),
        (
            "replay -",
            "---\r\n\r\n{\r\n---",
            "6|0|refused payload 0: NotJson\nmerged none\n",
        ),
        (
            "replay -",
            "x\r\n---\r\n\r\n{\"pending\":[{\"path\":[\"hero\"],\"id\":\"7\"}],\"hasNext\":true,\"data\":{\"hero\":{}},\"extensions\":{}}\r\n---\r\n\r\n{\"hasNext\":true,\"incremental\":[{\"id\":\"7\",\"data\":{\"age\":20}}],\"completed\":[{\"id\":\"7\"}]}\r\n---\r\n\r\n{\"hasNext\":false}\r\n-----\r\n",
            "0|0|merged {\"data\":{\"hero\":{\"age\":20}},\"errors\":[],\"failures\":[]}\n",
        ),
    ] {
        let replayed = replayed(alloc, line, bytes.as_bytes(), 9, 999)?;
        assert_eq!(rt; replayed.as_str(), told);
    }
    Ok(())
}

#[test]
fn what_stops_a_replay(rt: HostRuntime) -> Result<(), Fail> {
    let alloc = rt.alloc();
    // The call of the input that fails.
    for &fails in &[0, 1] {
        let replayed = replayed(
            alloc,
            "replay -",
            b"---\r\n\r\n{\"data\":{}}\r\n-----",
            9,
            fails,
        )?;
        assert_eq!(rt; replayed.as_str(), "3|0|");
    }
    Ok(())
}

/// A list of a thousand objects with an id and this member.
fn thousand(alloc: Global, member: &str) -> Result<String, Fail> {
    let mut list = String::new(alloc);
    for id in 0..1000 {
        let comma = if id == 0 { "" } else { "," };
        let item = format!(in alloc; "{comma}{{\"id\":\"{id}\"{member}}}")?;
        list.push_str(item.as_str())?;
    }
    Ok(list)
}

#[test]
fn a_thousand_open_ids(rt: HostRuntime) -> Result<(), Fail> {
    let alloc = rt.alloc();
    let pending = thousand(alloc, ",\"path\":[]")?;
    let completed = thousand(alloc, "")?;
    let first = format!(in alloc; "{{\"data\":{{}},\"hasNext\":true,\"pending\":[{pending}]}}")?;
    let last = format!(in alloc; "{{\"completed\":[{completed}],\"hasNext\":false}}")?;
    let merged = "{\"data\":{},\"errors\":[],\"failures\":[]}";
    for &(second, reason) in &[
        (last.as_str(), "taken"),
        ("{\"hasNext\":false}", "payload 1: OpenAtEnd"),
        ("{\"hasNext\":true}", "end: NotFinished"),
    ] {
        let texts = [first.as_str(), second];
        is_replayed(&rt, alloc, &texts, 65_536, reason, merged)?;
    }
    Ok(())
}

#[test]
fn a_preamble_without_end(rt: HostRuntime) -> Result<(), Fail> {
    let alloc = rt.alloc();
    let bytes = vec![in alloc; b'x'; 40_000]?;
    assert_eq!(rt;
        told(alloc, bytes.as_slice(), 4096)?.as_str(),
        "6|0|refused byte 16383: BadPreamble\nmerged none\n"
    );
    Ok(())
}
