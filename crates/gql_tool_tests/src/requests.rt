//! The command `local`, and the words of command lines.

use crate::running::{NO_FAULT, NOT_BUILT, SCHEMA, files, joined, no_input, run};
use gql_io::{MemoryShelf, SinkFault};
use gql_tree::NoMemory;
use std::alloc::Global;
use std::test::Fail;

const NOT_UTF8: &str =
    "1|0|---\r\nContent-Type: application/json; charset=utf-8\r\n\r\n{\"errors\":[{\"message\":\"Document is not UTF-8\"}]}\r\n-----\r\n";

const TOO_LONG: &str =
    "1|0|---\r\nContent-Type: application/json; charset=utf-8\r\n\r\n{\"errors\":[{\"message\":\"Syntax: TooLong\"}]}\r\n-----\r\n";

const TABLES: &[u8] =
    b"{\"Query\":[{\"@id\":\"q\",\"hero\":{\"ref\":\"1\"}}],\"Person\":[{\"@id\":\"1\",\"id\":\"1\",\"name\":\"Luke\",\"boom\":{\"error\":\"bang\"}}]}";

const LATE_NAME: &[u8] = b"{ hero { id ... @defer(label:\"D\") { name } } }";

/// Two parts, of 153 and 152 bytes, which the client is fed 7 bytes at a time, and the merged line.
const LATE_NAME_ANSWER: &str =
    "0|44|---\r\nContent-Type: application/json; charset=utf-8\r\n\r\n{\"data\":{\"hero\":{\"id\":\"1\"}},\"hasNext\":true,\"pending\":[{\"id\":\"0\",\"label\":\"D\",\"path\":[\"hero\"]}]}\r\n---\r\nContent-Type: application/json; charset=utf-8\r\n\r\n{\"completed\":[{\"id\":\"0\"}],\"hasNext\":false,\"incremental\":[{\"data\":{\"name\":\"Luke\"},\"id\":\"0\"}]}\r\n-----\r\nmerged {\"data\":{\"hero\":{\"id\":\"1\",\"name\":\"Luke\"}},\"errors\":[],\"failures\":[]}\n";

/// What is told of a command line over three files, where a call of the shelf and one of the sink fail.
fn ended(alloc: Global, line: &str, read_fails: u64, put_fails: u64) -> Result<String, Fail> {
    let files = files(alloc, b"type Query { hero: Int }\n", b"{}", b"{ hero }")?;
    let shelf = MemoryShelf::new(files, vec![in alloc; read_fails]?);
    let fault = SinkFault {
        call: put_fails,
        taken: 3,
    };
    run(alloc, line, shelf, no_input(alloc), fault)?.told(alloc)
}

#[test]
fn which_command_lines_are_none(rt: HostRuntime) -> Result<(), Fail> {
    let alloc = rt.alloc();
    for &line in &[
        "",
        " ",
        "local",
        "remote s t d - 0 7",
        "local s t d - 0 7 8",
        "replay",
        "replay - -",
        "local s t d - 0 0",
        "local s t d - 0 07",
        "local s t d - 0 1048577",
        "local s t d - 1 7",
        "local s t d - 00 7",
    ] {
        assert_eq!(rt; ended(alloc, line, 9, 9)?.as_str(), "2|0|", "{line}");
    }
    Ok(())
}

#[test]
fn how_each_command_line_ends(rt: HostRuntime) -> Result<(), Fail> {
    let alloc = rt.alloc();
    // A command line, the calls of the shelf and of the sink that fail, and what is told.
    for &(line, read_fails, put_fails, told) in &[
        ("local s t d - 0 7", 9, 9, NOT_BUILT),
        ("local s t d - 0 1048576", 9, 9, NOT_BUILT),
        ("local s t x - 0 7", 9, 9, "7|0|no such file: x\n"),
        ("local y x d - 0 7", 9, 9, "7|0|no such file: y\n"),
        ("local s t d - 0 7", 0, 9, "3|0|"),
        ("local s t d - 0 7", 2, 9, "3|0|"),
        ("local s t d - 0 7", 9, 0, "4|0|---"),
        ("local s t x - 0 7", 9, 1, "4|0|no such file: x"),
    ] {
        let ended = ended(alloc, line, read_fails, put_fails)?;
        assert_eq!(rt; ended.as_str(), told, "{line}");
    }
    Ok(())
}

/// What is told of a command line and a document over the tables above, where this call of the sink fails.
fn answered(alloc: Global, line: &str, document: &[u8], fault: SinkFault) -> Result<String, Fail> {
    let shelf = MemoryShelf::new(files(alloc, SCHEMA, TABLES, document)?, Vec::new(alloc));
    run(alloc, line, shelf, no_input(alloc), fault)?.told(alloc)
}

#[test]
fn what_each_document_is_answered(rt: HostRuntime) -> Result<(), Fail> {
    let alloc = rt.alloc();
    for &(document, told) in &[
        (LATE_NAME, LATE_NAME_ANSWER),
        (
            b"{ hero { id } }",
            "0|13|---\r\nContent-Type: application/json; charset=utf-8\r\n\r\n{\"data\":{\"hero\":{\"id\":\"1\"}}}\r\n-----\r\nmerged {\"data\":{\"hero\":{\"id\":\"1\"}},\"errors\":[],\"failures\":[]}\n",
        ),
        (
            b"{ hero { id boom ... @defer { name } } }",
            "0|25|---\r\nContent-Type: application/json; charset=utf-8\r\n\r\n{\"data\":{\"hero\":null},\"errors\":[{\"locations\":[{\"column\":13,\"line\":1}],\"message\":\"bang\",\"path\":[\"hero\",\"boom\"]}]}\r\n-----\r\nmerged {\"data\":{\"hero\":null},\"errors\":[{\"locations\":[{\"column\":13,\"line\":1}],\"message\":\"bang\",\"path\":[\"hero\",\"boom\"]}],\"failures\":[]}\n",
        ),
        (
            b"{ hero { id ... @defer { boom } } }",
            "0|49|---\r\nContent-Type: application/json; charset=utf-8\r\n\r\n{\"data\":{\"hero\":{\"id\":\"1\"}},\"hasNext\":true,\"pending\":[{\"id\":\"0\",\"path\":[\"hero\"]}]}\r\n---\r\nContent-Type: application/json; charset=utf-8\r\n\r\n{\"completed\":[{\"errors\":[{\"locations\":[{\"column\":26,\"line\":1}],\"message\":\"bang\",\"path\":[\"hero\",\"boom\"]}],\"id\":\"0\"}],\"hasNext\":false}\r\n-----\r\nmerged {\"data\":{\"hero\":{\"id\":\"1\"}},\"errors\":[],\"failures\":[{\"errors\":[{\"locations\":[{\"column\":26,\"line\":1}],\"message\":\"bang\",\"path\":[\"hero\",\"boom\"]}],\"path\":[\"hero\"]}]}\n",
        ),
        (
            b"query\n{\thero, { boom } }",
            "0|25|---\r\nContent-Type: application/json; charset=utf-8\r\n\r\n{\"data\":{\"hero\":null},\"errors\":[{\"locations\":[{\"column\":11,\"line\":2}],\"message\":\"bang\",\"path\":[\"hero\",\"boom\"]}]}\r\n-----\r\nmerged {\"data\":{\"hero\":null},\"errors\":[{\"locations\":[{\"column\":11,\"line\":2}],\"message\":\"bang\",\"path\":[\"hero\",\"boom\"]}],\"failures\":[]}\n",
        ),
        (
            b"{ hero { id ... @defer(label: \"\\\"\\u00e9\") { age } } }",
            "0|45|---\r\nContent-Type: application/json; charset=utf-8\r\n\r\n{\"data\":{\"hero\":{\"id\":\"1\"}},\"hasNext\":true,\"pending\":[{\"id\":\"0\",\"label\":\"\\\"é\",\"path\":[\"hero\"]}]}\r\n---\r\nContent-Type: application/json; charset=utf-8\r\n\r\n{\"completed\":[{\"id\":\"0\"}],\"hasNext\":false,\"incremental\":[{\"data\":{\"age\":null},\"id\":\"0\"}]}\r\n-----\r\nmerged {\"data\":{\"hero\":{\"age\":null,\"id\":\"1\"}},\"errors\":[],\"failures\":[]}\n",
        ),
        (b"\xff", NOT_UTF8),
    ] {
        let answered = answered(alloc, "local s t d - 0 7", document, NO_FAULT)?;
        assert_eq!(rt; answered.as_str(), told);
    }
    Ok(())
}

#[test]
fn which_documents_are_not_built(rt: HostRuntime) -> Result<(), Fail> {
    let alloc = rt.alloc();
    for &document in &[
        "{ hero }",
        "{ crew { id } }",
        "{ hero { idname } }",
        "{ hero { id id } }",
        "{ hero { friends { id } } }",
        "{ hero { me: id } }",
        "{ hero { id(x: 1) } }",
        "{ hero { id @skip(if: true) } }",
        "{ person: hero { id } }",
        "{ hero { id } hero { name } }",
        "query Q { hero { id } }",
        "query ($x: Int) { hero { id } }",
        "query @q { hero { id } }",
        "mutation { hero { id } }",
        "{ hero { id } } fragment F on Person { id }",
        "{ hero { id ...F } }",
        "{ hero { id ... { name } } }",
        "{ hero { id ... on Person @defer { name } } }",
        "{ hero { id ... @defer @defer { name } } }",
        "{ hero { id ... @defer(if: true) { name } } }",
        "{ hero { id ... @defer(label: D) { name } } }",
        "{ hero { id ... @defer(label: \"D\", if: true) { name } } }",
        "{ hero { id ... @defer { id } } }",
        "{ hero { id ... @defer { ... @defer { name } } } }",
        "{ hero { id ... @defer { name } age } }",
        "{ hero { id ... @defer { name } ... @defer { age } } }",
        "{ hero { ... @defer { id } } }",
        "{ ... @defer { hero { id } } }",
    ] {
        let told = answered(alloc, "local s t d - 0 7", document.as_bytes(), NO_FAULT)?;
        assert_eq!(rt; told.as_str(), NOT_BUILT, "{document}");
    }
    Ok(())
}

/// What is told of a refusal at a place, up to the column.
const REFUSAL_FRONT: &str =
    "1|0|---\r\nContent-Type: application/json; charset=utf-8\r\n\r\n{\"errors\":[{\"locations\":[{\"column\":";

/// What is told of a refusal at a place.
fn refusal(alloc: Global, name: &str, line: u32, column: u32) -> Result<String, NoMemory> {
    let column = format!(in alloc; "{column}")?;
    let line = format!(in alloc; "{line}")?;
    joined(
        alloc,
        &[
            REFUSAL_FRONT,
            column.as_str(),
            ",\"line\":",
            line.as_str(),
            "}],\"message\":\"Syntax: ",
            name,
            "\"}]}\r\n-----\r\n",
        ],
    )
}

#[test]
fn where_a_text_is_no_document(rt: HostRuntime) -> Result<(), Fail> {
    let alloc = rt.alloc();
    for &(document, name, line, column) in &[
        ("", "Unexpected", 1, 1),
        ("{ hero {", "Unexpected", 1, 9),
        ("{ hero { } }", "Unexpected", 1, 10),
        (
            "{\n hero { id ... @defer() { name } } }",
            "Unexpected",
            2,
            23,
        ),
        ("{ hero { id } } x", "Unexpected", 1, 17),
        ("{ hero { id(x:1.5) } }", "FloatToken", 1, 15),
        ("{ hero { id .. } }", "BadCharacter", 1, 13),
        ("{ hero(x:\"a\\q\") { id } }", "BadEscape", 1, 12),
        ("{ hero(x:\"a", "OpenString", 1, 10),
        ("{ hero(x:-) { id } }", "BadNumber", 1, 10),
    ] {
        let told = answered(alloc, "local s t d - 0 7", document.as_bytes(), NO_FAULT)?;
        let want = refusal(alloc, name, line, column)?;
        assert_eq!(rt; told.as_str(), want.as_str(), "{document}");
    }
    Ok(())
}

#[test]
fn how_deep_and_how_long_a_document_is(rt: HostRuntime) -> Result<(), Fail> {
    let alloc = rt.alloc();
    let deep = refusal(alloc, "TooDeep", 1, 257)?;
    for &(depth, want) in &[(128, NOT_BUILT), (129, deep.as_str())] {
        let mut document = "{a".repeat(alloc, depth)?;
        let closing = "}".repeat(alloc, depth)?;
        document.push_str(closing.as_str())?;
        let told = answered(alloc, "local s t d - 0 7", document.as_bytes(), NO_FAULT)?;
        assert_eq!(rt; told.as_str(), want);
    }
    let long = "{".repeat(alloc, 1_048_577)?;
    let told = answered(alloc, "local s t d - 0 7", long.as_bytes(), NO_FAULT)?;
    assert_eq!(rt; told.as_str(), TOO_LONG);
    Ok(())
}

#[test]
fn how_often_the_client_is_fed(rt: HostRuntime) -> Result<(), Fail> {
    let alloc = rt.alloc();
    let (_, answer) = LATE_NAME_ANSWER.split_at(5);
    // Each piece is cut by itself, so that 153 and 152 bytes make 22 cuts of 7 bytes each.
    for &(line, front) in &[
        ("local s t d - 0 1", "0|305|---"),
        ("local s t d - 0 2", "0|153|---"),
        ("local s t d - 0 3", "0|102|---"),
        ("local s t d - 0 7", "0|44|---"),
        ("local s t d - 0 1048576", "0|2|---"),
    ] {
        let told = answered(alloc, line, LATE_NAME, NO_FAULT)?;
        assert!(rt; told.starts_with(front), "{line}");
        assert!(rt; told.ends_with(answer), "{line}");
    }
    Ok(())
}

#[test]
fn what_stops_an_answer(rt: HostRuntime) -> Result<(), Fail> {
    let alloc = rt.alloc();
    // The call of the sink that fails and the bytes that it takes, what is told before the output, and how many bytes
    // of the answer are written.
    for &(call, taken, before, length) in &[
        (0, 0, "4|0|", 0),
        (1, 10, "4|22|", 163),
        (2, 9, "4|44|", 314),
    ] {
        let told = answered(
            alloc,
            "local s t d - 0 7",
            LATE_NAME,
            SinkFault { call, taken },
        )?;
        let (_, answer) = LATE_NAME_ANSWER.split_at(5);
        let (written, _) = answer.split_at(length);
        let want = joined(alloc, &[before, written])?;
        assert_eq!(rt; told.as_str(), want.as_str());
    }
    let told = answered(alloc, "local s t d v 0 7", LATE_NAME, NO_FAULT)?;
    assert_eq!(rt; told.as_str(), NOT_BUILT);
    Ok(())
}
