//! Pieces and bodies that are written out by hand.

use gql_multipart::{FrameKind, FrameRefusal, Reader, Step, frame};
use std::alloc::Global;
use std::test::Fail;

const ANNOUNCED: &str =
    "{\"data\":{\"hero\":{\"id\":\"1\"}},\"hasNext\":true,\"pending\":[{\"id\":\"0\",\"label\":\"D\",\"path\":[\"hero\"]}]}";

const DELIVERED: &str =
    "{\"completed\":[{\"id\":\"0\"}],\"hasNext\":false,\"incremental\":[{\"data\":{\"name\":\"Luke\"},\"id\":\"0\"}]}";

#[test]
fn frames_one_text(rt: HostRuntime) -> Result<(), Fail> {
    let alloc = rt.alloc();
    let table: [(bool, bool, &str); 4] = [
        (
            true,
            true,
            "---\r\nContent-Type: application/json; charset=utf-8\r\n\r\n{}\r\n-----\r\n",
        ),
        (
            true,
            false,
            "---\r\nContent-Type: application/json; charset=utf-8\r\n\r\n{}\r\n---",
        ),
        (
            false,
            true,
            "\r\nContent-Type: application/json; charset=utf-8\r\n\r\n{}\r\n-----\r\n",
        ),
        (
            false,
            false,
            "\r\nContent-Type: application/json; charset=utf-8\r\n\r\n{}\r\n---",
        ),
    ];
    for &(first, last, want) in &table {
        let bytes = frame(alloc, b"{}", first, last)?;
        assert_eq!(rt; bytes.as_slice(), want.as_bytes());
    }
    Ok(())
}

/// What a reader says of these bytes: each part in brackets, and then why there is no further one.
fn told(alloc: Global, boundary: &str, bytes: &[u8]) -> Result<Vec<u8>, Fail> {
    let mut reader = Reader::new(alloc, boundary)?;
    reader.feed(bytes)?;
    spoken(alloc, reader)
}

fn spoken(alloc: Global, mut reader: Reader) -> Result<Vec<u8>, Fail> {
    let mut said = Vec::new(alloc);
    for _ in 0..9 {
        match reader.next_part() {
            Ok(Step::Part(content)) => {
                said.push(b'[')?;
                said.extend_from_slice(content)?;
                said.push(b']')?;
            }
            Ok(Step::More) => {
                said.extend_from_slice(b"more")?;
                return Ok(said);
            }
            Ok(Step::Ended) => {
                said.extend_from_slice(b"ended")?;
                return Ok(said);
            }
            Err(refusal) => {
                said.extend_from_slice(refused(alloc, refusal)?.as_bytes())?;
                return Ok(said);
            }
        }
    }
    Ok(said)
}

fn refused(alloc: Global, refusal: FrameRefusal) -> Result<String, Fail> {
    match refusal {
        FrameRefusal::At { kind, byte } => Ok(format!(in alloc; "{} {byte}", kind.name())?),
        FrameRefusal::NoMemory => Ok(format!(in alloc; "NoMemory")?),
    }
}

/// So many bytes between a front and a back.
fn filled(alloc: Global, front: &str, byte: u8, count: usize, back: &str) -> Result<Vec<u8>, Fail> {
    let mut bytes = Vec::new(alloc);
    bytes.extend_from_slice(front.as_bytes())?;
    for _ in 0..count {
        bytes.push(byte)?;
    }
    bytes.extend_from_slice(back.as_bytes())?;
    Ok(bytes)
}

#[test]
fn reads_edges(rt: HostRuntime) -> Result<(), Fail> {
    let alloc = rt.alloc();
    let table: [(&str, &str, &str); 24] = [
        ("-", "", "more"),
        ("-", "-----", "BadDelimiter 4"),
        ("-", "---\n", "BadDelimiter 4"),
        ("-", "---\r\nContent\r\n", "BadHeader 13"),
        (
            "-",
            "---\r\n\r\n{\"data\":{}}\r\n-----",
            "[{\"data\":{}}]ended",
        ),
        ("-", "x---", "more"),
        ("-", "x\r\n---\r\nA: b\r\n\r\nx\r\n---", "[x]more"),
        ("-", "---\r\n\r\n---", "[]more"),
        ("-", "---\r\n\r\n\r\n---", "[]more"),
        ("-", "---\r\n\r\nx---\r\n--", "more"),
        ("-", "---\r\n\r\nx\r\n-----any", "[x]ended"),
        ("-", "---\r\n\r\nx\r\n----", "[x]more"),
        ("-", "---\r\n\r\nx\r\n----y", "[x]BadDelimiter 15"),
        ("-", "---\r\n\r\nx\r\n--- -", "[x]BadDelimiter 15"),
        (
            "-",
            "---\r\n\r\nx\r\n---\t \r\n\r\n\r\n\r\n---",
            "[x][\r\n]more",
        ),
        ("-", "---\r\n---", "BadHeader 8"),
        ("-", "---\r\n\rx", "BadHeader 7"),
        ("-", "---\r\nA:\0", "BadHeader 8"),
        ("-", "---\r\n: b", "BadHeader 6"),
        (":", "--:\r\n--:", "BadHeader 8"),
        (":", "--:\r\n--a:", "more"),
        ("a b", "--a b\r\n\r\nx\r\n--a b--", "[x]ended"),
        ("a", "--a\r\n\r\nx\r\n--ab", "[x]BadDelimiter 14"),
        ("a", "--a\r\n\r\nx\r\n--b", "more"),
    ];
    for &(boundary, bytes, want) in &table {
        let said = told(alloc, boundary, bytes.as_bytes())?;
        assert_eq!(rt; said.as_slice(), want.as_bytes(), "at {bytes}");
    }
    Ok(())
}

#[test]
fn refuses_boundaries(rt: HostRuntime) -> Result<(), Fail> {
    let alloc = rt.alloc();
    let long = "abcdefghijklmnopqrstuvwxyzABCDEFGHIJKLMNOPQRSTUVWXYZ0123456789'()+_,-.";
    let longer = "abcdefghijklmnopqrstuvwxyzABCDEFGHIJKLMNOPQRSTUVWXYZ0123456789'()+_,-./";
    let table: [(&str, bool); 7] = [
        ("", false),
        ("-", true),
        ("a ", false),
        (" a:=?/", true),
        ("a*", false),
        (long, true),
        (longer, false),
    ];
    for &(boundary, want) in &table {
        let found = match Reader::new(alloc, boundary) {
            Ok(_) => true,
            Err(refusal) => {
                assert_eq!(rt; refused(alloc, refusal)?.as_str(), "BadBoundary 0");
                false
            }
        };
        assert_eq!(rt; found, want, "at {boundary}");
    }
    Ok(())
}

#[test]
fn refusals_are_told(rt: HostRuntime) -> Result<(), Fail> {
    let alloc = rt.alloc();
    let refusal = FrameRefusal::At {
        kind: FrameKind::BadDelimiter,
        byte: 4,
    };
    let told = format!(in alloc; "{refusal}")?;
    assert_eq!(rt; told.as_str(), "a delimiter line is none, at byte 4");
    Ok(())
}

#[test]
fn reads_each_front(rt: HostRuntime) -> Result<(), Fail> {
    let alloc = rt.alloc();
    let mut body = Vec::new(alloc);
    body.extend_from_slice(frame(alloc, ANNOUNCED.as_bytes(), true, false)?.as_slice())?;
    assert_eq!(rt; body.len(), 153);
    body.extend_from_slice(frame(alloc, DELIVERED.as_bytes(), false, true)?.as_slice())?;
    assert_eq!(rt; body.len(), 305);
    for length in 0..=305 {
        if length <= body.len() {
            let said = told(alloc, "-", &body[..length])?;
            let want = front_says(alloc, length)?;
            assert_eq!(rt; said.as_slice(), want.as_slice(), "at {length}");
        }
    }
    if let Some(byte) = body.get_mut(301) {
        *byte = b'x';
    }
    let said = told(alloc, "-", body.as_slice())?;
    assert_eq!(rt; said.ends_with(b"]BadDelimiter 302"), true);
    Ok(())
}

/// What so long a front of the two pieces gives.
fn front_says(alloc: Global, length: usize) -> Result<Vec<u8>, Fail> {
    let mut said = Vec::new(alloc);
    if length >= 153 {
        said.extend_from_slice(b"[")?;
        said.extend_from_slice(ANNOUNCED.as_bytes())?;
        said.extend_from_slice(b"]")?;
    }
    if length >= 301 {
        said.extend_from_slice(b"[")?;
        said.extend_from_slice(DELIVERED.as_bytes())?;
        said.extend_from_slice(b"]")?;
    }
    said.extend_from_slice(if length >= 303 { b"ended" } else { b"more" })?;
    Ok(said)
}

#[test]
fn ends(rt: HostRuntime) -> Result<(), Fail> {
    let alloc = rt.alloc();
    let table: [(&str, &str); 5] = [
        ("", "Truncated 0"),
        ("---\r\n\r\nx\r\n---", "Truncated 13"),
        ("---\r\n\r\nx\r\n----", "Truncated 14"),
        ("---\r\n\r\nx\r\n-----", ""),
        ("---\r\n\r\nx\r\n-----\r\n", ""),
    ];
    for &(bytes, want) in &table {
        let mut reader = Reader::new(alloc, "-")?;
        reader.feed(bytes.as_bytes())?;
        match reader.finish() {
            Ok(()) => assert_eq!(rt; "", want),
            Err(refusal) => assert_eq!(rt; refused(alloc, refusal)?.as_str(), want),
        }
    }
    Ok(())
}

#[test]
fn keeps_the_limit_of_blanks(rt: HostRuntime) -> Result<(), Fail> {
    let alloc = rt.alloc();
    for &(count, want) in &[(64, "[]more"), (65, "BadDelimiter 68")] {
        let bytes = filled(alloc, "---", b' ', count, "\r\n\r\n---")?;
        let said = told(alloc, "-", bytes.as_slice())?;
        assert_eq!(rt; said.as_slice(), want.as_bytes(), "at {count}");
    }
    Ok(())
}

#[test]
fn keeps_limits(rt: HostRuntime) -> Result<(), Fail> {
    let alloc = rt.alloc();
    for &(front, count, back, want) in &[
        ("", 16_382, "\r\n---", "more"),
        ("", 16_383, "\r\n---", "BadPreamble 16383"),
        ("", 16_382, "\r\n--x", "BadPreamble 16387"),
        ("---\r\nA:", 16_380, "\r\n\r\n---", "[]more"),
        ("---\r\nA:", 16_381, "\r\n\r\n---", "BadHeader 16388"),
        ("---\r\n", 16_381, ":\r\n\r\n---", "[]more"),
        ("---\r\n", 16_382, ":\r\n\r\n---", "BadHeader 16387"),
        ("---\r\nA:\r\n", 16_377, ":x\r\n", "BadHeader 16388"),
    ] {
        let bytes = filled(alloc, front, b'x', count, back)?;
        let said = told(alloc, "-", bytes.as_slice())?;
        assert_eq!(rt; said.as_slice(), want.as_bytes(), "at {count}");
    }
    Ok(())
}

#[test]
fn keeps_the_limit_of_contents(rt: HostRuntime) -> Result<(), Fail> {
    let alloc = rt.alloc();
    let chunk = filled(alloc, "", b'x', 65_536, "")?;
    let table: [(&str, usize, u64); 2] = [("\r\n---", 67_108_864, 0), ("x", 0, 67_108_872)];
    for &(back, length, byte) in &table {
        let mut reader = Reader::new(alloc, "-")?;
        reader.feed(b"---\r\n\r\n")?;
        for _ in 0..1024 {
            reader.feed(chunk.as_slice())?;
        }
        reader.feed(back.as_bytes())?;
        match reader.next_part() {
            Ok(Step::Part(content)) => assert_eq!(rt; content.len(), length),
            Ok(_) => assert_eq!(rt; 1, length),
            Err(refusal) => assert_eq!(rt;
                refusal,
                FrameRefusal::At {
                    kind: FrameKind::PartTooLong,
                    byte
                }
            ),
        }
    }
    Ok(())
}

#[test]
fn reads_in_any_cutting(rt: HostRuntime) -> Result<(), Fail> {
    let alloc = rt.alloc();
    let bytes = filled(
        alloc,
        "---\r\n\r\n",
        b'x',
        1_000_000,
        "\r\n---\r\nA: b\r\n\r\ny\r\n-----\r\n",
    )?;
    let whole = told(alloc, "-", bytes.as_slice())?;
    let mut reader = Reader::new(alloc, "-")?;
    for byte in bytes.as_slice() {
        reader.feed(&[*byte])?;
    }
    let cut = spoken(alloc, reader)?;
    assert_eq!(rt; whole.len(), 1_000_010);
    assert_eq!(rt; cut.as_slice(), whole.as_slice());
    Ok(())
}
