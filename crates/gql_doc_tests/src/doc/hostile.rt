//! Long texts, deep ones, and each beginning of a document, by hand.

use crate::doc::documents::shown;
use crate::shared::lexer_of;
use gql_doc::parse;
use gql_tree::Spot;
use std::alloc::Global;
use std::process::Abort;
use std::test::Fail;

/// A text of `front`, then a piece so many times, then `back`.
fn repeated(
    alloc: Global,
    front: &str,
    piece: &str,
    count: usize,
    back: &str,
) -> Result<String, Fail> {
    let middle = piece.repeat(alloc, count)?;
    Ok(format!(in alloc; "{front}{middle}{back}")?)
}

/// Each text of a front, a piece so many times and a back is shown as it stands beside them.
fn each_repeated(
    rt: &impl Abort,
    alloc: Global,
    table: &[(&str, &str, usize, &str, &str)],
) -> Result<(), Fail> {
    for &(front, piece, count, back, want) in table {
        let text = repeated(alloc, front, piece, count, back)?;
        let got = shown(alloc, text.as_str())?;
        assert_eq!(rt; got.as_str(), want, "{front}{piece}");
    }
    Ok(())
}

#[test]
fn long_texts(rt: HostRuntime) -> Result<(), Fail> {
    each_repeated(
        &rt,
        rt.alloc(),
        &[
            ("", "#", 1_048_576, "", "Unexpected 1:1048577"),
            ("", " ", 1_048_576, "", "Unexpected 1:1048577"),
            ("", "\n", 1_048_576, "", "Unexpected 1048577:1"),
            ("{a}", " ", 1_048_573, "", "ok"),
            ("{a}", " ", 1_048_574, "", "TooLong"),
        ],
    )
}

#[test]
fn many_tokens(rt: HostRuntime) -> Result<(), Fail> {
    each_repeated(
        &rt,
        rt.alloc(),
        &[
            ("", "{", 1_048_576, "", "Unexpected 1:2"),
            ("", "\"", 1_048_576, "", "Unexpected 1:1"),
            ("", "{a", 65_536, "", "TooDeep 1:257"),
            ("{a(b:[", "\"", 60_004, "", "OpenString 1:60007"),
            ("{", "a ", 20_000, "}", "ok"),
            ("", "{a}", 20_000, "", "ok"),
        ],
    )
}

/// What is shown of a front, so many openings, what stands inside, as many closings and a back.
fn nested_shown(
    alloc: Global,
    opening: (&str, &str),
    inside: &str,
    closing: (&str, &str),
    count: usize,
) -> Result<String, Fail> {
    let middle = repeated(alloc, opening.0, opening.1, count, inside)?;
    let text = repeated(alloc, middle.as_str(), closing.0, count, closing.1)?;
    shown(alloc, text.as_str())
}

#[test]
fn deep_texts(rt: HostRuntime) -> Result<(), Fail> {
    let alloc = rt.alloc();
    let table = [
        (("", "{a"), "", ("}", ""), 128, "TooDeep 1:257"),
        (("{", "...{"), "a", ("}", "}"), 127, "TooDeep 1:513"),
        (("{a(b:", "["), "", ("]", ")}"), 127, "TooDeep 1:133"),
        (("{a(b:", "{c:"), "1", ("}", ")}"), 127, "TooDeep 1:387"),
        (("{a{b(c:{d:", "["), "", ("]", "})}}"), 125, "TooDeep 1:136"),
        (("query($a:", "["), "T", ("]", "){b}"), 128, "TooDeep 1:138"),
        (
            ("query($a:T=", "["),
            "",
            ("]", "){b}"),
            128,
            "TooDeep 1:140",
        ),
        (
            ("query@a(b:", "{c:"),
            "d",
            ("}", "){e}"),
            128,
            "TooDeep 1:395",
        ),
    ];
    for &(opening, inside, closing, count, want) in &table {
        let deepest = nested_shown(alloc, opening, inside, closing, count)?;
        assert_eq!(rt; deepest.as_str(), "ok", "{opening:?}");
        let deeper = nested_shown(alloc, opening, inside, closing, count.saturating_add(1))?;
        assert_eq!(rt; deeper.as_str(), want, "{opening:?}");
    }
    Ok(())
}

/// A document in one line with each production but comments.
fn rich() -> &'static str {
    "query Q($v:[T!]!=[1]@d,$w:I=\"x\\n\"){a:b(c:$v,d:{e:[true,null,-1]})@d(x:E){...F@e ...on T{c}...@f{d(s:\"\"\"t\"\"\")}}}fragment F on T@g{e}mutation M{f}subscription{g}{h}"
}

/// Where the last token begins that begins before the column `end` of a text in one line.
fn last_token(text: &str, end: u32) -> Result<u32, Fail> {
    let mut lexer = lexer_of(text)?;
    let mut last = 1;
    for _ in 0..text.len() + 1 {
        match lexer.next() {
            Ok(Some(token)) if token.spot.column < end => last = token.spot.column,
            _ => return Ok(last),
        }
    }
    Ok(last)
}

/// Each beginning of a document is one where a definition ends, and else refused at its end or where
/// its last token begins.
#[test]
fn beginnings(rt: HostRuntime) -> Result<(), Fail> {
    let alloc = rt.alloc();
    let mut beginning = String::new(alloc);
    let mut documents = String::new(alloc);
    let mut end = 1_u32;
    for letter in rich().chars() {
        beginning.push(letter)?;
        end = end.saturating_add(1);
        match parse(alloc, beginning.as_str()) {
            Ok(_) => {
                let length = format!(in alloc; "{} ", beginning.len())?;
                documents.push_str(length.as_str())?;
            }
            Err(refusal) => {
                let last = last_token(rich(), end)?;
                let Some(Spot { line, column }) = refusal.spot() else {
                    return Err(Fail::new("no place"));
                };
                assert!(rt;
                    line == 1 && (column == end || column == last),
                    "{beginning}"
                );
            }
        }
    }
    assert_eq!(rt; documents.as_str(), "111 131 144 159 162 ");
    Ok(())
}
