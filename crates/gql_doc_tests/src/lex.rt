//! Texts whose tokens and refusals are known, by hand.

use crate::shared::{lexer_of, titled};
use gql_lex::{LexRefusal, Lexer, Token, TokenKind};
use gql_tree::Spot;
use std::alloc::Global;
use std::process::Abort;
use std::test::Fail;

/// Each token as its kind, its text, its start and its place, and then the refusal.
fn shown(alloc: Global, text: &str) -> Result<String, Fail> {
    let mut out = String::new(alloc);
    let mut lexer = lexer_of(text)?;
    for _ in 0..text.len() + 1 {
        match lexer.next() {
            Ok(Some(token)) => {
                let Token {
                    kind,
                    text,
                    start,
                    spot,
                } = token;
                let Spot { line, column } = spot;
                let part = format!(in alloc; "{kind:?} {text} {start} {line}:{column}; ")?;
                out.push_str(part.as_str())?;
            }
            Ok(None) => return Ok(out),
            Err(refusal) => {
                let part = titled(alloc, refusal.name(), "", refusal.spot())?;
                out.push_str(part.as_str())?;
                return Ok(out);
            }
        }
    }
    Err(Fail::new("no end"))
}

/// Each text is shown as it stands beside it.
fn each_shown(rt: &impl Abort, alloc: Global, table: &[(&str, &str)]) -> Result<(), Fail> {
    for &(text, want) in table {
        let got = shown(alloc, text)?;
        assert_eq!(rt; got.as_str(), want, "{text}");
    }
    Ok(())
}

#[test]
fn tokens(rt: HostRuntime) -> Result<(), Fail> {
    each_shown(
        &rt,
        rt.alloc(),
        &[
            ("", ""),
            (" \t,\r\n\u{feff}#x\u{e9}\n", ""),
            (
                "{a:-0}",
                "Punctuator { 0 1:1; Name a 1 1:2; Punctuator : 2 1:3; Int -0 3 1:4; Punctuator } 5 1:6; ",
            ),
            (
                "!$&()...:=@[]|",
                "Punctuator ! 0 1:1; Punctuator $ 1 1:2; Punctuator & 2 1:3; Punctuator ( 3 1:4; Punctuator ) 4 1:5; Punctuator ... 5 1:6; Punctuator : 8 1:9; Punctuator = 9 1:10; Punctuator @ 10 1:11; Punctuator [ 11 1:12; Punctuator ] 12 1:13; Punctuator | 13 1:14; ",
            ),
            ("_a9Z b", "Name _a9Z 0 1:1; Name b 5 1:6; "),
            (
                "a\r\nb\rc\nd\n\re",
                "Name a 0 1:1; Name b 3 2:1; Name c 5 3:1; Name d 7 4:1; Name e 10 6:1; ",
            ),
            ("#\u{e9}\u{1f600}\u{e9}\r\u{feff}a#b", "Name a 13 2:2; "),
            (
                "0 10,\"\"1",
                "Int 0 0 1:1; Int 10 2 1:3; Quoted \"\" 5 1:6; Int 1 7 1:8; ",
            ),
            (
                "\"\\\"\\\\\\/\\b\\f\\n\\r\\t\\u00e9\"x",
                "Quoted \"\\\"\\\\\\/\\b\\f\\n\\r\\t\\u00e9\" 0 1:1; Name x 24 1:25; ",
            ),
            (
                "\"\\uD83D\\uDE00\t\u{e9}\"x",
                "Quoted \"\\uD83D\\uDE00\t\u{e9}\" 0 1:1; Name x 17 1:17; ",
            ),
            (
                "\"\"\"a\r\n\\\"\"\"\\q\"\"\u{e9} \"\"\"x",
                "Block \"\"\"a\r\n\\\"\"\"\\q\"\"\u{e9} \"\"\" 0 1:1; Name x 20 2:14; ",
            ),
            (
                "\"\"\"\"\"\"\"\"",
                "Block \"\"\"\"\"\" 0 1:1; Quoted \"\" 6 1:7; ",
            ),
        ],
    )
}

#[test]
fn refusals(rt: HostRuntime) -> Result<(), Fail> {
    each_shown(
        &rt,
        rt.alloc(),
        &[
            ("\u{e9}", "BadCharacter 1:1"),
            ("..", "BadCharacter 1:1"),
            (
                "a....",
                "Name a 0 1:1; Punctuator ... 1 1:2; BadCharacter 1:5",
            ),
            ("\r\n %", "BadCharacter 2:2"),
            ("#\u{e9}\u{1}", "BadCharacter 1:3"),
            ("\"\u{e9}\u{0}\"", "BadCharacter 1:3"),
            ("\"\"\"\n\u{1f}\"\"\"", "BadCharacter 2:1"),
            ("-", "BadNumber 1:1"),
            ("-a", "BadNumber 1:1"),
            (" 01", "BadNumber 1:2"),
            ("1.", "BadNumber 1:1"),
            ("1.a", "BadNumber 1:1"),
            ("1e", "BadNumber 1:1"),
            ("1e+", "BadNumber 1:1"),
            ("1.5.", "BadNumber 1:1"),
            ("1_", "BadNumber 1:1"),
            ("1...", "BadNumber 1:1"),
            (" 1.5", "FloatToken 1:2"),
            ("-0e-05 ", "FloatToken 1:1"),
            ("1.0E+1,", "FloatToken 1:1"),
            ("\"\\q\"", "BadEscape 1:2"),
            ("\"\u{e9}\\u12\"", "BadEscape 1:3"),
            ("\"\\uD83D\"", "BadEscape 1:2"),
            ("\"\\uDE00\\uD83D\"", "BadEscape 1:2"),
            ("\"\\uD83D\\uD83D\\uDE00\"", "BadEscape 1:2"),
            ("\"\\n\\\u{1}\"", "BadEscape 1:4"),
            ("\"", "OpenString 1:1"),
            ("a\n \"\\\"", "Name a 0 1:1; OpenString 2:2"),
            ("\"\\q\u{1}", "OpenString 1:1"),
            ("\"a\n\"", "OpenString 1:1"),
            ("\"\\\r\"", "OpenString 1:1"),
            ("\"\"\"\\\"\"\"", "OpenString 1:1"),
            ("\"\"\"\u{1}\"\"", "OpenString 1:1"),
        ],
    )
}

/// How many tokens a text has, and its refusal.
fn counted(text: &str) -> Result<(usize, Option<LexRefusal>), Fail> {
    let mut lexer = lexer_of(text)?;
    for count in 0..text.len() + 1 {
        match lexer.next() {
            Ok(Some(_)) => {}
            Ok(None) => return Ok((count, None)),
            Err(refusal) => return Ok((count, Some(refusal))),
        }
    }
    Err(Fail::new("no end"))
}

#[test]
fn long_texts(rt: HostRuntime) -> Result<(), Fail> {
    let alloc = rt.alloc();
    let open = LexRefusal::OpenString(Spot {
        line: 1,
        column: 1_048_573,
    });
    let table = [
        ("{", 1_048_576, None),
        ("\"", 174_762, Some(open)),
        ("#", 0, None),
        ("\r", 0, None),
    ];
    for &(piece, tokens, refusal) in &table {
        let text = piece.repeat(alloc, 1_048_576)?;
        assert_eq!(rt; counted(text.as_str())?, (tokens, refusal), "{piece}");
    }
    Ok(())
}

#[test]
fn same_again(rt: HostRuntime) -> Result<(), Fail> {
    let mut lexer = Lexer::new("a ?");
    assert!(rt;
        matches!(
            lexer.next(),
            Ok(Some(Token {
                kind: TokenKind::Name,
                ..
            }))
        )
    );
    for _ in 0..3 {
        let refusal = LexRefusal::BadCharacter(Spot { line: 1, column: 3 });
        assert!(rt; matches!(lexer.next(), Err(again) if again == refusal));
    }
    Ok(())
}

/// Where a text ends.
fn end_of(text: &str) -> Result<(u32, u32), Fail> {
    let Spot { line, column } = lexer_of(text)?.end();
    Ok((line, column))
}

#[test]
fn ends(rt: HostRuntime) -> Result<(), Fail> {
    let table = [
        ("", (1, 1)),
        ("{a}", (1, 4)),
        ("a\n b ", (2, 4)),
        ("a\r\n", (2, 1)),
        ("#\u{e9}\r", (2, 1)),
        ("\u{e9}\u{10ffff}", (1, 3)),
    ];
    for &(text, end) in &table {
        assert_eq!(rt; end_of(text)?, end);
    }
    Ok(())
}

#[test]
fn messages(rt: HostRuntime) -> Result<(), Fail> {
    let spot = Spot { line: 2, column: 7 };
    let table = [
        (
            LexRefusal::BadCharacter(spot),
            "the character at 2:7 belongs to no token",
        ),
        (
            LexRefusal::BadEscape(spot),
            "the escape at 2:7 stands for no character",
        ),
        (
            LexRefusal::OpenString(spot),
            "the string at 2:7 doesn't end",
        ),
        (
            LexRefusal::BadNumber(spot),
            "the number at 2:7 is not well formed",
        ),
        (
            LexRefusal::FloatToken(spot),
            "the number at 2:7 has a fraction or an exponent",
        ),
    ];
    for &(refusal, want) in &table {
        let got = format!(in rt.alloc(); "{refusal}")?;
        assert_eq!(rt; got.as_str(), want);
    }
    Ok(())
}
