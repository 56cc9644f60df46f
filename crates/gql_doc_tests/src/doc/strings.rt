//! Strings whose values are known, by hand.

use crate::shared::lexer_of;
use gql_doc::string_value;
use gql_tree::Text;
use std::alloc::Global;
use std::process::Abort;
use std::test::Fail;

/// What the first token of a text means.
fn value_of(alloc: Global, text: &str) -> Result<Text, Fail> {
    match lexer_of(text)?.next() {
        Ok(Some(token)) => Ok(string_value(alloc, &token)?),
        _ => Err(Fail::new("no token")),
    }
}

/// The first token of each text means what stands beside it.
fn each_means(rt: &impl Abort, alloc: Global, table: &[(&str, &str)]) -> Result<(), Fail> {
    for &(text, want) in table {
        let got = value_of(alloc, text)?;
        assert_eq!(rt; got.as_str(), want, "{text}");
    }
    Ok(())
}

#[test]
fn quoted_strings(rt: HostRuntime) -> Result<(), Fail> {
    each_means(
        &rt,
        rt.alloc(),
        &[
            ("\"\"", ""),
            ("\"a b\"", "a b"),
            ("\"\u{e9}\u{1f600}\t\"", "\u{e9}\u{1f600}\t"),
            ("\"\\\"\\\\\\/\\b\\f\\n\\r\\t\"", "\"\\/\u{8}\u{c}\n\r\t"),
            ("\"\\u00e9x\\u00E9\"", "\u{e9}x\u{e9}"),
            ("\"a\\uD83D\\uDE00b\"", "a\u{1f600}b"),
            ("\"\\\\u0041\\u0000\\uFFFF\"", "\\u0041\u{0}\u{ffff}"),
        ],
    )
}

#[test]
fn block_strings(rt: HostRuntime) -> Result<(), Fail> {
    each_means(
        &rt,
        rt.alloc(),
        &[
            ("\"\"\"\"\"\"", ""),
            ("\"\"\"a\"\"\"", "a"),
            ("\"\"\"\n  a\n    b\n\"\"\"", "a\n  b"),
            ("\"\"\"  a\n    b\n   c\"\"\"", "  a\n b\nc"),
            ("\"\"\"\r\n\t\r  x\r\n \r\n  y\n\n \"\"\"", "x\n\ny"),
            ("\"\"\" \\\"\"\" \\n \\u0041\"\"\"", " \"\"\" \\n \\u0041"),
            ("\"\"\"\n\ta\n  b\"\"\"", "a\n b"),
            ("\"\"\"\n\n \t\n\"\"\"", ""),
            ("\"\"\"a\n \n  \u{e9}  \n\"\"\"", "a\n\n\u{e9}  "),
        ],
    )
}
