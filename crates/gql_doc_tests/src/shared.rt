//! What the tests of two crates share.

use gql_lex::Lexer;
use gql_tree::Spot;
use std::alloc::Global;
use std::test::Fail;

/// A lexer before the first byte of a text.
pub(crate) fn lexer_of(text: &str) -> Result<Lexer<'_>, Fail> {
    if text.len() >= 4_294_967_295 {
        return Err(Fail::new("too long"));
    }
    Ok(Lexer::new(text))
}

/// A kind, a text and a place.
pub(crate) fn titled(alloc: Global, kind: &str, text: &str, spot: Spot) -> Result<String, Fail> {
    let Spot { line, column } = spot;
    Ok(format!(in alloc; "{kind}{text} {line}:{column}")?)
}
