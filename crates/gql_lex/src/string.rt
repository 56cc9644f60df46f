//! Quoted strings and block strings.

ghost use Rattle.std.specs.Prelude.{◌≡◌, ℕ, ◌≤◌, ◌+◌, ◌<◌, ◌^◌, ◌∷◌, length};
ghost use Rattle.std.specs.List.{list_all};
ghost use Rattle.gql_lex.specs.inner.Found.{Lies, Encloses};
ghost use Rattle.gql_lex.specs.inner.Lines.{is_no_control};
ghost use Rattle.gql_lex.specs.Strings.{fault_of, closed_quoted, quoted, allowed_len, closed_block, block, string};

use crate::run::{Pieces, is_forbidden, run_len};
use crate::scan::{Fault, Found};
use crate::token::TokenKind;
use memchr::memchr2;

/// The string whose first quote stands before `text`, or what is wrong with it.
pub(crate) fn string(text: &[u8]) -> Found
    requires { length text.now < 2 ^ 32 }
    ensures value { result ≡ string text.now }
    ensures lies { Lies (34 ∷ text.now) result }
{
    if text.starts_with(b"\"\"") {
        block(&text[2..])
    } else {
        quoted(text)
    }
}

/// What stands behind `"`.
fn quoted(text: &[u8]) -> Found
    requires { length text.now < 2 ^ 32 }
    ensures value { result ≡ quoted text.now }
    ensures lies { Lies (34 ∷ text.now) result }
{
    match memchr2(b'"', b'\\', text) {
        Some(len) if text[len] == b'"' && has_no_controls(&text[..len]) => {
            Found::Token(TokenKind::Quoted, len + 2)
        }
        _ => quoted_by_items(text),
    }
}

/// The same, an item at a time.
fn quoted_by_items(text: &[u8]) -> Found
    requires { length text.now < 2 ^ 32 }
    ensures value { result ≡ quoted text.now }
    ensures lies { Lies (34 ∷ text.now) result }
{
    let (content, behind) = text.split_at(run_len(Pieces::QuotedItems, text));
    if behind.starts_with(b"\"") {
        closed_quoted(content)
    } else {
        Found::Wrong(Fault::Open, 0)
    }
}

/// Whether no byte is a control character. The loop never leaves early, so that many bytes are compared at once.
fn has_no_controls(text: &[u8]) -> bool
    ensures { result ≡ list_all is_no_control text.now }
{
    let mut none = true;
    for byte in text {
        none = none & (*byte >= b' ');
    }
    none
}

/// What stands between two quotes.
fn closed_quoted(content: &[u8]) -> Found
    requires { length content.now < 2 ^ 32 }
    ensures value { result ≡ closed_quoted content.now }
    ensures encloses { Encloses (length content.now) 2 result }
{
    let sound = run_len(Pieces::SoundItems, content);
    if sound == content.len() {
        Found::Token(TokenKind::Quoted, sound + 2)
    } else {
        Found::Wrong(fault_of(&content[sound..]), sound + 1)
    }
}

/// What is wrong at the front.
fn fault_of(text: &[u8]) -> Fault
    ensures { result ≡ fault_of text.now }
{
    if text.starts_with(b"\\") {
        Fault::Escape
    } else {
        Fault::Character
    }
}

/// What stands behind `"""`.
fn block(text: &[u8]) -> Found
    requires { length text.now < 2 ^ 32 }
    ensures value { result ≡ block text.now }
    ensures lies { Lies (34 ∷ 34 ∷ 34 ∷ text.now) result }
{
    let (content, behind) = text.split_at(run_len(Pieces::BlockItems, text));
    if behind.starts_with(b"\"\"\"") {
        closed_block(content)
    } else {
        Found::Wrong(Fault::Open, 0)
    }
}

/// What stands between `"""` and `"""`.
fn closed_block(content: &[u8]) -> Found
    requires { length content.now < 2 ^ 32 }
    ensures value { result ≡ closed_block content.now }
    ensures encloses { Encloses (length content.now) 6 result }
{
    let allowed = allowed_len(content);
    if allowed == content.len() {
        Found::Token(TokenKind::Block, allowed + 6)
    } else {
        Found::Wrong(Fault::Character, allowed + 3)
    }
}

/// How many bytes at the front may stand.
fn allowed_len(text: &[u8]) -> usize
    ensures value { result ≡ allowed_len text.now }
    ensures within { result ≤ length text.now }
{
    text.iter().take_while(|byte| !is_forbidden(**byte)).count()
}
