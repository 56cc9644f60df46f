//! What string tokens mean.

ghost use Rattle.std.specs.Prelude.{◌≡◌, ◌≤◌, IfOk, IfSome, string_bytes};
ghost use Rattle.std.specs.Str.{chars, encode_utf8_all};
ghost use Rattle.gql_lex.specs.declared.token.TokenKind.TheVariants as kind;
ghost use Rattle.gql_doc.specs.StringValue.{between, value, string_value};

use crate::block_string::block_value;
use crate::quoted_string::quoted_value;
use gql_lex::{Token, TokenKind};
use gql_tree::{Listed, NoMemory, Text};
use std::alloc::Global;

/// What a string token means (section 2.9.4 of the standard): the text between its quotes with its
/// escapes resolved, and a block string without its common indentation and its blank first and last
/// lines. Any other token is read as a quoted string.
pub fn string_value(alloc: Global, token: &Token<'_>) -> Result<Text, NoMemory>
    ensures { IfOk result (λ text. text ≡ string_value token.now.kind token.now.text.now) }
{
    if let Some(content) = unescaped(token) {
        return Text::copy_of(alloc, content);
    }
    let characters = characters(alloc, token.text)?;
    let value = value(alloc, token.kind, characters.as_slice())?;
    Ok(Text::from_string(value))
}

/// What a quoted string without an escape means: what stands between its quotes.
fn unescaped<'a>(token: &Token<'a>) -> Option<&'a str>
    ensures { IfSome result (λ content. content.now ≡ string_value token.now.kind token.now.text.now) }
{
    match token.kind {
        TokenKind::Quoted => between_quotes(token.text),
        _ => None,
    }
}

/// What stands between the quotes of a text without a backslash.
fn between_quotes(text: &str) -> Option<&str>
    ensures { IfSome result (λ content. content.now ≡ string_value kind.Quoted text.now) }
{
    let bytes = text.as_bytes();
    if bytes.len() < 2
        || bytes[0] != b'"'
        || bytes[bytes.len() - 1] != b'"'
        || bytes.contains(&b'\\')
    {
        return None;
    }
    let (_, behind) = text.split_at(1);
    let (content, _) = behind.split_at(behind.len() - 1);
    Some(content)
}

fn characters(alloc: Global, text: &str) -> Result<Listed<char>, NoMemory>
    ensures { IfOk result (λ characters. characters ≡ chars text.now) }
{
    Ok(Listed::from_vec(text.chars().collect(alloc)?))
}

/// What a token of these characters means.
fn value(alloc: Global, kind: TokenKind, token: &[char]) -> Result<String, NoMemory>
    ensures { IfOk result (λ text. string_bytes text ≡ encode_utf8_all (value kind token.now)) }
{
    match kind {
        TokenKind::Block => block_value(alloc, between(3, token)),
        _ => quoted_value(alloc, between(1, token)),
    }
}

/// What stands between so many marks on each side.
fn between(marks: usize, text: &[char]) -> &[char]
    requires { marks ≤ 3 }
    ensures { result.now ≡ between marks text.now }
{
    if text.len() < 2 * marks {
        return &[];
    }
    &text[marks..text.len() - marks]
}
