//! Lines and columns.

ghost use Rattle.std.specs.Prelude.{◌≡◌, ℕ, List, ◌∷◌, [], ◌++◌, ◌+◌, ◌<◌, ◌≤◌, ◌^◌, length, take, drop, count_by, Some};
ghost use Rattle.std.specs.List.{list_any};
ghost use Rattle.gql_lex.specs.Classes.{is_line_end};
ghost use Rattle.gql_lex.specs.Places.{ends_line, begins_character, spot_at};
ghost use Rattle.gql_lex.specs.Front.{front};
ghost use Rattle.gql_lex.specs.declared.scan.Found.TheVariants.{Token};
ghost use Rattle.gql_lex.specs.inner.Behind.{IsBehind};
ghost use Rattle.gql_lex.specs.inner.Lines.{on_line};

use crate::run::is_line_end;
use crate::token::TokenKind;
use gql_tree::Spot;
use memchr::memchr2;

/// Whether a line ends with `byte`, which `rest` follows.
fn ends_line(byte: u8, rest: &[u8]) -> bool
    ensures { result ≡ ends_line byte rest.now }
{
    byte == b'\n' || (byte == b'\r' && !rest.starts_with(b"\n"))
}

/// Whether a byte is the first of a character.
fn begins_character(byte: u8) -> bool
    ensures { result ≡ begins_character byte }
{
    byte < 128 || byte >= 192
}

/// The place behind `byte`, which `rest` follows.
fn behind(spot: Spot, byte: u8, rest: &[u8]) -> Spot
    requires line { spot.line + 1 < 2 ^ 32 }
    requires column { spot.column + 1 < 2 ^ 32 }
    ensures place { (passed : List ℕ) → spot ≡ spot_at passed (byte ∷ rest.now) → result ≡ spot_at (passed ++ byte ∷ []) rest.now }
    ensures line { result.line ≤ spot.line + 1 }
    ensures column { result.column ≤ spot.column + 1 }
{
    if ends_line(byte, rest) {
        Spot {
            line: spot.line + 1,
            column: 1,
        }
    } else if begins_character(byte) {
        Spot {
            line: spot.line,
            column: spot.column + 1,
        }
    } else {
        spot
    }
}

/// The place behind the token of `count` bytes at the front of a text whose place is `spot`.
pub(crate) fn behind_token(spot: Spot, kind: TokenKind, text: &[u8], count: usize) -> Spot
    requires found { front text.now ≡ Some (Token kind count) }
    requires count { count ≤ length text.now }
    requires line { spot.line + count < 2 ^ 32 }
    requires column { spot.column + count < 2 ^ 32 }
    ensures place { IsBehind spot text.now count result }
    ensures line { result.line ≤ spot.line + count }
    ensures column { result.column ≤ spot.column + count }
{
    match kind {
        // Such a token has only ASCII, and no line end.
        TokenKind::Punctuator | TokenKind::Name | TokenKind::Int => Spot {
            line: spot.line,
            column: spot.column + count as u32,
        },
        TokenKind::Quoted | TokenKind::Block => behind_all(spot, text, count),
    }
}

/// The same as `behind_all`, for what mostly has one byte or none.
#[inline(always)]
pub(crate) fn behind_blanks(spot: Spot, text: &[u8], count: usize) -> Spot
    requires count { count ≤ length text.now }
    requires line { spot.line + count < 2 ^ 32 }
    requires column { spot.column + count < 2 ^ 32 }
    ensures place { IsBehind spot text.now count result }
    ensures line { result.line ≤ spot.line + count }
    ensures column { result.column ≤ spot.column + count }
{
    match text {
        [byte, rest @ ..] if count == 1 => behind(spot, *byte, rest),
        _ if count == 0 => spot,
        _ if count < FEW => behind_each(spot, text, count),
        _ => behind_all(spot, text, count),
    }
}

/// The place behind the first `count` bytes of a text whose place is `spot`.
pub(crate) fn behind_all(spot: Spot, text: &[u8], count: usize) -> Spot
    requires count { count ≤ length text.now }
    requires line { spot.line + count < 2 ^ 32 }
    requires column { spot.column + count < 2 ^ 32 }
    ensures place { IsBehind spot text.now count result }
    ensures line { result.line ≤ spot.line + count }
    ensures column { result.column ≤ spot.column + count }
{
    if count < FEW {
        return behind_each(spot, text, count);
    }
    let passed = &text[..count];
    if has_line_end(passed) {
        behind_each(spot, text, count)
    } else {
        behind_on_line(spot, passed)
    }
}

/// So many bytes are looked at one by one before a search through many at once pays.
const FEW: usize = 16;

/// Whether a text has a byte that ends a line, or begins the end of one.
fn has_line_end(text: &[u8]) -> bool
    ensures { result ≡ list_any is_line_end text.now }
{
    memchr2(b'\n', b'\r', text).is_some()
}

/// The place behind `passed` on the same line.
fn behind_on_line(spot: Spot, passed: &[u8]) -> Spot
    requires column { spot.column + length passed.now < 2 ^ 32 }
    ensures place { result ≡ on_line spot passed.now }
    ensures column { result.column ≤ spot.column + length passed.now }
{
    Spot {
        line: spot.line,
        column: spot.column + characters(passed) as u32,
    }
}

/// How many characters begin in a text.
fn characters(text: &[u8]) -> usize
    ensures value { result ≡ count_by begins_character text.now }
    ensures within { result ≤ length text.now }
{
    if text.is_ascii() {
        text.len()
    } else {
        text.iter().filter(|byte| begins_character(**byte)).count()
    }
}

/// The same as `behind_all`, a byte at a time.
fn behind_each(spot: Spot, text: &[u8], count: usize) -> Spot
    requires count { count ≤ length text.now }
    requires line { spot.line + count < 2 ^ 32 }
    requires column { spot.column + count < 2 ^ 32 }
    ensures place { IsBehind spot text.now count result }
    ensures line { result.line ≤ spot.line + count }
    ensures column { result.column ≤ spot.column + count }
{
    let mut at = spot;
    for index in 0..count {
        at = behind(at, text[index], &text[index + 1..]);
    }
    at
}
