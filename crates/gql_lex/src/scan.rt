//! What stands at the front of a text that no blank begins.

ghost use Rattle.std.specs.Prelude.{◌≡◌, ℕ, ◌≤◌, ◌<◌, ◌^◌, ◌+◌, length, IfSome};
ghost use Rattle.gql_lex.specs.inner.Found.{Lies, BeginsPlain};
ghost use Rattle.std.specs.List.{prefix_len};
ghost use Rattle.gql_lex.specs.Classes.{begins_name, continues_name, is_punctuator};
ghost use Rattle.gql_lex.specs.Front.{front};
ghost use Rattle.gql_lex.specs.Tokens.{refusal};

use crate::number::number;
use crate::refusal::LexRefusal;
use crate::string::string;
use crate::token::TokenKind;
use gql_tree::Spot;

// Each byte of a name stands at its own place, and a dot at every other place.
static NAME_MAP: [u8; 256] = *b"\
    ................................\
    ................0123456789......\
    .ABCDEFGHIJKLMNOPQRSTUVWXYZ...._\
    .abcdefghijklmnopqrstuvwxyz.....\
    ................................\
    ................................\
    ................................\
    ................................";

// Each punctuator of one byte stands at its own place, and a dot at every other place.
static PUNCTUATOR_MAP: [u8; 256] = *b"\
    ................................\
    .!..$.&.()................:..=..\
    @..........................[.]..\
    ...........................{|}..\
    ................................\
    ................................\
    ................................\
    ................................";

/// What stands at the front.
#[derive(Clone, Copy)]
pub(crate) enum Found {
    /// A token, and how many bytes it takes.
    Token(TokenKind, usize),
    /// What is no token, and how many bytes stand before it.
    Wrong(Fault, usize),
}

/// What is wrong.
#[derive(Clone, Copy)]
pub(crate) enum Fault {
    Character,
    Escape,
    Open,
    Number,
    Float,
}

/// What stands at the front of a text that no blank begins.
pub(crate) fn front(text: &[u8]) -> Option<Found>
    requires { length text.now < 2 ^ 32 }
    ensures value { result ≡ front text.now }
    ensures lies { IfSome result (Lies text.now) }
    ensures plain { IfSome result (BeginsPlain text.now) }
{
    let [first, rest @ ..] = text else {
        return None;
    };
    if begins_name(*first) {
        return Some(Found::Token(TokenKind::Name, 1 + name_len(rest)));
    }
    if is_punctuator(*first) {
        return Some(Found::Token(TokenKind::Punctuator, 1));
    }
    if text.starts_with(b"...") {
        return Some(Found::Token(TokenKind::Punctuator, 3));
    }
    if *first == b'-' || first.is_ascii_digit() {
        return Some(number(text));
    }
    if *first == b'"' {
        return Some(string(rest));
    }
    Some(Found::Wrong(Fault::Character, 0))
}

/// A punctuator of one byte.
fn is_punctuator(byte: u8) -> bool
    ensures { result ≡ is_punctuator byte }
{
    PUNCTUATOR_MAP[byte as usize] != b'.'
}

/// A name's first character.
pub(crate) fn begins_name(byte: u8) -> bool
    ensures { result ≡ begins_name byte }
{
    byte == b'_' || byte.is_ascii_alphabetic()
}

/// A name's character.
fn continues_name(byte: u8) -> bool
    ensures { result ≡ continues_name byte }
{
    NAME_MAP[byte as usize] != b'.'
}

/// How many characters of a name stand at the front.
fn name_len(text: &[u8]) -> usize
    ensures value { result ≡ prefix_len continues_name text.now }
    ensures within { result ≤ length text.now }
{
    text.iter()
        .take_while(|byte| continues_name(**byte))
        .count()
}

/// What is wrong, with its place.
pub(crate) fn refusal(fault: Fault, spot: Spot) -> LexRefusal
    ensures { result ≡ refusal fault spot }
{
    match fault {
        Fault::Character => LexRefusal::BadCharacter(spot),
        Fault::Escape => LexRefusal::BadEscape(spot),
        Fault::Open => LexRefusal::OpenString(spot),
        Fault::Number => LexRefusal::BadNumber(spot),
        Fault::Float => LexRefusal::FloatToken(spot),
    }
}
