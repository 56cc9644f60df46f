//! What quoted strings mean.

ghost use Rattle.std.specs.Prelude.{◌≡◌, ℕ, ◌≤◌, ◌<◌, ◌^◌, IfOk, length, drop, string_bytes};
ghost use Rattle.std.specs.Str.{encode_utf8_all};
ghost use Rattle.gql_doc.specs.StringValue.{escaped, hex_digit, unit, character, unicode, escape, quoted_piece, quoted_value};

use crate::block_string::after;
use gql_tree::NoMemory;
use std::alloc::Global;

/// What the content of a quoted string means.
pub(crate) fn quoted_value(alloc: Global, content: &[char]) -> Result<String, NoMemory>
    ensures { IfOk result (λ value. string_bytes value ≡ encode_utf8_all (quoted_value 0 content.now)) }
{
    let mut value = String::new(alloc);
    let mut rest = content;
    while let [first, behind @ ..] = rest {
        let (character, more) = quoted_piece(*first, behind);
        value.push(character)?;
        rest = after(behind, more);
    }
    Ok(value)
}

/// The character that stands at the front, and how many characters of it come behind `first`.
fn quoted_piece(first: char, behind: &[char]) -> (char, usize)
    ensures { result ≡ quoted_piece first behind.now }
{
    if first == '\\' {
        escape(behind)
    } else {
        (first, 0)
    }
}

/// What stands behind a backslash.
fn escape(text: &[char]) -> (char, usize)
    ensures { result ≡ escape text.now }
{
    match text {
        [] => ('\\', 0),
        [first, digits @ ..] => {
            if *first == 'u' {
                unicode(digits)
            } else {
                (escaped(*first), 1)
            }
        }
    }
}

/// What stands behind `\u`.
fn unicode(digits: &[char]) -> (char, usize)
    ensures { result ≡ unicode digits.now }
{
    let first = unit(digits);
    if 0xD800 <= first && first < 0xDC00 {
        let second = unit(after(digits, 6));
        (
            character(0x1_0000 + (first - 0xD800) * 0x400 + second.saturating_sub(0xDC00)),
            11,
        )
    } else {
        (character(first), 5)
    }
}

fn character(code: u32) -> char
    ensures { result ≡ character code }
{
    match char::from_u32(code) {
        Some(character) => character,
        None => '\u{fffd}',
    }
}

/// What four hexadecimal digits spell.
fn unit(text: &[char]) -> u32
    ensures value { result ≡ unit text.now }
    ensures within { result < 2 ^ 16 }
{
    match text {
        [a, b, c, d, ..] => {
            ((hex_digit(*a) * 16 + hex_digit(*b)) * 16 + hex_digit(*c)) * 16 + hex_digit(*d)
        }
        _ => 0,
    }
}

fn hex_digit(character: char) -> u32
    ensures value { result ≡ hex_digit character }
    ensures within { result < 16 }
{
    character.to_digit(16).unwrap_or(0)
}

/// What a character behind a backslash stands for.
fn escaped(character: char) -> char
    ensures { result ≡ escaped character }
{
    match character {
        'b' => '\u{8}',
        'f' => '\u{c}',
        'n' => '\n',
        'r' => '\r',
        't' => '\t',
        other => other,
    }
}
