//! Numbers.

ghost use Rattle.std.specs.Prelude.{◌≡◌, ℕ, ◌≤◌, ◌+◌, length};
ghost use Rattle.gql_lex.specs.inner.Found.{Lies};
ghost use Rattle.gql_lex.specs.Numbers.{digits, minus_len, whole_len, fraction_len, sign_len, power_len, exponent_len, integer_len, decimal_len, number_len, runs_on, number};

use crate::scan::{Fault, Found, begins_name};
use crate::token::TokenKind;

/// The number at the front of a text that begins with a digit or `-`, or what is wrong with it.
pub(crate) fn number(text: &[u8]) -> Found
    ensures value { result ≡ number text.now }
    ensures lies { Lies text.now result }
{
    let integer = integer_len(text);
    if integer == 0 {
        return Found::Wrong(Fault::Number, 0);
    }
    let len = number_len(text);
    if runs_on(&text[len..]) {
        return Found::Wrong(Fault::Number, 0);
    }
    if len == integer {
        Found::Token(TokenKind::Int, len)
    } else {
        Found::Wrong(Fault::Float, 0)
    }
}

/// `-?(0|[1-9][0-9]*)(\.[0-9]+)?([eE][+-]?[0-9]+)?`
fn number_len(text: &[u8]) -> usize
    ensures value { result ≡ number_len text.now }
    ensures within { result ≤ length text.now }
{
    let decimal = decimal_len(text);
    decimal + exponent_len(&text[decimal..])
}

/// `-?(0|[1-9][0-9]*)(\.[0-9]+)?`
fn decimal_len(text: &[u8]) -> usize
    ensures value { result ≡ decimal_len text.now }
    ensures within { result ≤ length text.now }
{
    let integer = integer_len(text);
    integer + fraction_len(&text[integer..])
}

/// `-?(0|[1-9][0-9]*)`, or 0 where there is none.
fn integer_len(text: &[u8]) -> usize
    ensures value { result ≡ integer_len text.now }
    ensures within { result ≤ length text.now }
{
    let minus = minus_len(text);
    let whole = whole_len(&text[minus..]);
    if whole == 0 { 0 } else { minus + whole }
}

/// `-?`
fn minus_len(text: &[u8]) -> usize
    ensures value { result ≡ minus_len text.now }
    ensures within { result ≤ length text.now }
{
    if text.starts_with(b"-") { 1 } else { 0 }
}

/// `0|[1-9][0-9]*`, or 0 where there is none.
fn whole_len(text: &[u8]) -> usize
    ensures value { result ≡ whole_len text.now }
    ensures within { result ≤ length text.now }
{
    if text.starts_with(b"0") {
        1
    } else {
        digits(text)
    }
}

/// `(\.[0-9]+)?`
fn fraction_len(text: &[u8]) -> usize
    ensures value { result ≡ fraction_len text.now }
    ensures within { result ≤ length text.now }
{
    let [first, rest @ ..] = text else {
        return 0;
    };
    let digits = digits(rest);
    if *first == b'.' && 0 < digits {
        1 + digits
    } else {
        0
    }
}

/// `([eE][+-]?[0-9]+)?`
fn exponent_len(text: &[u8]) -> usize
    ensures value { result ≡ exponent_len text.now }
    ensures within { result ≤ length text.now }
{
    let [first, rest @ ..] = text else {
        return 0;
    };
    let power = power_len(rest);
    if (*first == b'E' || *first == b'e') && 0 < power {
        1 + power
    } else {
        0
    }
}

/// `[+-]?[0-9]+`, or 0 where there is none.
fn power_len(text: &[u8]) -> usize
    ensures value { result ≡ power_len text.now }
    ensures within { result ≤ length text.now }
{
    let sign = sign_len(text);
    let digits = digits(&text[sign..]);
    if 0 < digits { sign + digits } else { 0 }
}

/// `[+-]?`
fn sign_len(text: &[u8]) -> usize
    ensures value { result ≡ sign_len text.now }
    ensures within { result ≤ length text.now }
{
    if text.starts_with(b"+") || text.starts_with(b"-") {
        1
    } else {
        0
    }
}

/// `[0-9]*`
fn digits(text: &[u8]) -> usize
    ensures value { result ≡ digits text.now }
    ensures within { result ≤ length text.now }
{
    text.iter().take_while(|byte| byte.is_ascii_digit()).count()
}

/// Whether a number may not end here.
fn runs_on(text: &[u8]) -> bool
    ensures { result ≡ runs_on text.now }
{
    match text {
        [] => false,
        [first, ..] => *first == b'.' || first.is_ascii_digit() || begins_name(*first),
    }
}
