//! The terminals of the grammar.

ghost use Rattle.std.specs.Prelude.{◌≡◌, codes};
ghost use Rattle.std.specs.Str.{bytes_eq};
ghost use Rattle.gql_lex.specs.Tokens.{lexeme};
ghost use Rattle.gql_doc.specs.Terminals.{is_punctuator, is_name, is_number, is_string, is_word, is_fragment_name, is_enum_value, is_operation_type, is_field_part};
ghost use Rattle.gql_doc.specs.inner.Matches.{matches};

use gql_lex::{Token, TokenKind};

/// A terminal of the grammar: what a token has to be at some place of a production.
#[derive(Clone, Copy)]
pub(crate) enum Terminal {
    /// The punctuator of this text.
    Punctuator(&'static str),
    Name,
    Number,
    /// A string of either form.
    StringValue,
    /// The name of this text.
    Word(&'static str),
    /// Any name but `on`.
    FragmentName,
    /// Any name but `true`, `false` and `null`.
    EnumValue,
    /// `query`, `mutation` or `subscription`.
    OperationType,
    /// What begins all that may stand between a field's name and its selection set: `:`, `(` or `@`.
    FieldPart,
}

impl Terminal {
    /// Whether a token is this terminal. Most callers name the terminal, so little is left of this where it is inlined.
    #[inline(always)]
    pub(crate) fn matches(self, token: &Token<'_>) -> bool
        ensures { result ≡ matches self (lexeme token.now) }
    {
        match self {
            Terminal::Punctuator(text) => is_punctuator(token, text),
            Terminal::Name => is_name(token),
            Terminal::Number => is_number(token),
            Terminal::StringValue => is_string(token),
            Terminal::Word(text) => is_word(token, text),
            Terminal::FragmentName => is_fragment_name(token),
            Terminal::EnumValue => is_enum_value(token),
            Terminal::OperationType => is_operation_type(token),
            Terminal::FieldPart => is_field_part(token),
        }
    }
}

#[inline(always)]
fn is_punctuator(token: &Token<'_>, text: &str) -> bool
    ensures { result ≡ is_punctuator text.now (lexeme token.now) }
{
    matches!(token.kind, TokenKind::Punctuator) && is_same(token.text, text)
}

/// Whether two texts are the same. Texts of one byte, as most punctuators are, are compared at once.
#[inline(always)]
fn is_same(left: &str, right: &str) -> bool
    ensures { result ≡ bytes_eq left.now right.now }
{
    match (left.as_bytes(), right.as_bytes()) {
        ([byte], [other]) => byte == other,
        ([_], _) | (_, [_]) => false,
        _ => left == right,
    }
}

#[inline(always)]
fn is_name(token: &Token<'_>) -> bool
    ensures { result ≡ is_name (lexeme token.now) }
{
    matches!(token.kind, TokenKind::Name)
}

fn is_number(token: &Token<'_>) -> bool
    ensures { result ≡ is_number (lexeme token.now) }
{
    matches!(token.kind, TokenKind::Int)
}

fn is_string(token: &Token<'_>) -> bool
    ensures { result ≡ is_string (lexeme token.now) }
{
    matches!(token.kind, TokenKind::Quoted | TokenKind::Block)
}

fn is_word(token: &Token<'_>, text: &str) -> bool
    ensures { result ≡ is_word text.now (lexeme token.now) }
{
    is_name(token) && token.text == text
}

fn is_fragment_name(token: &Token<'_>) -> bool
    ensures { result ≡ is_fragment_name (lexeme token.now) }
{
    is_name(token) && token.text != "on"
}

fn is_enum_value(token: &Token<'_>) -> bool
    ensures { result ≡ is_enum_value (lexeme token.now) }
{
    is_name(token) && !(token.text == "true" || token.text == "false" || token.text == "null")
}

fn is_operation_type(token: &Token<'_>) -> bool
    ensures { result ≡ is_operation_type (lexeme token.now) }
{
    is_name(token)
        && (token.text == "query" || token.text == "mutation" || token.text == "subscription")
}

#[inline(always)]
fn is_field_part(token: &Token<'_>) -> bool
    ensures { result ≡ is_field_part (lexeme token.now) }
{
    matches!(token.kind, TokenKind::Punctuator)
        && matches!(token.text.as_bytes(), [b':' | b'(' | b'@'])
}
