//! Tokens.

use gql_tree::Spot;

/// The kinds of tokens. A number with a fraction or an exponent is refused, so each number is an
/// `Int`.
#[derive(Clone, Copy, Debug, PartialEq, Eq)]
pub enum TokenKind {
    Punctuator,
    Name,
    Int,
    /// A string on one line, in quotes.
    Quoted,
    /// A string between `"""` and `"""`.
    Block,
}

/// A token of a text.
#[derive(Clone, Copy, Debug)]
pub struct Token<'a> {
    /// Its slice of the text, with the quotes of a string.
    pub text: &'a str,
    /// How many bytes of the text stand before it.
    pub start: u32,
    /// Where it begins.
    pub spot: Spot,
    /// Stands last, so that no hole lies between the fields.
    pub kind: TokenKind,
}

const _: () = prove!(size_of::<Token<'static>>() <= 32);
