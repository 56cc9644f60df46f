//! What is no token.

ghost use Rattle.std.specs.Prelude.{◌≡◌};
ghost use Rattle.gql_lex.specs.Refusals.{lex_name};
ghost use Rattle.gql_lex.specs.TokenPlaces.{place_of};

use gql_tree::Spot;
use thiserror::Error;

/// What stands in a text that is no token, and where.
#[derive(Clone, Copy, Debug, PartialEq, Eq, Error)]
pub enum LexRefusal {
    /// A character that begins no token, or that stands nowhere.
    #[error("the character at {}:{} belongs to no token", .0.line, .0.column)]
    BadCharacter(Spot),
    /// A backslash in a quoted string that begins no escape, or an escape of half a surrogate pair.
    #[error("the escape at {}:{} stands for no character", .0.line, .0.column)]
    BadEscape(Spot),
    /// The first quote of a string that doesn't end.
    #[error("the string at {}:{} doesn't end", .0.line, .0.column)]
    OpenString(Spot),
    /// A digit or `-` that begins no number, or a number that runs into what follows it.
    #[error("the number at {}:{} is not well formed", .0.line, .0.column)]
    BadNumber(Spot),
    /// A number with a fraction or an exponent.
    #[error("the number at {}:{} has a fraction or an exponent", .0.line, .0.column)]
    FloatToken(Spot),
}

impl LexRefusal {
    /// The name that a user is shown.
    pub fn name(self) -> &'static str
        ensures { result.now ≡ lex_name self }
    {
        match self {
            LexRefusal::BadCharacter(_) => "BadCharacter",
            LexRefusal::BadEscape(_) => "BadEscape",
            LexRefusal::OpenString(_) => "OpenString",
            LexRefusal::BadNumber(_) => "BadNumber",
            LexRefusal::FloatToken(_) => "FloatToken",
        }
    }

    /// Where it stands.
    pub fn spot(self) -> Spot
        ensures { result ≡ place_of self }
    {
        match self {
            LexRefusal::BadCharacter(spot) => spot,
            LexRefusal::BadEscape(spot) => spot,
            LexRefusal::OpenString(spot) => spot,
            LexRefusal::BadNumber(spot) => spot,
            LexRefusal::FloatToken(spot) => spot,
        }
    }
}
