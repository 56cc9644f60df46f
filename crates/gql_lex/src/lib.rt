//! The tokens of a GraphQL document.
//!
//! `Lexer` gives the tokens of a text one after another, by section 2.1 of the standard of October
//! 2021, each with its kind, its slice of the text and its place, or says what stands there that is
//! no token. It takes no memory.
//!
//! Its contract: a lexer has passed some bytes of its text and has others left (`passed` and `left`
//! of specs/Tokens.antt), and `next` gives what `next_of` defines there. The tokens of a text are
//! determined: the contract of `tokens_are_determined`. Names and numbers are the longest at their
//! place: that of `the_longest_are_counted`. Strings are those of the standard, with its escapes:
//! that of `strings_are_those_of_the_standard`.
#![tactic(auto)]

mod laws;
mod lexer;
mod number;
mod place;
mod refusal;
mod run;
mod scan;
mod string;
mod token;

pub use laws::{
    every_text_has_tokens, strings_are_those_of_the_standard, the_longest_are_counted,
    tokens_are_determined, tokens_stand_in_their_text,
};
pub use lexer::Lexer;
pub use refusal::LexRefusal;
pub use token::{Token, TokenKind};
