//! The lexer.

ghost use Rattle.std.specs.Prelude.{◌≡◌, ℕ, List, [], ◌++◌, ◌+◌, ◌<◌, ◌≤◌, ◌-◌, length, take, drop, slice_index, Some, IfOk, IfSome, IfNone, OnErr};
ghost use Rattle.gql_lex.specs.Places.{spot_at};

use crate::place::{behind_all, behind_blanks, behind_token};
use crate::refusal::LexRefusal;
use crate::run::blanks_len;
use crate::scan::{Found, front, refusal};
use crate::token::{Token, TokenKind};
use gql_tree::Spot;

/// Gives the tokens of a text one after another.
#[derive(Drop)]
pub struct Lexer<'a> {
    text: &'a str,
    /// How many bytes are done.
    start: usize,
    /// Where the next byte stands.
    spot: Spot,
    ghost within: { start ≤ length text.now },
    ghost few: { length text.now < 4294967295 },
    ghost place: { spot ≡ spot_at (take start text.now) (drop start text.now) },
    ghost line: { spot.line ≤ start + 1 },
    ghost column: { spot.column ≤ start + 1 },
}

impl<'a> Lexer<'a> {
    ghost use Rattle.gql_lex.specs.Front.{front};
    ghost use Rattle.gql_lex.specs.declared.scan.Found.TheVariants as found;
    ghost use Rattle.gql_lex.specs.Tokens.{passed, left, next_of, done_with, told};

    /// A lexer that stands before the first byte of a text, which has fewer than 4,294,967,295 bytes.
    pub fn new(text: &'a str) -> Lexer<'a>
        requires { length text.now < 4294967295 }
        ensures passed { passed result ≡ [] }
        ensures left { left result ≡ text.now }
    {
        Lexer {
            text,
            start: 0,
            spot: Spot { line: 1, column: 1 },
        }
    }

    /// The next token, none at the end of the text, or what stands there that is no token. At the end
    /// and after a refusal the lexer stays where it is, so each further call gives the same.
    pub fn next(&mut self) -> Result<Option<Token<'a>>, LexRefusal>
        ensures answer { told result ≡ next_of (passed self.old) (left self.old) }
        ensures passed { passed self.new ≡ passed self.old ++ take (done_with (left self.old)) (left self.old) }
        ensures left { left self.new ≡ drop (done_with (left self.old)) (left self.old) }
        ensures shorter { IfOk result (λ token. IfSome token (λ _. length (left self.new) < length (left self.old))) }
        ensures ended { IfOk result (λ token. IfNone token (self.new ≡ self.old)) }
        ensures refused { OnErr result (self.new ≡ self.old) }
    {
        let rest = self.rest();
        let blanks = blanks_len(rest);
        match front(&rest[blanks..]) {
            None => Ok(None),
            Some(Found::Token(kind, len)) => Ok(Some(self.give(blanks, kind, len))),
            Some(Found::Wrong(fault, inside)) => {
                let spot = behind_all(self.spot, rest, blanks + inside);
                Err(refusal(fault, spot))
            }
        }
    }

    /// How many bytes of the text are left.
    pub fn len(&self) -> usize
        ensures { result ≡ length (left self.now) }
    {
        self.text.len() - self.start
    }

    /// The place of the text's end.
    pub fn end(&self) -> Spot
        ensures { result ≡ spot_at (passed self.now ++ left self.now) [] }
    {
        let rest = self.rest();
        behind_all(self.spot, rest, rest.len())
    }

    /// The bytes of the text that are left.
    fn rest(&self) -> &'a [u8]
        ensures { result.now ≡ left self.now }
    {
        &self.text.as_bytes()[self.start..]
    }

    /// Gives the token of `len` bytes that stands behind `blanks` bytes, and goes behind it.
    fn give(&mut self, blanks: usize, kind: TokenKind, len: usize) -> Token<'a>
        requires found { front (drop blanks (left self.old)) ≡ Some (found.Token kind len) }
        requires some { 0 < len }
        requires fits { blanks + len ≤ length (left self.old) }
        requires first { slice_index (left self.old) blanks < 128 }
        requires last { slice_index (left self.old) (blanks + (len - 1)) < 128 }
        ensures kind { result.kind ≡ kind }
        ensures text { result.text.now ≡ take len (drop blanks (left self.old)) }
        ensures start { result.start ≡ self.old.start + blanks }
        ensures spot { result.spot ≡ spot_at (passed self.old ++ take blanks (left self.old)) (drop blanks (left self.old)) }
        ensures kept { self.new.text.now ≡ self.old.text.now }
        ensures behind { self.new.start ≡ self.old.start + (blanks + len) }
    {
        let text = self.text;
        let rest = self.rest();
        let start = self.start + blanks;
        let spot = behind_blanks(self.spot, rest, blanks);
        let behind = behind_token(spot, kind, &rest[blanks..], len);
        *self = Lexer {
            text,
            start: start + len,
            spot: behind,
        };
        Token {
            text: cut(text, start, len),
            start: start as u32,
            spot,
            kind,
        }
    }
}

/// The `len` bytes behind the first `start` ones.
fn cut(text: &str, start: usize, len: usize) -> &str
    requires some { 0 < len }
    requires fits { start + len ≤ length text.now }
    requires first { slice_index text.now start < 128 }
    requires last { slice_index text.now (start + (len - 1)) < 128 }
    ensures { result.now ≡ take len (drop start text.now) }
{
    let (_, here) = text.split_at(start);
    let (token, _) = here.split_at(len);
    token
}
