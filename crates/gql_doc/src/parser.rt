//! The parser: a lexer, and one token ahead.

ghost use Rattle.std.specs.Prelude.{◌≡◌, ℕ, ◌<◌, length, List, [], Option, IfSome, IfNone, Some, None, Bool, MatchResult, OnOk, IfErr, true, false, option_map};
ghost use Rattle.gql_lex.specs.Tokens.{Lexeme, lexeme};
ghost use Rattle.gql_doc.specs.inner.Matches.{matches};

use crate::terminal::Terminal;
use gql_lex::{LexRefusal, Lexer, Token};
use gql_tree::{NoMemory, Spot, Text};
use std::alloc::Global;

/// Why the parser stops, at the token where it stands.
#[derive(Clone, Copy, Debug, PartialEq, Eq)]
pub(crate) enum Stop {
    /// No document goes on so.
    Unexpected,
    /// A brace or bracket is opened too deep.
    TooDeep,
    NoMemory,
}

impl Stop {
    ghost use Rattle.std.specs.Prelude.{◌≡◌, if◌then◌else◌};
    ghost use Rattle.gql_doc.specs.declared.parser.Stop.TheVariants as stop;

    /// Why the parser stops where nothing more may be opened, by whether the next token opens something.
    pub(crate) fn where_shut(opens: bool) -> Stop
        ensures { result ≡ (if opens then stop.TooDeep else stop.Unexpected) }
    {
        if opens {
            Stop::TooDeep
        } else {
            Stop::Unexpected
        }
    }
}

impl From<NoMemory> for Stop {
    ghost use Rattle.std.specs.Prelude.{◌≡◌};
    ghost use Rattle.gql_doc.specs.declared.parser.Stop.TheVariants as stop;

    ghost from_gives = { λ _ why. why ≡ stop.NoMemory };

    fn from(_error: NoMemory) -> Stop {
        Stop::NoMemory
    }
}

/// A lexer, and the token that it gave last, which is the next one. Where a method stops, the parser
/// stands before the token that is in the way.
#[derive(Drop)]
pub(crate) struct Parser<'a> {
    pub(crate) alloc: Global,
    lexer: Lexer<'a>,
    /// What the lexer gave last.
    next: Result<Option<Token<'a>>, LexRefusal>,
}

impl<'a> Parser<'a> {
    ghost use Rattle.gql_lex.specs.Tokens as lexer;
    ghost use Rattle.gql_lex.specs.Tokens.{passed};
    ghost use Rattle.gql_doc.specs.inner.Left.{left, text_end, text_of, coming_to, coming, end_of};
    ghost use Rattle.gql_doc.specs.inner.Outcomes.{next_spot};
    ghost use Rattle.gql_doc.specs.inner.Reading.{Gives, next_is, is_any, take};
    ghost use Rattle.gql_doc.specs.declared.parser.Stop.TheVariants as stop;

    /// A parser that stands before the first token of a text, which has fewer than 4,294,967,295 bytes.
    #[tactic(auto, unfolding(crate::specs::inner::Left::left, crate::specs::inner::Left::text_end))]
    pub(crate) fn new(alloc: Global, text: &'a str) -> Parser<'a>
        requires { length text.now < 4294967295 }
        ensures left { left result ≡ (coming [] text.now).tokens }
        ensures end { text_end result ≡ end_of text.now }
    {
        let mut parser = Parser {
            alloc,
            lexer: Lexer::new(text),
            next: Ok(None),
        };
        parser.advance();
        parser
    }

    /// Takes what the lexer gives next for the next token.
    fn advance(&mut self)
        ensures coming { coming_to self.new ≡ coming (passed self.old.lexer) (lexer.left self.old.lexer) }
        ensures text { text_of self.new.lexer ≡ text_of self.old.lexer }
    {
        self.next = self.lexer.next();
    }

    /// Whether a token is left.
    #[tactic(auto, unfolding(crate::specs::inner::Left::left))]
    pub(crate) fn has_next(&self) -> bool
        ensures { result ≡ next_is is_any (left self.now) }
    {
        matches!(self.next, Ok(Some(_)))
    }

    /// Whether the next token is this terminal.
    #[inline(always)]
    #[tactic(auto, unfolding(crate::specs::inner::Left::left))]
    pub(crate) fn next_is(&self, terminal: Terminal) -> bool
        ensures { result ≡ next_is (matches terminal) (left self.now) }
    {
        match &self.next {
            Ok(Some(token)) => terminal.matches(token),
            _ => false,
        }
    }

    /// Takes the next token, which is to be this terminal.
    #[inline(always)]
    #[tactic(auto, unfolding(crate::specs::inner::Left::left, crate::specs::inner::Left::text_end))]
    pub(crate) fn take(&mut self, terminal: Terminal) -> Result<Token<'a>, Stop>
        ensures reads { Gives lexeme result (left self.new) (take (matches terminal) (left self.old)) }
        ensures same { text_end self.new ≡ text_end self.old }
    {
        let Ok(Some(token)) = self.next else {
            return Err(Stop::Unexpected);
        };
        if !terminal.matches(&token) {
            return Err(Stop::Unexpected);
        }
        self.advance();
        // Made of its fields, which are read one by one: a copy of the whole waits for those just written.
        Ok(Token {
            text: token.text,
            start: token.start,
            spot: token.spot,
            kind: token.kind,
        })
    }

    /// Where the next token begins.
    #[tactic(auto, unfolding(crate::specs::inner::Left::left))]
    pub(crate) fn next_spot(&self) -> Option<Spot>
        ensures { result ≡ next_spot (left self.now) }
    {
        match &self.next {
            Ok(Some(token)) => Some(token.spot),
            _ => None,
        }
    }

    /// Where the text ends, or what stands there that is no token. No token is left.
    #[tactic(auto, unfolding(crate::specs::inner::Left::left, crate::specs::inner::Left::text_end))]
    pub(crate) fn end(&self) -> Result<Spot, LexRefusal>
        requires { left self.now ≡ [] }
        ensures { result ≡ text_end self.now }
    {
        match &self.next {
            Ok(_) => Ok(self.lexer.end()),
            Err(refusal) => Err(*refusal),
        }
    }

    /// The text of a token.
    pub(crate) fn text(&self, token: &Token<'_>) -> Result<Text, Stop>
        ensures { MatchResult result (λ text. text ≡ token.now.text.now) (λ why. why ≡ stop.NoMemory) }
    {
        Ok(Text::copy_of(self.alloc, token.text)?)
    }

    /// Stops where `holds` doesn't hold.
    pub(crate) fn require(&self, holds: bool) -> Result<(), Stop>
        ensures ok { OnOk result (holds ≡ true) }
        ensures err { IfErr result (λ why. (why ≡ stop.Unexpected) × (holds ≡ false)) }
    {
        if holds { Ok(()) } else { Err(Stop::Unexpected) }
    }

    /// The text of a token, where there is one.
    pub(crate) fn text_of(&self, token: Option<Token<'_>>) -> Result<Option<Text>, Stop>
        ensures { MatchResult result (λ text. text ≡ option_map (λ token. token.text.now) token.entry) (λ why. why ≡ stop.NoMemory) }
    {
        match token {
            Some(token) => Ok(Some(self.text(&token)?)),
            None => Ok(None),
        }
    }
}
