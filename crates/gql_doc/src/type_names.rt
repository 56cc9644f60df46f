//! Names in type definitions, with where they stand, and lists of names: sections 3.2, 3.6 and 3.8 of the standard.

ghost use Rattle.std.specs.Prelude.{◌≡◌, option_map};
ghost use Rattle.gql_lex.specs.Tokens.{lexeme};
ghost use Rattle.gql_doc.specs.inner.Left.{left, text_end};
ghost use Rattle.gql_doc.specs.inner.Matches.{matches};
ghost use Rattle.gql_doc.specs.inner.Reading.{Gives, next_is};
ghost use Rattle.gql_doc.specs.inner.TypeReading.{maybe, named, separated, names, names_behind, begins_described};

use crate::parser::{Parser, Stop};
use crate::terminal::Terminal;
use gql_lex::Token;
use gql_model::NameAt;
use gql_tree::Listed;

impl<'a> Parser<'a> {
    /// The next token, where it is this terminal.
    pub(crate) fn maybe(&mut self, terminal: Terminal) -> Result<Option<Token<'a>>, Stop>
        ensures reads { Gives (λ found. option_map lexeme found) result (left self.new) (maybe (matches terminal) (left self.old)) }
        ensures same { text_end self.new ≡ text_end self.old }
    {
        if !self.next_is(terminal) {
            return Ok(None);
        }
        Ok(Some(self.take(terminal)?))
    }

    /// Whether the next token begins a name that may have a description.
    pub(crate) fn next_is_described(&self) -> bool
        ensures { result ≡ next_is begins_described (left self.now) }
    {
        self.next_is(Terminal::StringValue) || self.next_is(Terminal::Name)
    }

    /// `Name` or `NamedType`
    pub(crate) fn named(&mut self) -> Result<NameAt, Stop>
        ensures reads { Gives (λ x. x) result (left self.new) (named (left self.old)) }
        ensures same { text_end self.new ≡ text_end self.old }
    {
        let word = self.take(Terminal::Name)?;
        Ok(NameAt {
            name: self.text(&word)?,
            spot: word.spot,
        })
    }

    /// Names with a separator between two of them, which may also stand before the first
    #[tactic(auto, unfolding(crate::specs::inner::TypeReading::names))]
    pub(crate) fn names(&mut self, separator: &'static str) -> Result<Listed<NameAt>, Stop>
        ensures reads { Gives (λ x. x) result (left self.new) (names separator.now (left self.old)) }
        ensures same { text_end self.new ≡ text_end self.old }
    {
        self.maybe(Terminal::Punctuator(separator))?;
        let first = self.named()?;
        self.names_behind(separator, first)
    }

    /// The first of such names, and those behind it
    fn names_behind(
        &mut self,
        separator: &'static str,
        first: NameAt,
    ) -> Result<Listed<NameAt>, Stop>
        ensures reads { Gives (λ x. x) result (left self.new) (names_behind separator.now first (left self.old)) }
        ensures same { text_end self.new ≡ text_end self.old }
    {
        let mut names = Listed::new(self.alloc);
        names.push(first)?;
        while self.next_is(Terminal::Punctuator(separator)) {
            names.push(self.separated(separator)?)?;
        }
        Ok(names)
    }

    /// A separator and the name behind it
    #[tactic(auto, unfolding(crate::specs::inner::TypeReading::separated))]
    fn separated(&mut self, separator: &'static str) -> Result<NameAt, Stop>
        ensures reads { Gives (λ x. x) result (left self.new) (separated separator.now (left self.old)) }
        ensures same { text_end self.new ≡ text_end self.old }
    {
        self.take(Terminal::Punctuator(separator))?;
        self.named()
    }
}
