//! Variables and types: sections 2.10 and 2.11 of the standard.

ghost use Rattle.std.specs.Prelude.{codes, ◌≡◌, IfOk};
ghost use Rattle.gql_lex.specs.Tokens.{lexeme};
ghost use Rattle.gql_doc.specs.inner.Left.{left, text_end};
ghost use Rattle.gql_doc.specs.Terminals.{is_punctuator};
ghost use Rattle.gql_doc.specs.inner.Reading.{Gives, next_is, many, type_ref, list_type, named_type, maybe_non_null, variable_definition, behind_colon, variable_definitions, optional, default_value};

use crate::parser::{Parser, Stop};
use crate::terminal::Terminal;
use gql_lex::Token;
use gql_model::{Boxed, Literal, TypeRef, VariableDef};
use gql_tree::Listed;

impl Parser<'_> {
    /// `Type`
    #[cycle(type_ref)]
    #[tactic(auto, unfolding(crate::specs::inner::Reading::type_ref))]
    pub(crate) fn type_ref(&mut self, room: u32) -> Result<TypeRef, Stop>
        ensures reads { Gives (λ x. x) result (left self.new) (type_ref room (left self.old)) }
        ensures same { text_end self.new ≡ text_end self.old }
    {
        let inner = if self.next_is(Terminal::Name) {
            self.named_type()?
        } else {
            self.list_type(room)?
        };
        self.maybe_non_null(inner)
    }

    /// `NamedType`
    fn named_type(&mut self) -> Result<TypeRef, Stop>
        ensures reads { Gives (λ x. x) result (left self.new) (named_type (left self.old)) }
        ensures same { text_end self.new ≡ text_end self.old }
    {
        let word = self.take(Terminal::Name)?;
        Ok(TypeRef::Named(self.text(&word)?, word.spot))
    }

    /// `ListType`
    #[cycle(type_ref)]
    #[tactic(auto, using(crate::proofs::Rooms::list_type_more, crate::proofs::Rooms::list_type_none))]
    fn list_type(&mut self, room: u32) -> Result<TypeRef, Stop>
        ensures reads { Gives (λ x. x) result (left self.new) (list_type room (left self.old)) }
        ensures same { text_end self.new ≡ text_end self.old }
    {
        if room == 0 {
            return Err(Stop::where_shut(self.next_is(Terminal::Punctuator("["))));
        }
        self.take(Terminal::Punctuator("["))?;
        let item = self.type_ref(room - 1)?;
        self.take(Terminal::Punctuator("]"))?;
        Ok(TypeRef::List(Boxed::new(self.alloc, item)?))
    }

    /// The type with the `!` behind it, where one stands there.
    fn maybe_non_null(&mut self, inner: TypeRef) -> Result<TypeRef, Stop>
        ensures reads { Gives (λ x. x) result (left self.new) (maybe_non_null inner (left self.old)) }
        ensures same { text_end self.new ≡ text_end self.old }
    {
        if !self.next_is(Terminal::Punctuator("!")) {
            return Ok(inner);
        }
        self.take(Terminal::Punctuator("!"))?;
        Ok(TypeRef::NonNull(Boxed::new(self.alloc, inner)?))
    }

    /// `DefaultValue?`
    #[tactic(auto, unfolding(crate::specs::inner::Reading::default_value))]
    pub(crate) fn default_value(&mut self, room: u32) -> Result<Option<Literal>, Stop>
        ensures reads { Gives (λ x. x) result (left self.new) (optional (is_punctuator (codes "=")) (default_value room) (left self.old)) }
        ensures same { text_end self.new ≡ text_end self.old }
    {
        if !self.next_is(Terminal::Punctuator("=")) {
            return Ok(None);
        }
        self.take(Terminal::Punctuator("="))?;
        Ok(Some(self.value(true, room)?))
    }

    /// `VariableDefinition`
    #[tactic(auto, unfolding(crate::specs::inner::Reading::variable_definition))]
    fn variable_definition(&mut self, room: u32) -> Result<VariableDef, Stop>
        ensures reads { Gives (λ x. x) result (left self.new) (variable_definition room (left self.old)) }
        ensures same { text_end self.new ≡ text_end self.old }
    {
        let dollar = self.take(Terminal::Punctuator("$"))?;
        let word = self.take(Terminal::Name)?;
        self.take(Terminal::Punctuator(":"))?;
        self.behind_colon(room, &dollar, &word)
    }

    /// `VariableDefinition`, behind its colon
    #[tactic(auto, unfolding(crate::specs::inner::Reading::behind_colon))]
    fn behind_colon(
        &mut self,
        room: u32,
        dollar: &Token<'_>,
        word: &Token<'_>,
    ) -> Result<VariableDef, Stop>
        ensures reads { Gives (λ x. x) result (left self.new) (behind_colon room (lexeme dollar.now) (lexeme word.now) (left self.old)) }
        ensures same { text_end self.new ≡ text_end self.old }
    {
        let name = self.text(word)?;
        let kind = self.type_ref(room)?;
        let default = self.default_value(room)?;
        let directives = self.directives(true, room)?;
        Ok(VariableDef {
            name,
            kind,
            default,
            directives,
            spot: dollar.spot,
        })
    }

    /// `VariableDefinitions?`
    #[tactic(auto, unfolding(crate::specs::inner::Reading::variable_definitions))]
    pub(crate) fn variable_definitions(&mut self, room: u32) -> Result<Listed<VariableDef>, Stop>
        ensures reads { Gives (λ x. x) result (left self.new) (variable_definitions room (left self.old)) }
        ensures same { text_end self.new ≡ text_end self.old }
    {
        if !self.next_is(Terminal::Punctuator("(")) {
            return Ok(Listed::new(self.alloc));
        }
        self.take(Terminal::Punctuator("("))?;
        self.require(self.next_is(Terminal::Punctuator("$")))?;
        let variables = self.some_variables(room)?;
        self.take(Terminal::Punctuator(")"))?;
        Ok(variables)
    }

    /// `VariableDefinition*`
    fn some_variables(&mut self, room: u32) -> Result<Listed<VariableDef>, Stop>
        ensures reads { Gives (λ x. x) result (left self.new) (many (is_punctuator (codes "$")) (variable_definition room) (left self.old)) }
        ensures same { text_end self.new ≡ text_end self.old }
    {
        let mut variables = Listed::new(self.alloc);
        while self.next_is(Terminal::Punctuator("$")) {
            variables.push(self.variable_definition(room)?)?;
        }
        Ok(variables)
    }
}
