//! Operations, fragments and documents: sections 2.2, 2.3 and 2.8 of the standard.

ghost use Rattle.std.specs.Prelude.{◌≡◌, option_map};
ghost use Rattle.gql_lex.specs.Tokens.{lexeme};
ghost use Rattle.gql_doc.specs.inner.Left.{left, text_end};
ghost use Rattle.gql_doc.specs.Grammar.{operation_kind};
ghost use Rattle.gql_doc.specs.Terminals.{is_name};
ghost use Rattle.gql_doc.specs.inner.Reading.{Gives, many, optional, name, short_operation, operation_definition, fragment_definition, any_definition, document, is_any};

use crate::parser::{Parser, Stop};
use crate::terminal::Terminal;
use gql_lex::Token;
use gql_model::{Definition, Document, FragmentDef, OperationDef, OperationKind};
use gql_tree::Listed;

impl<'a> Parser<'a> {
    /// `ExecutableDocument`
    #[tactic(auto, unfolding(crate::specs::inner::Reading::document))]
    pub(crate) fn document(&mut self, room: u32) -> Result<Document, Stop>
        ensures reads { Gives (λ x. x) result (left self.new) (document room (left self.old)) }
        ensures same { text_end self.new ≡ text_end self.old }
    {
        self.require(self.has_next())?;
        let definitions = self.definitions(room)?;
        Ok(Document { definitions })
    }

    /// `ExecutableDefinition*`, to the end of the tokens
    fn definitions(&mut self, room: u32) -> Result<Listed<Definition>, Stop>
        ensures reads { Gives (λ x. x) result (left self.new) (many is_any (any_definition room) (left self.old)) }
        ensures same { text_end self.new ≡ text_end self.old }
    {
        let mut definitions = Listed::new(self.alloc);
        while self.has_next() {
            definitions.push(self.definition(room)?)?;
        }
        Ok(definitions)
    }

    /// `ExecutableDefinition`
    #[tactic(auto, unfolding(crate::specs::inner::Reading::any_definition))]
    fn definition(&mut self, room: u32) -> Result<Definition, Stop>
        ensures reads { Gives (λ x. x) result (left self.new) (any_definition room (left self.old)) }
        ensures same { text_end self.new ≡ text_end self.old }
    {
        if self.next_is(Terminal::Punctuator("{")) {
            self.short_operation(room)
        } else if self.next_is(Terminal::OperationType) {
            self.operation(room)
        } else {
            self.fragment_definition(room)
        }
    }

    /// `OperationDefinition` that is its selection set alone
    #[tactic(auto, unfolding(crate::specs::inner::Reading::short_operation))]
    fn short_operation(&mut self, room: u32) -> Result<Definition, Stop>
        ensures reads { Gives (λ x. x) result (left self.new) (short_operation room (left self.old)) }
        ensures same { text_end self.new ≡ text_end self.old }
    {
        let (spot, selections) = self.selection_set(room)?;
        Ok(Definition::Operation(OperationDef {
            kind: OperationKind::Query,
            name: None,
            variables: Listed::new(self.alloc),
            directives: Listed::new(self.alloc),
            selections,
            spot,
        }))
    }

    /// `OperationDefinition` with its type
    #[tactic(auto, unfolding(crate::specs::inner::Reading::operation_definition))]
    fn operation(&mut self, room: u32) -> Result<Definition, Stop>
        ensures reads { Gives (λ x. x) result (left self.new) (operation_definition room (left self.old)) }
        ensures same { text_end self.new ≡ text_end self.old }
    {
        let word = self.take(Terminal::OperationType)?;
        let name = self.maybe_name()?;
        let variables = self.variable_definitions(room)?;
        let directives = self.directives(false, room)?;
        let selections = self.selections(room)?;
        Ok(Definition::Operation(OperationDef {
            kind: kind_of(&word),
            name: self.text_of(name)?,
            variables,
            directives,
            selections,
            spot: word.spot,
        }))
    }

    /// `Name?`
    fn maybe_name(&mut self) -> Result<Option<Token<'a>>, Stop>
        ensures reads { Gives (λ found. option_map lexeme found) result (left self.new) (optional is_name name (left self.old)) }
        ensures same { text_end self.new ≡ text_end self.old }
    {
        if !self.next_is(Terminal::Name) {
            return Ok(None);
        }
        Ok(Some(self.take(Terminal::Name)?))
    }

    /// `FragmentDefinition`
    #[tactic(auto, unfolding(crate::specs::inner::Reading::fragment_definition))]
    fn fragment_definition(&mut self, room: u32) -> Result<Definition, Stop>
        ensures reads { Gives (λ x. x) result (left self.new) (fragment_definition room (left self.old)) }
        ensures same { text_end self.new ≡ text_end self.old }
    {
        self.take(Terminal::Word("fragment"))?;
        let word = self.take(Terminal::FragmentName)?;
        let condition = self.type_condition()?;
        let directives = self.directives(false, room)?;
        let selections = self.selections(room)?;
        Ok(Definition::Fragment(FragmentDef {
            name: self.text(&word)?,
            condition: self.text(&condition)?,
            condition_spot: condition.spot,
            directives,
            selections,
            spot: word.spot,
        }))
    }
}

/// The type of operation that a token names, which is `query`, `mutation` or else `subscription`.
pub(crate) fn kind_of(word: &Token<'_>) -> OperationKind
    ensures { result ≡ operation_kind (lexeme word.now) }
{
    match word.text {
        "query" => OperationKind::Query,
        "mutation" => OperationKind::Mutation,
        _ => OperationKind::Subscription,
    }
}
