//! Schemas, directives and documents of type definitions: sections 3, 3.3 and 3.13 of the standard.

ghost use Rattle.std.specs.Prelude.{◌≡◌};
ghost use Rattle.gql_doc.specs.inner.Left.{left, text_end};
ghost use Rattle.gql_doc.specs.Terminals.{is_name};
ghost use Rattle.gql_doc.specs.inner.Reading.{Gives, many, is_any};
ghost use Rattle.gql_doc.specs.inner.TypeReading.{root_type, root_types, schema_definition, directive_definition, undescribed_definition, system_definition, type_document};

use crate::definitions::kind_of;
use crate::parser::{Parser, Stop};
use crate::terminal::Terminal;
use gql_model::{RootSyntax, TypeDocument, TypeSyntax};
use gql_tree::Listed;

impl Parser<'_> {
    /// `TypeSystemDocument`
    #[tactic(auto, unfolding(crate::specs::inner::TypeReading::type_document))]
    pub(crate) fn type_document(&mut self, room: u32) -> Result<TypeDocument, Stop>
        ensures reads { Gives (λ x. x) result (left self.new) (type_document room (left self.old)) }
        ensures same { text_end self.new ≡ text_end self.old }
    {
        self.require(self.has_next())?;
        let definitions = self.system_definitions(room)?;
        Ok(TypeDocument { definitions })
    }

    /// `TypeSystemDefinition*`, to the end of the tokens
    fn system_definitions(&mut self, room: u32) -> Result<Listed<TypeSyntax>, Stop>
        ensures reads { Gives (λ x. x) result (left self.new) (many is_any (system_definition room) (left self.old)) }
        ensures same { text_end self.new ≡ text_end self.old }
    {
        let mut definitions = Listed::new(self.alloc);
        while self.has_next() {
            definitions.push(self.system_definition(room)?)?;
        }
        Ok(definitions)
    }

    /// `TypeSystemDefinition`
    #[tactic(auto, unfolding(crate::specs::inner::TypeReading::system_definition))]
    fn system_definition(&mut self, room: u32) -> Result<TypeSyntax, Stop>
        ensures reads { Gives (λ x. x) result (left self.new) (system_definition room (left self.old)) }
        ensures same { text_end self.new ≡ text_end self.old }
    {
        self.maybe(Terminal::StringValue)?;
        self.undescribed_definition(room)
    }

    /// `TypeSystemDefinition`, behind its description
    #[tactic(auto, unfolding(crate::specs::inner::TypeReading::undescribed_definition))]
    fn undescribed_definition(&mut self, room: u32) -> Result<TypeSyntax, Stop>
        ensures reads { Gives (λ x. x) result (left self.new) (undescribed_definition room (left self.old)) }
        ensures same { text_end self.new ≡ text_end self.old }
    {
        if self.next_is(Terminal::Word("schema")) {
            self.schema_definition(room)
        } else if self.next_is(Terminal::Word("directive")) {
            self.directive_definition(room)
        } else {
            self.type_definition(room)
        }
    }

    /// `SchemaDefinition`, behind its description
    #[tactic(auto, unfolding(crate::specs::inner::TypeReading::schema_definition))]
    fn schema_definition(&mut self, room: u32) -> Result<TypeSyntax, Stop>
        ensures reads { Gives (λ x. x) result (left self.new) (schema_definition room (left self.old)) }
        ensures same { text_end self.new ≡ text_end self.old }
    {
        let word = self.take(Terminal::Word("schema"))?;
        self.directives(true, room)?;
        let roots = self.root_types(room)?;
        Ok(TypeSyntax::Schema(roots, word.spot))
    }

    /// `RootOperationTypeDefinition+` in braces
    #[tactic(auto, unfolding(crate::specs::inner::TypeReading::root_types), using(crate::proofs::Rooms::braced_more, crate::proofs::Rooms::braced_none))]
    fn root_types(&mut self, room: u32) -> Result<Listed<RootSyntax>, Stop>
        ensures reads { Gives (λ x. x) result (left self.new) (root_types room (left self.old)) }
        ensures same { text_end self.new ≡ text_end self.old }
    {
        if room == 0 {
            return Err(Stop::where_shut(self.next_is(Terminal::Punctuator("{"))));
        }
        self.take(Terminal::Punctuator("{"))?;
        self.require(self.next_is(Terminal::Name))?;
        let roots = self.some_root_types()?;
        self.take(Terminal::Punctuator("}"))?;
        Ok(roots)
    }

    /// `RootOperationTypeDefinition*`
    fn some_root_types(&mut self) -> Result<Listed<RootSyntax>, Stop>
        ensures reads { Gives (λ x. x) result (left self.new) (many is_name root_type (left self.old)) }
        ensures same { text_end self.new ≡ text_end self.old }
    {
        let mut roots = Listed::new(self.alloc);
        while self.next_is(Terminal::Name) {
            roots.push(self.root_type()?)?;
        }
        Ok(roots)
    }

    /// `RootOperationTypeDefinition`
    #[tactic(auto, unfolding(crate::specs::inner::TypeReading::root_type))]
    fn root_type(&mut self) -> Result<RootSyntax, Stop>
        ensures reads { Gives (λ x. x) result (left self.new) (root_type (left self.old)) }
        ensures same { text_end self.new ≡ text_end self.old }
    {
        let word = self.take(Terminal::OperationType)?;
        self.take(Terminal::Punctuator(":"))?;
        let name = self.named()?;
        Ok(RootSyntax {
            kind: kind_of(&word),
            kind_spot: word.spot,
            name,
        })
    }

    /// `DirectiveDefinition`, behind its description
    #[tactic(auto, unfolding(crate::specs::inner::TypeReading::directive_definition))]
    fn directive_definition(&mut self, room: u32) -> Result<TypeSyntax, Stop>
        ensures reads { Gives (λ x. x) result (left self.new) (directive_definition room (left self.old)) }
        ensures same { text_end self.new ≡ text_end self.old }
    {
        self.take(Terminal::Word("directive"))?;
        self.take(Terminal::Punctuator("@"))?;
        let name = self.named()?;
        let arguments = self.arguments_definition(room)?;
        self.maybe(Terminal::Word("repeatable"))?;
        self.take(Terminal::Word("on"))?;
        let locations = self.names("|")?;
        Ok(TypeSyntax::Directive(name, arguments, locations))
    }
}
