//! Fields, their arguments and input fields: sections 3.6 and 3.10 of the standard.
//!
//! `room` is how many braces and brackets may still be opened.

ghost use Rattle.std.specs.Prelude.{◌≡◌, codes};
ghost use Rattle.gql_doc.specs.inner.Left.{left, text_end};
ghost use Rattle.gql_doc.specs.Terminals.{is_punctuator};
ghost use Rattle.gql_doc.specs.inner.Reading.{Gives, many};
ghost use Rattle.gql_doc.specs.inner.TypeReading.{braced, begins_described, input_value, arguments_definition, input_fields, field_definition, fields_definition};

use crate::parser::{Parser, Stop};
use crate::terminal::Terminal;
use gql_model::{FieldSyntax, InputSyntax};
use gql_tree::Listed;

impl Parser<'_> {
    /// `InputValueDefinition`
    #[tactic(auto, unfolding(crate::specs::inner::TypeReading::input_value))]
    fn input_value(&mut self, room: u32) -> Result<InputSyntax, Stop>
        ensures reads { Gives (λ x. x) result (left self.new) (input_value room (left self.old)) }
        ensures same { text_end self.new ≡ text_end self.old }
    {
        self.maybe(Terminal::StringValue)?;
        let name = self.named()?;
        self.take(Terminal::Punctuator(":"))?;
        let kind = self.type_ref(room)?;
        let default = self.default_value(room)?;
        self.directives(true, room)?;
        Ok(InputSyntax {
            name,
            kind,
            default,
        })
    }

    /// `InputValueDefinition*`
    fn input_values(&mut self, room: u32) -> Result<Listed<InputSyntax>, Stop>
        ensures reads { Gives (λ x. x) result (left self.new) (many begins_described (input_value room) (left self.old)) }
        ensures same { text_end self.new ≡ text_end self.old }
    {
        let mut inputs = Listed::new(self.alloc);
        while self.next_is_described() {
            inputs.push(self.input_value(room)?)?;
        }
        Ok(inputs)
    }

    /// `ArgumentsDefinition?`
    #[tactic(auto, unfolding(crate::specs::inner::TypeReading::arguments_definition))]
    pub(crate) fn arguments_definition(&mut self, room: u32) -> Result<Listed<InputSyntax>, Stop>
        ensures reads { Gives (λ x. x) result (left self.new) (arguments_definition room (left self.old)) }
        ensures same { text_end self.new ≡ text_end self.old }
    {
        if !self.next_is(Terminal::Punctuator("(")) {
            return Ok(Listed::new(self.alloc));
        }
        self.take(Terminal::Punctuator("("))?;
        self.require(self.next_is_described())?;
        let arguments = self.input_values(room)?;
        self.take(Terminal::Punctuator(")"))?;
        Ok(arguments)
    }

    /// `InputFieldsDefinition?`
    #[tactic(auto, unfolding(crate::specs::inner::TypeReading::input_fields))]
    pub(crate) fn input_fields(&mut self, room: u32) -> Result<Listed<InputSyntax>, Stop>
        ensures reads { Gives (λ x. x) result (left self.new) (input_fields room (left self.old)) }
        ensures same { text_end self.new ≡ text_end self.old }
    {
        if self.next_is(Terminal::Punctuator("{")) {
            self.braced_inputs(room)
        } else {
            Ok(Listed::new(self.alloc))
        }
    }

    /// `InputFieldsDefinition`
    #[tactic(auto, using(crate::proofs::Rooms::braced_more, crate::proofs::Rooms::braced_none))]
    fn braced_inputs(&mut self, room: u32) -> Result<Listed<InputSyntax>, Stop>
        ensures reads { Gives (λ x. x) result (left self.new) (braced room begins_described input_value (left self.old)) }
        ensures same { text_end self.new ≡ text_end self.old }
    {
        if room == 0 {
            return Err(Stop::where_shut(self.next_is(Terminal::Punctuator("{"))));
        }
        self.take(Terminal::Punctuator("{"))?;
        self.require(self.next_is_described())?;
        let inputs = self.input_values(room - 1)?;
        self.take(Terminal::Punctuator("}"))?;
        Ok(inputs)
    }

    /// `FieldDefinition`
    #[tactic(auto, unfolding(crate::specs::inner::TypeReading::field_definition))]
    fn field_definition(&mut self, room: u32) -> Result<FieldSyntax, Stop>
        ensures reads { Gives (λ x. x) result (left self.new) (field_definition room (left self.old)) }
        ensures same { text_end self.new ≡ text_end self.old }
    {
        self.maybe(Terminal::StringValue)?;
        let name = self.named()?;
        let arguments = self.arguments_definition(room)?;
        self.take(Terminal::Punctuator(":"))?;
        let kind = self.type_ref(room)?;
        self.directives(true, room)?;
        Ok(FieldSyntax {
            name,
            arguments,
            kind,
        })
    }

    /// `FieldDefinition*`
    fn field_definitions(&mut self, room: u32) -> Result<Listed<FieldSyntax>, Stop>
        ensures reads { Gives (λ x. x) result (left self.new) (many begins_described (field_definition room) (left self.old)) }
        ensures same { text_end self.new ≡ text_end self.old }
    {
        let mut fields = Listed::new(self.alloc);
        while self.next_is_described() {
            fields.push(self.field_definition(room)?)?;
        }
        Ok(fields)
    }

    /// `FieldsDefinition?`
    #[tactic(auto, unfolding(crate::specs::inner::TypeReading::fields_definition))]
    pub(crate) fn fields_definition(&mut self, room: u32) -> Result<Listed<FieldSyntax>, Stop>
        ensures reads { Gives (λ x. x) result (left self.new) (fields_definition room (left self.old)) }
        ensures same { text_end self.new ≡ text_end self.old }
    {
        if self.next_is(Terminal::Punctuator("{")) {
            self.braced_fields(room)
        } else {
            Ok(Listed::new(self.alloc))
        }
    }

    /// `FieldsDefinition`
    #[tactic(auto, using(crate::proofs::Rooms::braced_more, crate::proofs::Rooms::braced_none))]
    fn braced_fields(&mut self, room: u32) -> Result<Listed<FieldSyntax>, Stop>
        ensures reads { Gives (λ x. x) result (left self.new) (braced room begins_described field_definition (left self.old)) }
        ensures same { text_end self.new ≡ text_end self.old }
    {
        if room == 0 {
            return Err(Stop::where_shut(self.next_is(Terminal::Punctuator("{"))));
        }
        self.take(Terminal::Punctuator("{"))?;
        self.require(self.next_is_described())?;
        let fields = self.field_definitions(room - 1)?;
        self.take(Terminal::Punctuator("}"))?;
        Ok(fields)
    }
}
