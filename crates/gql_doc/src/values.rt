//! Values, arguments and directives: sections 2.6, 2.9 and 2.12 of the standard.
//!
//! A method reads its production from the next token on. `room` is how many braces and brackets may
//! still be opened.

ghost use Rattle.std.specs.Prelude.{◌≡◌, ◌∷◌, [], codes, List, IfOk};
ghost use Rattle.gql_lex.specs.Tokens.{lexeme};
ghost use Rattle.gql_doc.specs.inner.Left.{left, text_end};
ghost use Rattle.gql_doc.specs.Terminals.{is_punctuator, is_name, is_number, is_string};
ghost use Rattle.gql_doc.specs.inner.Reading.{Gives, next_is, many, value, nested, argument, arguments, directive, directives, begins_value, variable, number, string, word, list_value, object_value};

use crate::parser::{Parser, Stop};
use crate::string_token::string_value;
use crate::terminal::Terminal;
use gql_model::{Argument, DirectiveUse, Literal};
use gql_tree::Listed;

impl Parser<'_> {
    /// `Value`
    #[cycle(value)]
    pub(crate) fn value(&mut self, constant: bool, room: u32) -> Result<Literal, Stop>
        ensures reads { Gives (λ x. x) result (left self.new) (value constant room (left self.old)) }
        ensures same { text_end self.new ≡ text_end self.old }
    {
        if self.next_is(Terminal::Punctuator("$")) {
            return self.variable(constant);
        }
        if self.next_is(Terminal::Number) {
            return self.number();
        }
        if self.next_is(Terminal::StringValue) {
            return self.string();
        }
        if self.next_is(Terminal::Name) {
            return self.word();
        }
        self.nested(constant, room)
    }

    /// `"$" Name`. A constant value has none.
    fn variable(&mut self, constant: bool) -> Result<Literal, Stop>
        ensures reads { Gives (λ x. x) result (left self.new) (variable constant (left self.old)) }
        ensures same { text_end self.new ≡ text_end self.old }
    {
        if constant {
            return Err(Stop::Unexpected);
        }
        let dollar = self.take(Terminal::Punctuator("$"))?;
        let word = self.take(Terminal::Name)?;
        Ok(Literal::Variable(self.text(&word)?, dollar.spot))
    }

    /// `IntValue`
    fn number(&mut self) -> Result<Literal, Stop>
        ensures reads { Gives (λ x. x) result (left self.new) (number (left self.old)) }
        ensures same { text_end self.new ≡ text_end self.old }
    {
        let number = self.take(Terminal::Number)?;
        Ok(Literal::Int(self.text(&number)?, number.spot))
    }

    /// `StringValue`
    fn string(&mut self) -> Result<Literal, Stop>
        ensures reads { Gives (λ x. x) result (left self.new) (string (left self.old)) }
        ensures same { text_end self.new ≡ text_end self.old }
    {
        let string = self.take(Terminal::StringValue)?;
        Ok(Literal::Text(string_value(self.alloc, &string)?, string.spot))
    }

    /// `BooleanValue`, `NullValue` or `EnumValue`
    fn word(&mut self) -> Result<Literal, Stop>
        ensures reads { Gives (λ x. x) result (left self.new) (word (left self.old)) }
        ensures same { text_end self.new ≡ text_end self.old }
    {
        let word = self.take(Terminal::Name)?;
        match word.text {
            "true" => Ok(Literal::Bool(true, word.spot)),
            "false" => Ok(Literal::Bool(false, word.spot)),
            "null" => Ok(Literal::Null(word.spot)),
            _ => Ok(Literal::Enum(self.text(&word)?, word.spot)),
        }
    }

    /// `ListValue` or `ObjectValue`
    #[cycle(value)]
    #[tactic(auto, using(crate::proofs::Rooms::nested_more, crate::proofs::Rooms::nested_none))]
    fn nested(&mut self, constant: bool, room: u32) -> Result<Literal, Stop>
        ensures reads { Gives (λ x. x) result (left self.new) (nested constant room (left self.old)) }
        ensures same { text_end self.new ≡ text_end self.old }
    {
        let is_list = self.next_is(Terminal::Punctuator("["));
        if room == 0 {
            return Err(Stop::where_shut(is_list || self.next_is(Terminal::Punctuator("{"))));
        }
        if is_list {
            self.list_value(constant, room - 1)
        } else {
            self.object_value(constant, room - 1)
        }
    }

    /// `ListValue`, whose items may open `room` more.
    #[cycle(value)]
    fn list_value(&mut self, constant: bool, room: u32) -> Result<Literal, Stop>
        ensures reads { Gives (λ x. x) result (left self.new) (list_value (value constant room) (left self.old)) }
        ensures same { text_end self.new ≡ text_end self.old }
    {
        let opening = self.take(Terminal::Punctuator("["))?;
        let items = self.values(constant, room)?;
        self.take(Terminal::Punctuator("]"))?;
        Ok(Literal::List(items, opening.spot))
    }

    /// `Value*`
    #[cycle(value)]
    fn values(&mut self, constant: bool, room: u32) -> Result<Listed<Literal>, Stop>
        ensures reads { Gives (λ x. x) result (left self.new) (many begins_value (value constant room) (left self.old)) }
        ensures same { text_end self.new ≡ text_end self.old }
    {
        let mut values = Listed::new(self.alloc);
        while self.next_is_value() {
            values.push(self.value(constant, room)?)?;
        }
        Ok(values)
    }

    /// Whether the next token begins a value.
    fn next_is_value(&self) -> bool
        ensures { result ≡ next_is begins_value (left self.now) }
    {
        self.next_is(Terminal::Punctuator("$"))
            || self.next_is(Terminal::Number)
            || self.next_is(Terminal::StringValue)
            || self.next_is(Terminal::Name)
            || self.next_is(Terminal::Punctuator("["))
            || self.next_is(Terminal::Punctuator("{"))
    }

    /// `ObjectValue`, whose values may open `room` more.
    #[cycle(value)]
    fn object_value(&mut self, constant: bool, room: u32) -> Result<Literal, Stop>
        ensures reads { Gives (λ x. x) result (left self.new) (object_value (value constant room) (left self.old)) }
        ensures same { text_end self.new ≡ text_end self.old }
    {
        let opening = self.take(Terminal::Punctuator("{"))?;
        let members = self.members(constant, room)?;
        self.take(Terminal::Punctuator("}"))?;
        Ok(Literal::Object(members, opening.spot))
    }

    /// `(Name ":" Value)*`
    #[cycle(value)]
    fn members(&mut self, constant: bool, room: u32) -> Result<Listed<Argument>, Stop>
        ensures reads { Gives (λ x. x) result (left self.new) (many is_name (argument (value constant room)) (left self.old)) }
        ensures same { text_end self.new ≡ text_end self.old }
    {
        let mut members = Listed::new(self.alloc);
        while self.next_is(Terminal::Name) {
            members.push(self.argument(constant, room)?)?;
        }
        Ok(members)
    }

    /// `Name ":" Value`, an argument or an object's field
    #[cycle(value)]
    #[tactic(auto, unfolding(crate::specs::inner::Reading::argument))]
    fn argument(&mut self, constant: bool, room: u32) -> Result<Argument, Stop>
        ensures reads { Gives (λ x. x) result (left self.new) (argument (value constant room) (left self.old)) }
        ensures same { text_end self.new ≡ text_end self.old }
    {
        let word = self.take(Terminal::Name)?;
        self.take(Terminal::Punctuator(":"))?;
        let name = self.text(&word)?;
        let value = self.value(constant, room)?;
        Ok(Argument {
            name,
            value,
            spot: word.spot,
        })
    }

    /// `Arguments?`
    #[tactic(auto, unfolding(crate::specs::inner::Reading::arguments))]
    pub(crate) fn arguments(&mut self, constant: bool, room: u32) -> Result<Listed<Argument>, Stop>
        ensures reads { Gives (λ x. x) result (left self.new) (arguments constant room (left self.old)) }
        ensures same { text_end self.new ≡ text_end self.old }
    {
        if !self.next_is(Terminal::Punctuator("(")) {
            return Ok(Listed::new(self.alloc));
        }
        self.take(Terminal::Punctuator("("))?;
        self.require(self.next_is(Terminal::Name))?;
        let arguments = self.members(constant, room)?;
        self.take(Terminal::Punctuator(")"))?;
        Ok(arguments)
    }

    /// `Directive`
    #[tactic(auto, unfolding(crate::specs::inner::Reading::directive))]
    fn directive(&mut self, constant: bool, room: u32) -> Result<DirectiveUse, Stop>
        ensures reads { Gives (λ x. x) result (left self.new) (directive constant room (left self.old)) }
        ensures same { text_end self.new ≡ text_end self.old }
    {
        let at = self.take(Terminal::Punctuator("@"))?;
        let word = self.take(Terminal::Name)?;
        let arguments = self.arguments(constant, room)?;
        Ok(DirectiveUse {
            name: self.text(&word)?,
            arguments,
            spot: at.spot,
        })
    }

    /// `Directive*`
    #[tactic(auto, unfolding(crate::specs::inner::Reading::directives))]
    pub(crate) fn directives(
        &mut self,
        constant: bool,
        room: u32,
    ) -> Result<Listed<DirectiveUse>, Stop>
        ensures reads { Gives (λ x. x) result (left self.new) (directives constant room (left self.old)) }
        ensures same { text_end self.new ≡ text_end self.old }
    {
        let mut directives = Listed::new(self.alloc);
        while self.next_is(Terminal::Punctuator("@")) {
            directives.push(self.directive(constant, room)?)?;
        }
        Ok(directives)
    }
}
