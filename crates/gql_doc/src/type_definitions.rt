//! Types: sections 3.4 to 3.10 of the standard. Each method reads a definition behind its description.

ghost use Rattle.std.specs.Prelude.{◌≡◌};
ghost use Rattle.gql_doc.specs.inner.Left.{left, text_end};
ghost use Rattle.gql_doc.specs.inner.Reading.{Gives, many};
ghost use Rattle.gql_doc.specs.inner.TypeReading.{braced, begins_described, implements, scalar_definition, object_definition, interface_definition, union_members, union_definition, enum_value, enum_values, enum_definition, input_definition, type_definition};

use crate::parser::{Parser, Stop};
use crate::terminal::Terminal;
use gql_model::{NameAt, TypeSyntax};
use gql_tree::Listed;

impl Parser<'_> {
    /// `TypeDefinition`
    #[tactic(auto, unfolding(crate::specs::inner::TypeReading::type_definition))]
    pub(crate) fn type_definition(&mut self, room: u32) -> Result<TypeSyntax, Stop>
        ensures reads { Gives (λ x. x) result (left self.new) (type_definition room (left self.old)) }
        ensures same { text_end self.new ≡ text_end self.old }
    {
        if self.next_is(Terminal::Word("scalar")) {
            return self.scalar_definition(room);
        }
        if self.next_is(Terminal::Word("type")) {
            return self.object_definition(room);
        }
        if self.next_is(Terminal::Word("interface")) {
            return self.interface_definition(room);
        }
        if self.next_is(Terminal::Word("union")) {
            return self.union_definition(room);
        }
        if self.next_is(Terminal::Word("enum")) {
            return self.enum_definition(room);
        }
        self.input_definition(room)
    }

    /// `ScalarTypeDefinition`
    #[tactic(auto, unfolding(crate::specs::inner::TypeReading::scalar_definition))]
    fn scalar_definition(&mut self, room: u32) -> Result<TypeSyntax, Stop>
        ensures reads { Gives (λ x. x) result (left self.new) (scalar_definition room (left self.old)) }
        ensures same { text_end self.new ≡ text_end self.old }
    {
        self.take(Terminal::Word("scalar"))?;
        let name = self.named()?;
        self.directives(true, room)?;
        Ok(TypeSyntax::Scalar(name))
    }

    /// `ObjectTypeDefinition`
    #[tactic(auto, unfolding(crate::specs::inner::TypeReading::object_definition))]
    fn object_definition(&mut self, room: u32) -> Result<TypeSyntax, Stop>
        ensures reads { Gives (λ x. x) result (left self.new) (object_definition room (left self.old)) }
        ensures same { text_end self.new ≡ text_end self.old }
    {
        self.take(Terminal::Word("type"))?;
        let name = self.named()?;
        let implemented = self.implements()?;
        self.directives(true, room)?;
        let fields = self.fields_definition(room)?;
        Ok(TypeSyntax::Object(name, implemented, fields))
    }

    /// `InterfaceTypeDefinition`
    #[tactic(auto, unfolding(crate::specs::inner::TypeReading::interface_definition))]
    fn interface_definition(&mut self, room: u32) -> Result<TypeSyntax, Stop>
        ensures reads { Gives (λ x. x) result (left self.new) (interface_definition room (left self.old)) }
        ensures same { text_end self.new ≡ text_end self.old }
    {
        self.take(Terminal::Word("interface"))?;
        let name = self.named()?;
        let implemented = self.implements()?;
        self.directives(true, room)?;
        let fields = self.fields_definition(room)?;
        Ok(TypeSyntax::Interface(name, implemented, fields))
    }

    /// `ImplementsInterfaces?`
    #[tactic(auto, unfolding(crate::specs::inner::TypeReading::implements))]
    fn implements(&mut self) -> Result<Listed<NameAt>, Stop>
        ensures reads { Gives (λ x. x) result (left self.new) (implements (left self.old)) }
        ensures same { text_end self.new ≡ text_end self.old }
    {
        if !self.next_is(Terminal::Word("implements")) {
            return Ok(Listed::new(self.alloc));
        }
        self.take(Terminal::Word("implements"))?;
        self.names("&")
    }

    /// `UnionTypeDefinition`
    #[tactic(auto, unfolding(crate::specs::inner::TypeReading::union_definition))]
    fn union_definition(&mut self, room: u32) -> Result<TypeSyntax, Stop>
        ensures reads { Gives (λ x. x) result (left self.new) (union_definition room (left self.old)) }
        ensures same { text_end self.new ≡ text_end self.old }
    {
        self.take(Terminal::Word("union"))?;
        let name = self.named()?;
        self.directives(true, room)?;
        let members = self.union_members()?;
        Ok(TypeSyntax::Union(name, members))
    }

    /// `UnionMemberTypes?`
    #[tactic(auto, unfolding(crate::specs::inner::TypeReading::union_members))]
    fn union_members(&mut self) -> Result<Listed<NameAt>, Stop>
        ensures reads { Gives (λ x. x) result (left self.new) (union_members (left self.old)) }
        ensures same { text_end self.new ≡ text_end self.old }
    {
        if !self.next_is(Terminal::Punctuator("=")) {
            return Ok(Listed::new(self.alloc));
        }
        self.take(Terminal::Punctuator("="))?;
        self.names("|")
    }

    /// `EnumTypeDefinition`
    #[tactic(auto, unfolding(crate::specs::inner::TypeReading::enum_definition))]
    fn enum_definition(&mut self, room: u32) -> Result<TypeSyntax, Stop>
        ensures reads { Gives (λ x. x) result (left self.new) (enum_definition room (left self.old)) }
        ensures same { text_end self.new ≡ text_end self.old }
    {
        self.take(Terminal::Word("enum"))?;
        let name = self.named()?;
        self.directives(true, room)?;
        let values = self.enum_values(room)?;
        Ok(TypeSyntax::Enum(name, values))
    }

    /// `EnumValuesDefinition?`
    #[tactic(auto, unfolding(crate::specs::inner::TypeReading::enum_values))]
    fn enum_values(&mut self, room: u32) -> Result<Listed<NameAt>, Stop>
        ensures reads { Gives (λ x. x) result (left self.new) (enum_values room (left self.old)) }
        ensures same { text_end self.new ≡ text_end self.old }
    {
        if self.next_is(Terminal::Punctuator("{")) {
            self.braced_values(room)
        } else {
            Ok(Listed::new(self.alloc))
        }
    }

    /// `EnumValuesDefinition`
    #[tactic(auto, using(crate::proofs::Rooms::braced_more, crate::proofs::Rooms::braced_none))]
    fn braced_values(&mut self, room: u32) -> Result<Listed<NameAt>, Stop>
        ensures reads { Gives (λ x. x) result (left self.new) (braced room begins_described enum_value (left self.old)) }
        ensures same { text_end self.new ≡ text_end self.old }
    {
        if room == 0 {
            return Err(Stop::where_shut(self.next_is(Terminal::Punctuator("{"))));
        }
        self.take(Terminal::Punctuator("{"))?;
        self.require(self.next_is_described())?;
        let values = self.some_enum_values(room - 1)?;
        self.take(Terminal::Punctuator("}"))?;
        Ok(values)
    }

    /// `EnumValueDefinition*`
    fn some_enum_values(&mut self, room: u32) -> Result<Listed<NameAt>, Stop>
        ensures reads { Gives (λ x. x) result (left self.new) (many begins_described (enum_value room) (left self.old)) }
        ensures same { text_end self.new ≡ text_end self.old }
    {
        let mut values = Listed::new(self.alloc);
        while self.next_is_described() {
            values.push(self.enum_value(room)?)?;
        }
        Ok(values)
    }

    /// `EnumValueDefinition`
    #[tactic(auto, unfolding(crate::specs::inner::TypeReading::enum_value))]
    fn enum_value(&mut self, room: u32) -> Result<NameAt, Stop>
        ensures reads { Gives (λ x. x) result (left self.new) (enum_value room (left self.old)) }
        ensures same { text_end self.new ≡ text_end self.old }
    {
        self.maybe(Terminal::StringValue)?;
        let word = self.take(Terminal::EnumValue)?;
        self.directives(true, room)?;
        Ok(NameAt {
            name: self.text(&word)?,
            spot: word.spot,
        })
    }

    /// `InputObjectTypeDefinition`
    #[tactic(auto, unfolding(crate::specs::inner::TypeReading::input_definition))]
    fn input_definition(&mut self, room: u32) -> Result<TypeSyntax, Stop>
        ensures reads { Gives (λ x. x) result (left self.new) (input_definition room (left self.old)) }
        ensures same { text_end self.new ≡ text_end self.old }
    {
        self.take(Terminal::Word("input"))?;
        let name = self.named()?;
        self.directives(true, room)?;
        let fields = self.input_fields(room)?;
        Ok(TypeSyntax::Input(name, fields))
    }
}
