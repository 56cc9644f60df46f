//! Selections: sections 2.4, 2.5 and 2.8 of the standard.

ghost use Rattle.std.specs.Prelude.{codes, ◌≡◌, option_map, MatchResult};
ghost use Rattle.gql_lex.specs.Tokens.{lexeme};
ghost use Rattle.gql_doc.specs.inner.Left.{left, text_end};
ghost use Rattle.gql_doc.specs.Grammar.{alias_by, name_by, inline_spot};
ghost use Rattle.gql_doc.specs.Terminals.{is_punctuator, is_word, is_name};
ghost use Rattle.gql_doc.specs.declared.parser.Stop.TheVariants as stop;
ghost use Rattle.gql_doc.specs.inner.Reading.{Gives, next_is, many, optional, listed, aliased, type_condition, field, plain_field, behind_name, behind_names, spread, inline_fragment, any_selection, selection_set, selections, begins_selection, is_on};

use crate::parser::{Parser, Stop};
use crate::terminal::Terminal;
use gql_lex::Token;
use gql_model::{Boxed, FieldNode, InlineNode, Selection, Sparse, SpreadNode};
use gql_tree::{Listed, Spot, Text};

impl<'a> Parser<'a> {
    /// `SelectionSet`, with the place of its `{`
    #[cycle(selection)]
    #[tactic(auto, using(crate::proofs::Rooms::selection_set_more, crate::proofs::Rooms::selection_set_none))]
    pub(crate) fn selection_set(&mut self, room: u32) -> Result<(Spot, Listed<Selection>), Stop>
        ensures reads { Gives (λ x. x) result (left self.new) (selection_set room (left self.old)) }
        ensures same { text_end self.new ≡ text_end self.old }
    {
        if room == 0 {
            return Err(Stop::where_shut(self.next_is(Terminal::Punctuator("{"))));
        }
        let opening = self.take(Terminal::Punctuator("{"))?;
        self.require(self.next_is_selection())?;
        let selections = self.some_selections(room - 1)?;
        self.take(Terminal::Punctuator("}"))?;
        Ok((opening.spot, selections))
    }

    /// `Selection*`
    #[cycle(selection)]
    fn some_selections(&mut self, room: u32) -> Result<Listed<Selection>, Stop>
        ensures reads { Gives (λ x. x) result (left self.new) (many begins_selection (any_selection room (selections room)) (left self.old)) }
        ensures same { text_end self.new ≡ text_end self.old }
    {
        let mut selections = Listed::new(self.alloc);
        while self.next_is_selection() {
            selections.push(self.selection(room)?)?;
        }
        Ok(selections)
    }

    /// Whether the next token begins a selection.
    fn next_is_selection(&self) -> bool
        ensures { result ≡ next_is begins_selection (left self.now) }
    {
        self.next_is(Terminal::Name) || self.next_is(Terminal::Punctuator("..."))
    }

    /// `SelectionSet`
    #[inline(never)]
    #[cycle(selection)]
    #[tactic(auto, unfolding(crate::specs::inner::Reading::selections))]
    pub(crate) fn selections(&mut self, room: u32) -> Result<Listed<Selection>, Stop>
        ensures reads { Gives (λ x. x) result (left self.new) (selections room (left self.old)) }
        ensures same { text_end self.new ≡ text_end self.old }
    {
        let (_, selections) = self.selection_set(room)?;
        Ok(selections)
    }

    /// `Selection`
    #[cycle(selection)]
    #[tactic(auto, unfolding(crate::specs::inner::Reading::any_selection))]
    fn selection(&mut self, room: u32) -> Result<Selection, Stop>
        ensures reads { Gives (λ x. x) result (left self.new) (any_selection room (selections room) (left self.old)) }
        ensures same { text_end self.new ≡ text_end self.old }
    {
        if self.next_is(Terminal::Name) {
            return self.field(room);
        }
        let dots = self.take(Terminal::Punctuator("..."))?;
        if self.next_is(Terminal::FragmentName) {
            self.spread(room)
        } else {
            self.inline_fragment(room, dots.spot)
        }
    }

    /// `Field`
    #[cycle(selection)]
    #[tactic(auto, unfolding(crate::specs::inner::Reading::field))]
    fn field(&mut self, room: u32) -> Result<Selection, Stop>
        ensures reads { Gives (λ x. x) result (left self.new) (field room (selections room) (left self.old)) }
        ensures same { text_end self.new ≡ text_end self.old }
    {
        let first = self.take(Terminal::Name)?;
        if self.next_is(Terminal::FieldPart) {
            return self.behind_name(room, first);
        }
        let selections = self.maybe_selections(room)?;
        self.plain_field(first, selections)
    }

    /// `Field` without an alias, arguments and directives
    fn plain_field(&self, name: Token<'_>, selections: Listed<Selection>) -> Result<Selection, Stop>
        ensures { MatchResult result (λ field. field ≡ plain_field (lexeme name.entry) selections) (λ why. why ≡ stop.NoMemory) }
    {
        Ok(Selection::Field(FieldNode {
            alias: None,
            name: self.text(&name)?,
            arguments: Sparse::new(),
            directives: Sparse::new(),
            selections,
            spot: name.spot,
        }))
    }

    /// `Field`, behind its first name
    #[cycle(selection)]
    #[tactic(auto, unfolding(crate::specs::inner::Reading::behind_name))]
    fn behind_name(&mut self, room: u32, first: Token<'_>) -> Result<Selection, Stop>
        ensures reads { Gives (λ x. x) result (left self.new) (behind_name room (selections room) (lexeme first.entry) (left self.old)) }
        ensures same { text_end self.new ≡ text_end self.old }
    {
        let second = self.aliased()?;
        self.behind_names(room, first, second)
    }

    /// `Field`, behind its first name and the one behind a colon
    #[cycle(selection)]
    #[tactic(auto, unfolding(crate::specs::inner::Reading::behind_names))]
    fn behind_names(
        &mut self,
        room: u32,
        first: Token<'_>,
        second: Option<Token<'_>>,
    ) -> Result<Selection, Stop>
        ensures reads { Gives (λ x. x) result (left self.new) (behind_names room (selections room) (lexeme first.entry) (option_map lexeme second.entry) (left self.old)) }
        ensures same { text_end self.new ≡ text_end self.old }
    {
        let arguments = self.arguments(false, room)?;
        let directives = self.directives(false, room)?;
        let selections = self.maybe_selections(room)?;
        let (alias, name) = self.alias_and_name(first, second)?;
        Ok(Selection::Field(FieldNode {
            alias,
            name,
            arguments: Sparse::from_listed(self.alloc, arguments)?,
            directives: Sparse::from_listed(self.alloc, directives)?,
            selections,
            spot: first.spot,
        }))
    }

    /// `SelectionSet?`
    #[inline(always)]
    #[cycle(selection)]
    fn maybe_selections(&mut self, room: u32) -> Result<Listed<Selection>, Stop>
        ensures reads { Gives (λ x. x) result (left self.new) (listed (is_punctuator (codes "{")) (selections room) (left self.old)) }
        ensures same { text_end self.new ≡ text_end self.old }
    {
        if self.next_is(Terminal::Punctuator("{")) {
            self.selections(room)
        } else {
            Ok(Listed::new(self.alloc))
        }
    }

    /// The alias and the name of a field, by its first name and the one behind a colon.
    fn alias_and_name(
        &self,
        first: Token<'_>,
        second: Option<Token<'_>>,
    ) -> Result<(Option<Boxed<Text>>, Text), Stop>
        ensures { MatchResult result (λ names. (names.0 ≡ alias_by (lexeme first.entry) (option_map lexeme second.entry)) × (names.1 ≡ name_by (lexeme first.entry) (option_map lexeme second.entry))) (λ why. why ≡ stop.NoMemory) }
    {
        match second {
            Some(second) => {
                let alias = Boxed::new(self.alloc, self.text(&first)?)?;
                Ok((Some(alias), self.text(&second)?))
            }
            None => Ok((None, self.text(&first)?)),
        }
    }

    /// The name behind an alias and its colon, where a colon stands next.
    fn aliased(&mut self) -> Result<Option<Token<'a>>, Stop>
        ensures reads { Gives (λ found. option_map lexeme found) result (left self.new) (optional (is_punctuator (codes ":")) aliased (left self.old)) }
        ensures same { text_end self.new ≡ text_end self.old }
    {
        if !self.next_is(Terminal::Punctuator(":")) {
            return Ok(None);
        }
        self.take(Terminal::Punctuator(":"))?;
        Ok(Some(self.take(Terminal::Name)?))
    }

    /// `FragmentSpread`, behind its `...`
    #[tactic(auto, unfolding(crate::specs::inner::Reading::spread))]
    fn spread(&mut self, room: u32) -> Result<Selection, Stop>
        ensures reads { Gives (λ x. x) result (left self.new) (spread room (left self.old)) }
        ensures same { text_end self.new ≡ text_end self.old }
    {
        let word = self.take(Terminal::FragmentName)?;
        let directives = self.directives(false, room)?;
        Ok(Selection::Spread(SpreadNode {
            name: self.text(&word)?,
            directives: Sparse::from_listed(self.alloc, directives)?,
            spot: word.spot,
        }))
    }

    /// `InlineFragment`, behind its `...`, which stands at `dots`
    #[cycle(selection)]
    #[tactic(auto, unfolding(crate::specs::inner::Reading::inline_fragment))]
    fn inline_fragment(&mut self, room: u32, dots: Spot) -> Result<Selection, Stop>
        ensures reads { Gives (λ x. x) result (left self.new) (inline_fragment room (selections room) dots (left self.old)) }
        ensures same { text_end self.new ≡ text_end self.old }
    {
        let condition = self.maybe_type_condition()?;
        let directives = self.directives(false, room)?;
        let selections = self.selections(room)?;
        Ok(Selection::Inline(InlineNode {
            condition: self.text_of(condition)?,
            directives: Sparse::from_listed(self.alloc, directives)?,
            selections,
            spot: inline_spot(dots, condition),
        }))
    }

    /// `TypeCondition?`
    fn maybe_type_condition(&mut self) -> Result<Option<Token<'a>>, Stop>
        ensures reads { Gives (λ found. option_map lexeme found) result (left self.new) (optional is_on type_condition (left self.old)) }
        ensures same { text_end self.new ≡ text_end self.old }
    {
        if !self.next_is(Terminal::Word("on")) {
            return Ok(None);
        }
        Ok(Some(self.type_condition()?))
    }

    /// `TypeCondition`
    pub(crate) fn type_condition(&mut self) -> Result<Token<'a>, Stop>
        ensures reads { Gives lexeme result (left self.new) (type_condition (left self.old)) }
        ensures same { text_end self.new ≡ text_end self.old }
    {
        self.take(Terminal::Word("on"))?;
        self.take(Terminal::Name)
    }
}

/// Where an inline fragment stands: at its type, and at its `...` where it has none.
fn inline_spot(dots: Spot, condition: Option<Token<'_>>) -> Spot
    ensures { result ≡ inline_spot dots (option_map lexeme condition.entry) }
{
    match condition {
        Some(word) => word.spot,
        None => dots,
    }
}
