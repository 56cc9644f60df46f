//! Documents as they are written (chapter 2 of the standard of October 2021). Each spot is that of a token.

ghost use Rattle.std.specs.Prelude.{◌≡◌, IfOk};

use crate::{Boxed, Sparse};
use gql_tree::{Listed, NoMemory, Spot, Text, TryCopy};

/// An executable document (section 2.2).
#[derive(Debug, Drop)]
pub struct Document {
    pub definitions: Listed<Definition>,
}

/// An executable definition (section 2.2).
#[derive(Debug, Drop)]
pub enum Definition {
    Operation(OperationDef),
    Fragment(FragmentDef),
}

/// The type of an operation (section 2.3).
#[derive(Clone, Copy, Debug, PartialEq, Eq)]
pub enum OperationKind {
    Query,
    Mutation,
    Subscription,
}

/// An operation definition (section 2.3). One that is its selection set alone is a query.
#[derive(Debug, Drop)]
pub struct OperationDef {
    pub kind: OperationKind,
    pub name: Option<Text>,
    pub variables: Listed<VariableDef>,
    pub directives: Listed<DirectiveUse>,
    pub selections: Listed<Selection>,
    /// Of its first token.
    pub spot: Spot,
}

/// A variable definition (section 2.10).
#[derive(Debug, Drop)]
pub struct VariableDef {
    /// Without its `$`.
    pub name: Text,
    pub kind: TypeRef,
    pub default: Option<Literal>,
    pub directives: Listed<DirectiveUse>,
    /// Of its `$`.
    pub spot: Spot,
}

/// A fragment definition (section 2.8).
#[derive(Debug, Drop)]
pub struct FragmentDef {
    pub name: Text,
    /// The named type behind `on`.
    pub condition: Text,
    /// Of the condition's name.
    pub condition_spot: Spot,
    pub directives: Listed<DirectiveUse>,
    pub selections: Listed<Selection>,
    /// Of its name.
    pub spot: Spot,
}

/// A selection (section 2.4).
#[derive(Debug, Drop)]
#[cycle(selection)]
pub enum Selection {
    Field(FieldNode),
    Spread(SpreadNode),
    Inline(InlineNode),
}

const _: () = prove!(size_of::<Selection>() <= 120);

/// A field (section 2.5). It has no selection set exactly where `selections` is empty. What few fields have lies in boxes.
#[derive(Debug, Drop)]
#[cycle(selection)]
pub struct FieldNode {
    pub alias: Option<Boxed<Text>>,
    pub name: Text,
    pub arguments: Sparse<Argument>,
    pub directives: Sparse<DirectiveUse>,
    pub selections: Listed<Selection>,
    /// Of its first token.
    pub spot: Spot,
}

/// A fragment spread (section 2.8).
#[derive(Debug, Drop)]
pub struct SpreadNode {
    pub name: Text,
    pub directives: Sparse<DirectiveUse>,
    /// Of the name.
    pub spot: Spot,
}

/// An inline fragment (section 2.8.2).
#[derive(Debug, Drop)]
#[cycle(selection)]
pub struct InlineNode {
    pub condition: Option<Text>,
    pub directives: Sparse<DirectiveUse>,
    pub selections: Listed<Selection>,
    /// Of the condition's name, or of `...` where there is none.
    pub spot: Spot,
}

/// A directive with its arguments (section 2.12).
#[derive(Debug, Drop)]
pub struct DirectiveUse {
    /// Without its `@`.
    pub name: Text,
    pub arguments: Listed<Argument>,
    /// Of its `@`.
    pub spot: Spot,
}

/// A value as a document writes it (section 2.9), with where it begins.
#[derive(Debug, Drop)]
#[cycle(literal)]
pub enum Literal {
    /// A variable's name, without its `$` (section 2.10).
    Variable(Text, Spot),
    /// A number's characters.
    Int(Text, Spot),
    /// What a string means, and not how it is written.
    Text(Text, Spot),
    Bool(bool, Spot),
    Null(Spot),
    Enum(Text, Spot),
    List(Listed<Literal>, Spot),
    Object(Listed<Argument>, Spot),
}

/// An argument (section 2.6), or a field of an input object literal (section 2.9.8).
#[derive(Debug, Drop)]
#[cycle(literal)]
pub struct Argument {
    pub name: Text,
    pub value: Literal,
    /// Of its name.
    pub spot: Spot,
}

/// A type reference (section 2.11).
#[derive(Debug, Drop)]
pub enum TypeRef {
    /// A type's name, with its spot.
    Named(Text, Spot),
    List(Boxed<TypeRef>),
    NonNull(Boxed<TypeRef>),
}

impl TryCopy for Document {
    fn copy(&self) -> Result<Self, NoMemory> {
        Ok(Document {
            definitions: self.definitions.copy()?,
        })
    }
}

impl TryCopy for Definition {
    fn copy(&self) -> Result<Self, NoMemory> {
        match self {
            Definition::Operation(operation) => Ok(Definition::Operation(operation.copy()?)),
            Definition::Fragment(fragment) => Ok(Definition::Fragment(fragment.copy()?)),
        }
    }
}

impl TryCopy for OperationDef {
    fn copy(&self) -> Result<Self, NoMemory> {
        Ok(OperationDef {
            kind: self.kind,
            name: self.name.copy()?,
            variables: self.variables.copy()?,
            directives: self.directives.copy()?,
            selections: self.selections.copy()?,
            spot: self.spot,
        })
    }
}

impl TryCopy for VariableDef {
    fn copy(&self) -> Result<Self, NoMemory> {
        Ok(VariableDef {
            name: self.name.copy()?,
            kind: self.kind.copy()?,
            default: self.default.copy()?,
            directives: self.directives.copy()?,
            spot: self.spot,
        })
    }
}

impl TryCopy for FragmentDef {
    fn copy(&self) -> Result<Self, NoMemory> {
        Ok(FragmentDef {
            name: self.name.copy()?,
            condition: self.condition.copy()?,
            condition_spot: self.condition_spot,
            directives: self.directives.copy()?,
            selections: self.selections.copy()?,
            spot: self.spot,
        })
    }
}

impl TryCopy for Selection {
    fn copy(&self) -> Result<Self, NoMemory> {
        self.copied()
    }
}

impl TryCopy for FieldNode {
    fn copy(&self) -> Result<Self, NoMemory> {
        self.copied()
    }
}

impl TryCopy for SpreadNode {
    fn copy(&self) -> Result<Self, NoMemory> {
        Ok(SpreadNode {
            name: self.name.copy()?,
            directives: self.directives.copy()?,
            spot: self.spot,
        })
    }
}

impl TryCopy for InlineNode {
    fn copy(&self) -> Result<Self, NoMemory> {
        self.copied()
    }
}

impl TryCopy for DirectiveUse {
    fn copy(&self) -> Result<Self, NoMemory> {
        Ok(DirectiveUse {
            name: self.name.copy()?,
            arguments: self.arguments.copy()?,
            spot: self.spot,
        })
    }
}

impl TryCopy for Literal {
    fn copy(&self) -> Result<Self, NoMemory> {
        self.copied()
    }
}

impl TryCopy for Argument {
    fn copy(&self) -> Result<Self, NoMemory> {
        self.copied()
    }
}

impl TryCopy for TypeRef {
    fn copy(&self) -> Result<Self, NoMemory> {
        self.copied()
    }
}

impl Selection {
    #[cycle(copied_selections)]
    fn copied(&self) -> Result<Selection, NoMemory>
        ensures { IfOk result (λ copy. copy ≡ self.now) }
    {
        match self {
            Selection::Field(field) => Ok(Selection::Field(field.copied()?)),
            Selection::Spread(spread) => Ok(Selection::Spread(spread.copy()?)),
            Selection::Inline(inline) => Ok(Selection::Inline(inline.copied()?)),
        }
    }
}

impl FieldNode {
    #[cycle(copied_selections)]
    fn copied(&self) -> Result<FieldNode, NoMemory>
        ensures { IfOk result (λ copy. copy ≡ self.now) }
    {
        let mut selections = self.selections.empty_like();
        for selection in self.selections.as_slice() {
            selections.push(selection.copied()?)?;
        }
        Ok(FieldNode {
            alias: self.alias.copy()?,
            name: self.name.copy()?,
            arguments: self.arguments.copy()?,
            directives: self.directives.copy()?,
            selections,
            spot: self.spot,
        })
    }
}

impl InlineNode {
    #[cycle(copied_selections)]
    fn copied(&self) -> Result<InlineNode, NoMemory>
        ensures { IfOk result (λ copy. copy ≡ self.now) }
    {
        let mut selections = self.selections.empty_like();
        for selection in self.selections.as_slice() {
            selections.push(selection.copied()?)?;
        }
        Ok(InlineNode {
            condition: self.condition.copy()?,
            directives: self.directives.copy()?,
            selections,
            spot: self.spot,
        })
    }
}

impl Literal {
    #[cycle(copied_literals)]
    fn copied(&self) -> Result<Literal, NoMemory>
        ensures { IfOk result (λ copy. copy ≡ self.now) }
    {
        match self {
            Literal::Variable(name, spot) => Ok(Literal::Variable(name.copy()?, *spot)),
            Literal::Int(digits, spot) => Ok(Literal::Int(digits.copy()?, *spot)),
            Literal::Text(text, spot) => Ok(Literal::Text(text.copy()?, *spot)),
            Literal::Bool(truth, spot) => Ok(Literal::Bool(*truth, *spot)),
            Literal::Null(spot) => Ok(Literal::Null(*spot)),
            Literal::Enum(name, spot) => Ok(Literal::Enum(name.copy()?, *spot)),
            Literal::List(items, spot) => {
                let mut copied = items.empty_like();
                for item in items.as_slice() {
                    copied.push(item.copied()?)?;
                }
                Ok(Literal::List(copied, *spot))
            }
            Literal::Object(members, spot) => {
                let mut copied = members.empty_like();
                for member in members.as_slice() {
                    copied.push(member.copied()?)?;
                }
                Ok(Literal::Object(copied, *spot))
            }
        }
    }
}

impl Argument {
    #[cycle(copied_literals)]
    fn copied(&self) -> Result<Argument, NoMemory>
        ensures { IfOk result (λ copy. copy ≡ self.now) }
    {
        Ok(Argument {
            name: self.name.copy()?,
            value: self.value.copied()?,
            spot: self.spot,
        })
    }
}

impl TypeRef {
    fn copied(&self) -> Result<TypeRef, NoMemory>
        ensures { IfOk result (λ copy. copy ≡ self.now) }
    {
        match self {
            TypeRef::Named(name, spot) => Ok(TypeRef::Named(name.copy()?, *spot)),
            TypeRef::List(item) => Ok(TypeRef::List(item.new_like(item.get().copied()?)?)),
            TypeRef::NonNull(inner) => {
                Ok(TypeRef::NonNull(inner.new_like(inner.get().copied()?)?))
            }
        }
    }
}
