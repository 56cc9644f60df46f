//! Documents as they are written, and the schema, the operation and the limits that all of execution
//! speaks of.
//!
//! The types here are what the parser of a document, the reader of a schema and the planner of an
//! operation give; `specs/` has what execution is by the GraphQL standard, chapter 6, with deferred
//! fragments and streams: which fields an object collects (`Collect`), what a cell completes to
//! (`Complete`), what a region gives (`Region`), the regions of a whole operation (`Operations`), and
//! plain execution, without the directives (`Plain`). `specs/rules` has the rules of type definitions,
//! chapter 3, in the order in which they are asked (`SchemaRules`), a file a rule.
#![tactic(auto)]

mod boxed;
mod by_name;
mod laws;
pub mod limits;
mod look_ups;
mod operation;
mod schema;
mod schema_copies;
mod shared;
mod sparse;
mod syntax;
mod type_syntax;
mod type_syntax_copies;
mod worked;
mod worked_types;

pub use boxed::Boxed;
pub use by_name::{ByName, HasName};
pub use laws::bounds_are_never_met;
pub use operation::{DeferUse, Node, NodeKind, Operation, StreamUse, Variables};
pub use schema::{FieldDef, InputDef, Schema, TypeDef, TypeKind, TypeNo, TypeUse};
pub use shared::documents_may_be_shared;
pub use sparse::Sparse;
pub use syntax::{
    Argument, Definition, DirectiveUse, Document, FieldNode, FragmentDef, InlineNode, Literal,
    OperationDef, OperationKind, Selection, SpreadNode, TypeRef, VariableDef,
};
pub use type_syntax::{FieldSyntax, InputSyntax, NameAt, RootSyntax, TypeDocument, TypeSyntax};
pub use worked::{worked_plain, worked_regions};
pub use worked_types::{worked_rules, worked_schemas};
