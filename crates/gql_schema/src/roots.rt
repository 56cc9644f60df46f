//! The `schema` definitions of a document.

ghost use Rattle.std.specs.Prelude.{◌≡◌, option_map, option_and_then};
ghost use Rattle.gql_model.specs.rules.TypeParts.{definition_of, definitions, schema_in, schemas};
ghost use Rattle.gql_model.specs.rules.types.OneSchema.{word_of};
ghost use Rattle.gql_schema.specs.Seen.{first_of, said_roots};

use gql_model::{OperationKind, RootSyntax, TypeDocument, TypeSyntax};
use gql_tree::Spot;

/// A `schema` definition.
#[derive(Drop)]
pub(crate) struct Roots<'a> {
    pub roots: &'a [RootSyntax],
    /// Of the word `schema`.
    pub word: Spot,
}

/// The `schema` definition that stands first, if there is one.
pub(crate) fn first_schema(document: &TypeDocument) -> Option<Roots<'_>>
    ensures { option_map said_roots result ≡ first_of (schemas (definitions document.now)) }
{
    for definition in document.definitions.as_slice() {
        if let Some(schema) = schema_in(definition) {
            return Some(schema);
        }
    }
    None
}

/// The `schema` definition that a definition is, if it is one.
pub(crate) fn schema_in(definition: &TypeSyntax) -> Option<Roots<'_>>
    ensures { option_map said_roots result ≡ option_and_then schema_in (definition_of definition.now) }
{
    match definition {
        TypeSyntax::Schema(roots, word) => Some(Roots {
            roots: roots.as_slice(),
            word: *word,
        }),
        _ => None,
    }
}

/// The word of a kind of operation.
pub(crate) fn word_of(kind: OperationKind) -> &'static str
    ensures { result.now ≡ word_of kind }
{
    match kind {
        OperationKind::Query => "query",
        OperationKind::Mutation => "mutation",
        OperationKind::Subscription => "subscription",
    }
}
