//! From a text to a schema.

ghost use Rattle.std.specs.Prelude.{◌≡◌, ◌≤◌, ◌<◌, ◌⊎◌, length, Err};
ghost use Rattle.gql_doc.specs.Answer.{IsTypes, most_type_bytes};
ghost use Rattle.gql_doc.specs.declared.refusal.ParseRefusal.TheVariants as parse;
ghost use Rattle.gql_model.specs.declared.type_syntax.TypeDocument.{TypeDocument as TypeDocumentOf};
ghost use Rattle.gql_schema.specs.Answer.{SchemaAnswers, Judges};
ghost use Rattle.gql_schema.specs.declared.refusal.SchemaRefusal.TheVariants as refusal;

use crate::broken::first_broken;
use crate::build::schema::schema_of;
use crate::defined::types_of;
use crate::refusal::SchemaRefusal;
use gql_doc::parse_types;
use gql_model::{Schema, TypeDocument};
use std::alloc::Global;

/// The most types that can have numbers, beside the scalars that every service has.
const MOST_TYPES: usize = u32::MAX as usize - 4;

/// Reads a schema: type definitions that keep the eighteen rules (chapter 3 of the standard of October
/// 2021).
///
/// Definitions that break rules are refused for the first rule that is broken, in the order of their
/// numbers, at its first place in the text.
pub fn read_schema(alloc: Global, text: &str) -> Result<Schema, SchemaRefusal>
    ensures answer { SchemaAnswers text.now result }
    ensures too_long { most_type_bytes < length text.now → (result ≡ Err (refusal.Parse parse.TooLong)) ⊎ (result ≡ Err refusal.NoMemory) }
    ensures found { (it : TypeDocumentOf) → length text.now ≤ most_type_bytes → IsTypes text.now it → Judges it result }
{
    match parse_types(alloc, text) {
        Ok(document) => judged(alloc, &document),
        Err(why) => Err(SchemaRefusal::unread(why)),
    }
}

/// The schema that type definitions say, or the first rule that they break.
fn judged(alloc: Global, document: &TypeDocument) -> Result<Schema, SchemaRefusal>
    ensures { Judges document.now result }
{
    let types = types_of(alloc, document)?;
    if types.as_slice().len() >= MOST_TYPES {
        return Err(SchemaRefusal::NoMemory);
    }
    match first_broken(alloc, document, &types)? {
        Some(broken) => Err(SchemaRefusal::Rule {
            number: broken.rule,
            spot: broken.spot,
        }),
        None => Ok(schema_of(alloc, document, &types)?),
    }
}
