//! Laws of the definitions, each the contract of a function that does nothing.

ghost use Rattle.std.specs.Prelude.{◌≡◌, ◌≢◌, ◌≤◌, ℕ, List, length, Result, Err};
ghost use Rattle.gql_doc.specs.Answer.{most_type_bytes};
ghost use Rattle.gql_model.specs.declared.schema.Schema.{Schema};
ghost use Rattle.gql_schema.specs.Answer.{SchemaAnswers, seen_answer};
ghost use Rattle.gql_schema.specs.declared.refusal.SchemaRefusal.{SchemaRefusal};
ghost use Rattle.gql_schema.specs.declared.refusal.SchemaRefusal.TheVariants as refusal;

/// A text that isn't too long has one answer: it says one schema, or there is one reason why it says
/// none.
pub fn a_text_says_one_schema()
    ensures { (text : List ℕ) → (a b : Result Schema SchemaRefusal) → length text ≤ most_type_bytes → SchemaAnswers text a → SchemaAnswers text b → a ≢ Err refusal.NoMemory → b ≢ Err refusal.NoMemory → seen_answer a ≡ seen_answer b }
{}
