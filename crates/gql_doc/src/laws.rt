//! Laws of the definitions, each the contract of a function that does nothing.

ghost use Rattle.std.specs.Prelude.{◌≡◌, ◌≢◌, ◌≤◌, ℕ, List, length, Result, Err};
ghost use Rattle.std.specs.Str.{IsUtf8, chars, encode_utf8_all};
ghost use Rattle.gql_lex.specs.StringTexts.{IsQuoted, IsBlock};
ghost use Rattle.gql_lex.specs.declared.token.TokenKind.TheVariants as kind;
ghost use Rattle.gql_doc.specs.StringValue.{block_string_value, string_value};
ghost use Rattle.gql_doc.specs.Quoting.{quoted_text};
ghost use Rattle.gql_doc.specs.Answer.{Answers, Is, TypesAnswers, most_bytes, most_type_bytes};
ghost use Rattle.gql_doc.specs.declared.refusal.ParseRefusal.{ParseRefusal};
ghost use Rattle.gql_doc.specs.declared.refusal.ParseRefusal.TheVariants as refusal;
ghost use Rattle.gql_doc.specs.Printed.{print_text};
ghost use Rattle.gql_doc.specs.Unplaced.{unplaced};
ghost use Rattle.gql_model.specs.declared.syntax.Document.{Document};
ghost use Rattle.gql_model.specs.declared.type_syntax.TypeDocument.{TypeDocument};

/// What a string token means is what the standard says: of a quoted string its value, and of a block
/// string the BlockStringValue of its raw text.
pub fn strings_mean_what_the_standard_says()
    ensures quoted { (token value : List ℕ) → IsUtf8 token → IsQuoted token value → string_value kind.Quoted token ≡ value }
    ensures block { (token raw : List ℕ) → IsUtf8 token → IsBlock token raw →
        string_value kind.Block token ≡ encode_utf8_all (block_string_value (chars raw)) }
{}

/// A text that is printed as a string reads back.
pub fn a_printed_string_reads_back()
    ensures { (value : List ℕ) → IsUtf8 value → string_value kind.Quoted (quoted_text value) ≡ value }
{}
/// A text that isn't too long has one answer: it is one document, or one thing is in the way of one.
pub fn a_text_has_one_answer()
    ensures { (text : List ℕ) → (a b : Result Document ParseRefusal) → length text ≤ most_bytes → Answers text a → Answers text b → a ≢ Err refusal.NoMemory → b ≢ Err refusal.NoMemory → a ≡ b }
{}

/// A text that isn't too long has one answer: it is one document of type definitions, or one thing is in the way of one.
pub fn type_definitions_have_one_answer()
    ensures { (text : List ℕ) → (a b : Result TypeDocument ParseRefusal) → length text ≤ most_type_bytes → TypesAnswers text a → TypesAnswers text b → a ≢ Err refusal.NoMemory → b ≢ Err refusal.NoMemory → a ≡ b }
{}

/// What `print` writes of a document that `parse` reads is that document again, up to the places of its
/// tokens; it is UTF-8, and no brace or bracket in it is opened too deep.
pub fn a_printed_document_reads_back()
    ensures again { (text : List ℕ) → (it : Document) → IsUtf8 text → Is text it → (again : Document) × Is (print_text it) again × (unplaced again ≡ unplaced it) }
    ensures utf8 { (text : List ℕ) → (it : Document) → IsUtf8 text → Is text it → IsUtf8 (print_text it) }
{}
