//! From a text to a document, executable or of type definitions.

ghost use Rattle.std.specs.Prelude.{◌≡◌, ◌≤◌, ◌<◌, ◌⊎◌, [], length, Ok, Err};
ghost use Rattle.gql_doc.specs.Answer.{Answers, Is, TypesAnswers, IsTypes, most_bytes, most_type_bytes};
ghost use Rattle.gql_doc.specs.Nesting.{limit};
ghost use Rattle.gql_doc.specs.inner.Left.{left, text_end, coming, end_of};
ghost use Rattle.gql_doc.specs.inner.Outcomes.{outcome, found, refusal_of, at_end};
ghost use Rattle.gql_doc.specs.inner.Reading.{document};
ghost use Rattle.gql_doc.specs.inner.TypeReading.{type_document};
ghost use Rattle.gql_model.specs.declared.syntax.Document.{Document as DocumentOf};
ghost use Rattle.gql_model.specs.declared.type_syntax.TypeDocument.{TypeDocument as TypeDocumentOf};
ghost use Rattle.gql_doc.specs.declared.refusal.ParseRefusal.TheVariants as refusal;

use crate::parser::{Parser, Stop};
use crate::refusal::ParseRefusal;
use gql_lex::LexRefusal;
use gql_model::{Document, TypeDocument, limits};
use gql_tree::Spot;
use std::alloc::Global;

/// Reads a document (chapter 2 of the standard of October 2021).
///
/// A text that is none is refused where the first thing stands that is in the way. At one place what
/// is no token comes before what no document goes on with, and this before what is opened too deep.
pub fn parse(alloc: Global, text: &str) -> Result<Document, ParseRefusal>
    ensures answer { Answers text.now result }
    ensures too_long { most_bytes < length text.now → (result ≡ Err refusal.TooLong) ⊎ (result ≡ Err refusal.NoMemory) }
    ensures found { (it : DocumentOf) → length text.now ≤ most_bytes → Is text.now it → (result ≡ Ok it) ⊎ (result ≡ Err refusal.NoMemory) }
{
    if text.len() as u64 > limits::DOCUMENT_BYTES {
        return Err(ParseRefusal::TooLong);
    }
    read(alloc, text)
}

/// Reads a document from a text of fewer than 4,294,967,295 bytes.
fn read(alloc: Global, text: &str) -> Result<Document, ParseRefusal>
    requires { length text.now < 4294967295 }
    ensures { (result ≡ outcome (document limit (coming [] text.now).tokens) (end_of text.now)) ⊎ (result ≡ Err refusal.NoMemory) }
{
    let mut parser = Parser::new(alloc, text);
    match parser.document(limits::SYNTAX_NESTING) {
        Ok(document) => found(document, parser.end()),
        Err(why) => Err(refusal_of(why, &parser)),
    }
}

/// Reads type definitions (chapter 3 of the standard of October 2021); no extension is one. Descriptions,
/// directives and the word `repeatable` are read and not kept. A text that is none is refused as by
/// `parse`.
pub fn parse_types(alloc: Global, text: &str) -> Result<TypeDocument, ParseRefusal>
    ensures answer { TypesAnswers text.now result }
    ensures too_long { most_type_bytes < length text.now → (result ≡ Err refusal.TooLong) ⊎ (result ≡ Err refusal.NoMemory) }
    ensures found { (it : TypeDocumentOf) → length text.now ≤ most_type_bytes → IsTypes text.now it → (result ≡ Ok it) ⊎ (result ≡ Err refusal.NoMemory) }
{
    if text.len() as u64 > limits::FILE_BYTES {
        return Err(ParseRefusal::TooLong);
    }
    read_types(alloc, text)
}

/// Reads type definitions from a text of fewer than 4,294,967,295 bytes.
fn read_types(alloc: Global, text: &str) -> Result<TypeDocument, ParseRefusal>
    requires { length text.now < 4294967295 }
    ensures { (result ≡ outcome (type_document limit (coming [] text.now).tokens) (end_of text.now)) ⊎ (result ≡ Err refusal.NoMemory) }
{
    let mut parser = Parser::new(alloc, text);
    match parser.type_document(limits::SYNTAX_NESTING) {
        Ok(document) => found(document, parser.end()),
        Err(why) => Err(refusal_of(why, &parser)),
    }
}

/// A document whose tokens are all that the text has before its end.
fn found<T: Drop>(document: T, end: Result<Spot, LexRefusal>) -> Result<T, ParseRefusal>
    ensures { result ≡ found document end }
{
    match end {
        Ok(_) => Ok(document),
        Err(refusal) => Err(ParseRefusal::Lex(refusal)),
    }
}

/// Why a text is refused where the parser stops.
fn refusal_of(why: Stop, parser: &Parser<'_>) -> ParseRefusal
    ensures { result ≡ refusal_of why (left parser.now) (text_end parser.now) }
{
    match (why, parser.next_spot()) {
        (Stop::NoMemory, _) => ParseRefusal::NoMemory,
        (Stop::Unexpected, Some(spot)) => ParseRefusal::Unexpected { spot },
        (Stop::TooDeep, Some(spot)) => ParseRefusal::TooDeep { spot },
        (_, None) => at_end(parser.end()),
    }
}

/// Why a text is refused whose tokens end inside a document.
fn at_end(end: Result<Spot, LexRefusal>) -> ParseRefusal
    ensures { result ≡ at_end end }
{
    match end {
        Ok(spot) => ParseRefusal::Unexpected { spot },
        Err(refusal) => ParseRefusal::Lex(refusal),
    }
}
