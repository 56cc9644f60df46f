//! From a document to a text.

ghost use Rattle.std.specs.Prelude.{◌≡◌, ◌↔◌, ◌<◌, ◌++◌, ◌∷◌, ◌/◌, ◌%◌, [], List, flat_map, string_bytes, IfOk, OnOk, IsTrue, None};
ghost use Rattle.std.specs.Char.{encode_utf8};
ghost use Rattle.gql_lex.specs.declared.token.TokenKind.{TokenKind as Kind};
ghost use Rattle.gql_model.specs.declared.syntax.OperationKind.TheVariants as kinds;
ghost use Rattle.gql_doc.specs.Quoting.{hex_of, quoted_byte};
ghost use Rattle.gql_doc.specs.inner.Writing.{Adds};
ghost use Rattle.gql_doc.specs.Printed.{word, string, truth_word, printed_value, printed_argument, printed_arguments, printed_directive, printed_directives, printed_type, printed_default, printed_variable, printed_variables, printed_alias, printed_field, printed_list, printed_spread, printed_condition, printed_inline, printed_selection, printed_selections, operation_word, printed_name, operation_head, printed_operation, printed_fragment, printed_definition, print_text};

use gql_model::{
    Argument, Boxed, Definition, DirectiveUse, Document, FieldNode, FragmentDef, InlineNode,
    Literal, OperationDef, OperationKind, Selection, SpreadNode, TypeRef, VariableDef,
};
use gql_tree::{Listed, NoMemory, Text};
use std::alloc::Global;

/// Prints a document: its tokens, with one space between two.
///
/// A query without a name, variables and directives is its selection set alone, and a string is
/// always a quoted one.
pub fn print(alloc: Global, document: &Document) -> Result<Text, NoMemory>
    ensures { IfOk result (λ text. text ≡ print_text document.now) }
{
    let mut out = String::new(alloc);
    for definition in document.definitions.as_slice() {
        push_definition(&mut out, definition)?;
    }
    let _last_space = out.pop();
    Ok(Text::from_string(out))
}

/// Writes a token of this text, whatever its kind, and a space.
fn push_piece(out: &mut String, text: &str) -> Result<(), NoMemory>
    ensures { OnOk result ((kind : Kind) → Adds (string_bytes out.old) (string_bytes out.new) (record { kind = kind; text = text.now } ∷ [])) }
{
    out.push_str(text)?;
    out.push(' ')?;
    Ok(())
}

/// Writes a name or a word, and a space.
fn push_word(out: &mut String, text: &Text) -> Result<(), NoMemory>
    ensures { OnOk result (Adds (string_bytes out.old) (string_bytes out.new) (word text.now ∷ [])) }
{
    push_piece(out, text.as_str())
}

fn push_definition(out: &mut String, definition: &Definition) -> Result<(), NoMemory>
    ensures { OnOk result (Adds (string_bytes out.old) (string_bytes out.new) (printed_definition definition.now)) }
{
    match definition {
        Definition::Operation(operation) => push_operation(out, operation),
        Definition::Fragment(fragment) => push_fragment(out, fragment),
    }
}

fn push_operation(out: &mut String, operation: &OperationDef) -> Result<(), NoMemory>
    ensures { OnOk result (Adds (string_bytes out.old) (string_bytes out.new) (printed_operation operation.now)) }
{
    push_head(out, operation)?;
    push_set(out, &operation.selections)
}

/// Writes what stands before the selection set.
fn push_head(out: &mut String, operation: &OperationDef) -> Result<(), NoMemory>
    ensures { OnOk result (Adds (string_bytes out.old) (string_bytes out.new) (operation_head operation.now.kind operation.now.name operation.now.variables operation.now.directives)) }
{
    if is_plain(operation) {
        return Ok(());
    }
    push_piece(out, operation_word(operation.kind))?;
    push_name(out, &operation.name)?;
    push_variables(out, &operation.variables)?;
    push_directives(out, operation.directives.as_slice())
}

/// Whether it is a query without a name, variables and directives.
fn is_plain(operation: &OperationDef) -> bool
    ensures { IsTrue result ↔ ((operation.now.kind ≡ kinds.Query) × (operation.now.name ≡ None) × (operation.now.variables ≡ []) × (operation.now.directives ≡ [])) }
{
    match operation.kind {
        OperationKind::Query => {
            operation.name.is_none()
                && operation.variables.is_empty()
                && operation.directives.is_empty()
        }
        _ => false,
    }
}

fn operation_word(kind: OperationKind) -> &'static str
    ensures { result.now ≡ operation_word kind }
{
    match kind {
        OperationKind::Query => "query",
        OperationKind::Mutation => "mutation",
        OperationKind::Subscription => "subscription",
    }
}

fn push_name(out: &mut String, name: &Option<Text>) -> Result<(), NoMemory>
    ensures { OnOk result (Adds (string_bytes out.old) (string_bytes out.new) (printed_name name.now)) }
{
    match name {
        Some(text) => push_word(out, text),
        None => Ok(()),
    }
}

fn push_fragment(out: &mut String, fragment: &FragmentDef) -> Result<(), NoMemory>
    ensures { OnOk result (Adds (string_bytes out.old) (string_bytes out.new) (printed_fragment fragment.now)) }
{
    push_piece(out, "fragment")?;
    push_word(out, &fragment.name)?;
    push_piece(out, "on")?;
    push_word(out, &fragment.condition)?;
    push_directives(out, fragment.directives.as_slice())?;
    push_set(out, &fragment.selections)
}

fn push_variables(out: &mut String, variables: &Listed<VariableDef>) -> Result<(), NoMemory>
    ensures { OnOk result (Adds (string_bytes out.old) (string_bytes out.new) (printed_variables variables.now)) }
{
    if variables.is_empty() {
        return Ok(());
    }
    push_piece(out, "(")?;
    for variable in variables.as_slice() {
        push_variable(out, variable)?;
    }
    push_piece(out, ")")
}

fn push_variable(out: &mut String, variable: &VariableDef) -> Result<(), NoMemory>
    ensures { OnOk result (Adds (string_bytes out.old) (string_bytes out.new) (printed_variable variable.now)) }
{
    push_piece(out, "$")?;
    push_word(out, &variable.name)?;
    push_piece(out, ":")?;
    push_type(out, &variable.kind)?;
    push_default(out, &variable.default)?;
    push_directives(out, variable.directives.as_slice())
}

fn push_type(out: &mut String, kind: &TypeRef) -> Result<(), NoMemory>
    ensures { OnOk result (Adds (string_bytes out.old) (string_bytes out.new) (printed_type kind.now)) }
{
    match kind {
        TypeRef::Named(name, _) => push_word(out, name),
        TypeRef::List(item) => {
            push_piece(out, "[")?;
            push_type(out, item.get())?;
            push_piece(out, "]")
        }
        TypeRef::NonNull(inner) => {
            push_type(out, inner.get())?;
            push_piece(out, "!")
        }
    }
}

fn push_default(out: &mut String, default: &Option<Literal>) -> Result<(), NoMemory>
    ensures { OnOk result (Adds (string_bytes out.old) (string_bytes out.new) (printed_default default.now)) }
{
    match default {
        Some(value) => {
            push_piece(out, "=")?;
            push_value(out, value)
        }
        None => Ok(()),
    }
}

fn push_directives(out: &mut String, directives: &[DirectiveUse]) -> Result<(), NoMemory>
    ensures { OnOk result (Adds (string_bytes out.old) (string_bytes out.new) (printed_directives directives.now)) }
{
    for directive in directives {
        push_directive(out, directive)?;
    }
    Ok(())
}

fn push_directive(out: &mut String, directive: &DirectiveUse) -> Result<(), NoMemory>
    ensures { OnOk result (Adds (string_bytes out.old) (string_bytes out.new) (printed_directive directive.now)) }
{
    push_piece(out, "@")?;
    push_word(out, &directive.name)?;
    push_arguments(out, directive.arguments.as_slice())
}

fn push_arguments(out: &mut String, arguments: &[Argument]) -> Result<(), NoMemory>
    ensures { OnOk result (Adds (string_bytes out.old) (string_bytes out.new) (printed_arguments arguments.now)) }
{
    if arguments.is_empty() {
        return Ok(());
    }
    push_piece(out, "(")?;
    push_members(out, arguments)?;
    push_piece(out, ")")
}

#[cycle(values)]
fn push_value(out: &mut String, value: &Literal) -> Result<(), NoMemory>
    ensures { OnOk result (Adds (string_bytes out.old) (string_bytes out.new) (printed_value value.now)) }
{
    match value {
        Literal::Variable(name, _) => {
            push_piece(out, "$")?;
            push_word(out, name)
        }
        Literal::Int(digits, _) => push_piece(out, digits.as_str()),
        Literal::Text(text, _) => push_string(out, text.as_str()),
        Literal::Bool(truth, _) => push_piece(out, truth_word(*truth)),
        Literal::Null(_) => push_piece(out, "null"),
        Literal::Enum(name, _) => push_word(out, name),
        Literal::List(items, _) => {
            push_piece(out, "[")?;
            push_items(out, items.as_slice())?;
            push_piece(out, "]")
        }
        Literal::Object(members, _) => {
            push_piece(out, "{")?;
            push_members(out, members.as_slice())?;
            push_piece(out, "}")
        }
    }
}

#[cycle(values)]
fn push_items(out: &mut String, items: &[Literal]) -> Result<(), NoMemory>
    ensures { OnOk result (Adds (string_bytes out.old) (string_bytes out.new) (flat_map printed_value items.now)) }
{
    for item in items {
        push_value(out, item)?;
    }
    Ok(())
}

/// Writes arguments, or the fields of an input object.
#[cycle(values)]
fn push_members(out: &mut String, members: &[Argument]) -> Result<(), NoMemory>
    ensures { OnOk result (Adds (string_bytes out.old) (string_bytes out.new) (flat_map printed_argument members.now)) }
{
    for member in members {
        push_member(out, member)?;
    }
    Ok(())
}

#[cycle(values)]
fn push_member(out: &mut String, member: &Argument) -> Result<(), NoMemory>
    ensures { OnOk result (Adds (string_bytes out.old) (string_bytes out.new) (printed_argument member.now)) }
{
    push_word(out, &member.name)?;
    push_piece(out, ":")?;
    push_value(out, &member.value)
}

fn truth_word(truth: bool) -> &'static str
    ensures { result.now ≡ truth_word truth }
{
    if truth { "true" } else { "false" }
}

/// Writes a quoted string of this value, and a space.
fn push_string(out: &mut String, value: &str) -> Result<(), NoMemory>
    ensures { OnOk result (Adds (string_bytes out.old) (string_bytes out.new) (string value.now ∷ [])) }
{
    out.push('"')?;
    for character in value.chars() {
        push_character(out, character)?;
    }
    push_piece(out, "\"")
}

/// Writes a character as it stands between the quotes of a string.
fn push_character(out: &mut String, character: char) -> Result<(), NoMemory>
    ensures { OnOk result (string_bytes out.new ≡ string_bytes out.old ++ flat_map quoted_byte (encode_utf8 character)) }
{
    if character == '"' {
        out.push_str("\\\"")?;
    } else if character == '\\' {
        out.push_str("\\\\")?;
    } else if character == '\n' {
        out.push_str("\\n")?;
    } else if character < ' ' {
        push_code(out, character as u32)?;
    } else {
        out.push(character)?;
    }
    Ok(())
}

/// Writes the escape of a control character.
fn push_code(out: &mut String, code: u32) -> Result<(), NoMemory>
    requires { code < 32 }
    ensures { OnOk result (string_bytes out.new ≡ string_bytes out.old ++ (92 ∷ 117 ∷ 48 ∷ 48 ∷ hex_of (code / 16) ∷ hex_of (code % 16) ∷ [])) }
{
    out.push_str("\\u00")?;
    out.push(hex_digit(code / 16))?;
    out.push(hex_digit(code % 16))?;
    Ok(())
}

fn hex_digit(number: u32) -> char
    requires { number < 16 }
    ensures value { result ≡ hex_of number }
    ensures ascii { result < 128 }
{
    let digit = number as u8;
    if digit < 10 {
        (48 + digit) as char
    } else {
        (87 + digit) as char
    }
}

fn push_set(out: &mut String, selections: &Listed<Selection>) -> Result<(), NoMemory>
    ensures { OnOk result (Adds (string_bytes out.old) (string_bytes out.new) (printed_selections selections.now)) }
{
    push_piece(out, "{")?;
    push_selections(out, selections.as_slice())?;
    push_piece(out, "}")
}

#[cycle(selections)]
fn push_selections(out: &mut String, selections: &[Selection]) -> Result<(), NoMemory>
    ensures { OnOk result (Adds (string_bytes out.old) (string_bytes out.new) (flat_map printed_selection selections.now)) }
{
    for selection in selections {
        push_selection(out, selection)?;
    }
    Ok(())
}

#[cycle(selections)]
fn push_selection(out: &mut String, selection: &Selection) -> Result<(), NoMemory>
    ensures { OnOk result (Adds (string_bytes out.old) (string_bytes out.new) (printed_selection selection.now)) }
{
    match selection {
        Selection::Field(field) => push_field(out, field),
        Selection::Spread(spread) => push_spread(out, spread),
        Selection::Inline(fragment) => push_inline(out, fragment),
    }
}

#[cycle(selections)]
fn push_field(out: &mut String, field: &FieldNode) -> Result<(), NoMemory>
    ensures { OnOk result (Adds (string_bytes out.old) (string_bytes out.new) (printed_field field.now)) }
{
    push_alias(out, &field.alias)?;
    push_word(out, &field.name)?;
    push_arguments(out, field.arguments.as_slice())?;
    push_directives(out, field.directives.as_slice())?;
    if field.selections.is_empty() {
        return Ok(());
    }
    push_piece(out, "{")?;
    push_selections(out, field.selections.as_slice())?;
    push_piece(out, "}")
}

fn push_alias(out: &mut String, alias: &Option<Boxed<Text>>) -> Result<(), NoMemory>
    ensures { OnOk result (Adds (string_bytes out.old) (string_bytes out.new) (printed_alias alias.now)) }
{
    match alias {
        Some(name) => {
            push_word(out, name.get())?;
            push_piece(out, ":")
        }
        None => Ok(()),
    }
}

fn push_spread(out: &mut String, spread: &SpreadNode) -> Result<(), NoMemory>
    ensures { OnOk result (Adds (string_bytes out.old) (string_bytes out.new) (printed_spread spread.now)) }
{
    push_piece(out, "...")?;
    push_word(out, &spread.name)?;
    push_directives(out, spread.directives.as_slice())
}

#[cycle(selections)]
fn push_inline(out: &mut String, fragment: &InlineNode) -> Result<(), NoMemory>
    ensures { OnOk result (Adds (string_bytes out.old) (string_bytes out.new) (printed_inline fragment.now)) }
{
    push_piece(out, "...")?;
    push_condition(out, &fragment.condition)?;
    push_directives(out, fragment.directives.as_slice())?;
    push_piece(out, "{")?;
    push_selections(out, fragment.selections.as_slice())?;
    push_piece(out, "}")
}

fn push_condition(out: &mut String, condition: &Option<Text>) -> Result<(), NoMemory>
    ensures { OnOk result (Adds (string_bytes out.old) (string_bytes out.new) (printed_condition condition.now)) }
{
    match condition {
        Some(name) => {
            push_piece(out, "on")?;
            push_word(out, name)
        }
        None => Ok(()),
    }
}
