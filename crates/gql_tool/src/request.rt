//! What follows the reading of the files: the request that they are is executed or refused.

ghost use Rattle.std.specs.Prelude.{◌≡◌, ◌⊎◌, ◌<◌, ℕ, List, Option, None, IfOk, IfErr, IsErrOf};
ghost use Rattle.gql_io.specs.Faults.{Counts};
ghost use Rattle.gql_doc.specs.Refusals.{parse_spot};
ghost use Rattle.gql_tree.specs.declared.Spot.{Spot};
ghost use Rattle.gql_tool.specs.Judged.{Parses, Judged, Executed};
ghost use Rattle.gql_tool.specs.Local.{spot_or_zero, syntax_message, refused, Answered};
ghost use Rattle.gql_tool.specs.LocalClient.{IsNew, ClientEnds};
ghost use Rattle.gql_tool.specs.Meets.{Meets};
ghost use Rattle.gql_tool.specs.Statuses.{IsOneOf};
ghost use Rattle.gql_tool.specs.inner.Steps.{request_statuses, delivery_statuses, ended};
ghost use Rattle.gql_tool.specs.hero.Built.{built, regions_of};
ghost use Rattle.gql_tool.specs.hero.Hero.{IsOf, CanRun, Runs, request_of, judgement_of};

use crate::Status;
use crate::hero::deliver::deliver;
use crate::hero::request::{HeroRequest, built};
use crate::lines::{put_and_end, put_merged_line};
use crate::status::ended;
use gql_client::Client;
use gql_doc::{ParseRefusal, parse};
use gql_io::Sink;
use gql_model::Document;
use gql_multipart::frame;
use gql_payload::encode;
use gql_tree::{Bytes, Fault, Listed, NoMemory, Payload, Spot, Text};
use std::alloc::Global;

/// What a request is judged to be.
#[derive(Debug, Drop)]
pub(crate) enum Request {
    /// Its document isn't UTF-8.
    NoText,
    /// Its document is none of GraphQL.
    NoDocument(ParseRefusal),
    /// This build doesn't execute it.
    NotBuilt,
    /// This build executes it.
    Built(HeroRequest),
}

/// What the parser makes of a text; it fails where there is no memory.
fn parsed(alloc: Global, text: &str) -> Result<Result<Document, ParseRefusal>, NoMemory>
    ensures { IfOk result (λ answer. Parses text.now answer) }
{
    match parse(alloc, text) {
        Err(ParseRefusal::NoMemory) => Err(NoMemory),
        answer => Ok(answer),
    }
}

/// What a request with this document is.
fn with_document(
    alloc: Global,
    vars: &str,
    schema: &[u8],
    tables: &[u8],
    document: &Document,
) -> Result<Request, NoMemory>
    ensures { IfOk result (λ request. request ≡ request_of (built vars.now schema.now tables.now document.now)) }
{
    match built(alloc, vars, schema, tables, document)? {
        Some(request) => Ok(Request::Built(request)),
        None => Ok(Request::NotBuilt),
    }
}

/// What a request is whose document is UTF-8.
fn with_text(
    alloc: Global,
    vars: &str,
    schema: &[u8],
    tables: &[u8],
    text: &str,
) -> Result<Request, NoMemory>
    ensures judged { IfOk result (λ request. Judged vars.now schema.now tables.now text.now (judgement_of request)) }
    ensures built { IfOk result (IsOf vars.now schema.now tables.now text.now) }
{
    match parsed(alloc, text)? {
        Ok(document) => with_document(alloc, vars, schema, tables, &document),
        Err(refusal) => Ok(Request::NoDocument(refusal)),
    }
}

/// What a request is.
pub(crate) fn request_of(
    alloc: Global,
    vars: &str,
    schema: &[u8],
    tables: &[u8],
    document: &[u8],
) -> Result<Request, NoMemory>
    ensures judged { IfOk result (λ request. Judged vars.now schema.now tables.now document.now (judgement_of request)) }
    ensures runs { IfOk result Runs }
{
    match std::str::from_utf8(document) {
        Ok(text) => with_text(alloc, vars, schema, tables, text),
        Err(_) => Ok(Request::NoText),
    }
}

// ---- refusals

/// The place of an error, which has line and column 0 where it has none.
fn spot_or_zero(spot: Option<Spot>) -> Spot
    ensures { result ≡ spot_or_zero spot }
{
    match spot {
        Some(spot) => spot,
        None => Spot { line: 0, column: 0 },
    }
}

/// What is said of a text that is no document.
fn syntax_message(alloc: Global, refusal: ParseRefusal) -> Result<Text, NoMemory>
    ensures { IfOk result (λ text. text ≡ syntax_message refusal) }
{
    let name = refusal.name();
    Ok(Text::from_string(format!(in alloc; "Syntax: {name}")?))
}

/// The body of a request that is refused: one part, with one error.
fn refusal_body(alloc: Global, message: Text, spot: Option<Spot>) -> Result<Bytes, NoMemory>
    ensures { IfOk result (λ bytes. bytes ≡ (refused message spot).bytes) }
{
    let Spot { line, column } = spot_or_zero(spot);
    let mut errors = Listed::new(alloc);
    errors.push(Fault {
        message,
        line,
        column,
        path: None,
    })?;
    let payload = Payload {
        initial: None,
        errors,
        pending: Listed::new(alloc),
        incremental: Listed::new(alloc),
        completed: Listed::new(alloc),
        has_next: None,
    };
    let json = encode(alloc, &payload)?;
    frame(alloc, json.as_slice(), true, true)
}

/// The body of a request whose document is none of GraphQL.
fn syntax_body(alloc: Global, refusal: ParseRefusal) -> Result<Bytes, NoMemory>
    ensures { IfOk result (λ bytes. bytes ≡ (refused (syntax_message refusal) (parse_spot refusal)).bytes) }
{
    let message = syntax_message(alloc, refusal)?;
    refusal_body(alloc, message, refusal.spot())
}

/// The body of a request that is refused as a whole.
fn whole_body(alloc: Global, message: &str) -> Result<Bytes, NoMemory>
    ensures { IfOk result (λ bytes. bytes ≡ (refused message.now None).bytes) }
{
    let message = Text::copy_of(alloc, message)?;
    refusal_body(alloc, message, None)
}

/// Refuses a request with this body, if there was memory to make it.
fn refuse<O: Sink>(body: Result<Bytes, NoMemory>, output: &mut O) -> Status
    ensures meets { (message : List ℕ) (spot : Option Spot) → IfOk body (λ bytes. bytes ≡ (refused message spot).bytes)
        → Meets (λ o. o ≡ refused message spot) result (O.sent output.old) (O.sent output.new) }
    ensures statuses { (result ≡ Status.Refused) ⊎ ((result ≡ Status.WriteFault) ⊎ (result ≡ Status.NoMemory)) }
    ensures write_fault { Counts (O.faults output.old) (O.faults output.new) (result ≡ Status.WriteFault) }
{
    match body {
        Ok(body) => put_and_end(body.as_slice(), Status::Refused, output),
        Err(NoMemory) => Status::NoMemory,
    }
}

// ---- execution

/// Executes a request that is built: the client is fed the body, and the line of what it merged follows.
fn execute<O: Sink>(
    alloc: Global,
    request: &HeroRequest,
    cut: usize,
    output: &mut O,
    client: &mut Client,
) -> Result<(), Status>
    requires runs { CanRun request.now }
    requires cut { 0 < cut }
    requires client { IsNew client.old }
    ensures meets { Meets (Answered (Executed (regions_of request.now))) (ended result) (O.sent output.old) (O.sent output.new) }
    ensures statuses { IfErr result (IsOneOf delivery_statuses) }
    ensures client { ClientEnds (λ f. f ≡ regions_of request.now) cut client.old client.new (O.sent output.old) (O.sent output.new) (ended result) }
    ensures write_fault { Counts (O.faults output.old) (O.faults output.new) (IsErrOf result Status.WriteFault) }
{
    deliver(
        alloc,
        &request.tables,
        &request.document,
        cut,
        output,
        client,
    )?;
    put_merged_line(alloc, client, output)
}

/// Answers a request.
pub(crate) fn answer<O: Sink>(
    alloc: Global,
    request: &Request,
    cut: usize,
    output: &mut O,
    client: &mut Client,
) -> Status
    requires runs { Runs request.now }
    requires cut { 0 < cut }
    requires client { IsNew client.old }
    ensures meets { Meets (Answered (judgement_of request.now)) result (O.sent output.old) (O.sent output.new) }
    ensures statuses { IsOneOf request_statuses result }
    ensures client { ClientEnds (λ f. judgement_of request.now ≡ Executed f) cut client.old client.new (O.sent output.old) (O.sent output.new) result }
    ensures write_fault { Counts (O.faults output.old) (O.faults output.new) (result ≡ Status.WriteFault) }
{
    match request {
        Request::NoText => refuse(whole_body(alloc, "Document is not UTF-8"), output),
        Request::NoDocument(refusal) => refuse(syntax_body(alloc, *refusal), output),
        Request::NotBuilt => refuse(whole_body(alloc, "NotBuilt"), output),
        Request::Built(request) => ended(execute(alloc, request, cut, output, client)),
    }
}
