//! What ends a client: where and why it refused, as a user is told, or want of memory.

ghost use Rattle.std.specs.Prelude.{◌≡◌, ◌≢◌, List, ℕ, Ok, IfOk};
ghost use Rattle.gql_payload.specs.declared.refusal.PayloadRefusal.TheVariants as payload;
ghost use Rattle.gql_payload.specs.Refusals.{payload_name};
ghost use Rattle.gql_merge.specs.declared.refusal.MergeRefusal.TheVariants as merge;
ghost use Rattle.gql_merge.specs.Refusals.{merge_name};
ghost use Rattle.gql_client.specs.Client.{at_byte, at_payload, at_end};
ghost use Rattle.gql_client.specs.Heard.{IsMisframedBy, answer_of};

use gql_merge::MergeRefusal;
use gql_multipart::{FrameKind, FrameRefusal};
use gql_payload::PayloadRefusal;
use gql_tree::{NoMemory, Text};
use std::alloc::Global;
use thiserror::Error;

/// Why a client takes no more bytes.
#[derive(Clone, Copy, Debug, PartialEq, Eq, Error)]
pub enum ClientRefusal {
    /// The bytes are refused: `Client::reason` says where and why.
    #[error("the body is refused")]
    Refused,
    #[error("no memory left")]
    NoMemory,
}

/// What ended a client.
#[derive(Debug, Drop)]
pub(crate) enum Stop {
    Refused(Text),
    NoMemory,
}

impl From<NoMemory> for Stop {
    ghost use Rattle.gql_client.specs.declared.stop.Stop.TheVariants.{NoMemory};

    ghost from_gives = { λ _ stop. stop ≡ NoMemory };

    fn from(_: NoMemory) -> Self {
        Stop::NoMemory
    }
}

/// The answer that a client gives for good.
pub(crate) fn answer_of(stop: &Stop) -> ClientRefusal
    ensures { result ≡ answer_of stop.now }
{
    match stop {
        Stop::Refused(_) => ClientRefusal::Refused,
        Stop::NoMemory => ClientRefusal::NoMemory,
    }
}

/// A refusal for a reason, if there was memory to write it.
fn stopped(reason: Result<Text, NoMemory>) -> Stop
    ensures { (why : List ℕ) → result ≡ Stop.Refused why → reason ≡ Ok why }
{
    match reason {
        Ok(reason) => Stop::Refused(reason),
        Err(NoMemory) => Stop::NoMemory,
    }
}

/// Where and why a body is refused.
fn at_byte(alloc: Global, byte: u64, kind: FrameKind) -> Result<Text, NoMemory>
    ensures { IfOk result (λ why. why ≡ at_byte byte kind) }
{
    let name = kind.name();
    Ok(Text::from_string(format!(in alloc; "byte {byte}: {name}")?))
}

/// Where and why a payload is refused.
fn at_payload(alloc: Global, number: u64, name: &str) -> Result<Text, NoMemory>
    ensures { IfOk result (λ why. why ≡ at_payload number name.now) }
{
    Ok(Text::from_string(format!(in alloc; "payload {number}: {name}")?))
}

/// What is wrong with the end of a body.
fn at_end(alloc: Global, name: &str) -> Result<Text, NoMemory>
    ensures { IfOk result (λ why. why ≡ at_end name.now) }
{
    Ok(Text::from_string(format!(in alloc; "end: {name}")?))
}

/// Where and why a text is no payload.
fn unread_at(alloc: Global, number: u64, refusal: &PayloadRefusal) -> Result<Text, NoMemory>
    ensures { IfOk result (λ why. why ≡ at_payload number (payload_name refusal.now)) }
{
    let name = refusal.name(alloc)?;
    at_payload(alloc, number, name.as_str())
}

/// A text that is no payload.
pub(crate) fn undecoded(alloc: Global, number: u64, refusal: PayloadRefusal) -> Stop
    ensures { (why : List ℕ) → result ≡ Stop.Refused why → (refusal ≢ payload.NoMemory) × (why ≡ at_payload number (payload_name refusal)) }
{
    match refusal {
        PayloadRefusal::NoMemory => Stop::NoMemory,
        refusal => stopped(unread_at(alloc, number, &refusal)),
    }
}

/// A payload that isn't merged.
pub(crate) fn unmerged(alloc: Global, number: u64, refusal: MergeRefusal) -> Stop
    ensures { (why : List ℕ) → result ≡ Stop.Refused why → (refusal ≢ merge.NoMemory) × (why ≡ at_payload number (merge_name refusal)) }
{
    match refusal {
        MergeRefusal::NoMemory => Stop::NoMemory,
        refusal => stopped(at_payload(alloc, number, refusal.name())),
    }
}

/// A body that is refused for its form.
pub(crate) fn misframed(alloc: Global, refusal: FrameRefusal) -> Stop
    ensures { (why : List ℕ) → result ≡ Stop.Refused why → IsMisframedBy refusal why }
{
    match refusal {
        FrameRefusal::At { kind, byte } => stopped(at_byte(alloc, byte, kind)),
        FrameRefusal::NoMemory => Stop::NoMemory,
    }
}

/// A body whose end is refused.
pub(crate) fn ended_early(alloc: Global, name: &str) -> Stop
    ensures { (why : List ℕ) → result ≡ Stop.Refused why → why ≡ at_end name.now }
{
    stopped(at_end(alloc, name))
}
