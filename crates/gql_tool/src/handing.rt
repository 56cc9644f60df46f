//! Handing out a payload: its piece of the multipart body is put at once, and the client is fed the same bytes in cuts.

ghost use Rattle.std.specs.Prelude.{◌≡◌, ◌⊎◌, ◌<◌, Err, IfOk, IfErr, OnOk, IsErrOf};
ghost use Rattle.gql_io.specs.Faults.{Counts};
ghost use Rattle.gql_io.specs.Told.{Puts};
ghost use Rattle.gql_payload.specs.PayloadText.{payload_text};
ghost use Rattle.gql_multipart.specs.Framed.{framed};
ghost use Rattle.gql_tool.specs.inner.Handed.{IsWritten, Handed, Hears, StopsIn, CountsOn};
ghost use Rattle.gql_tool.specs.LocalClient.{cuts_in};
ghost use Rattle.gql_tool.specs.inner.Stages.{is_first, is_last};
ghost use Rattle.gql_client.specs.declared.stop.ClientRefusal.TheVariants as answer;

use crate::Status;
use gql_client::{Client, ClientRefusal};
use gql_io::Sink;
use gql_multipart::frame;
use gql_payload::encode;
use gql_tree::{Bytes, NoMemory, Payload};
use std::alloc::Global;

/// Where a payload stands in its response.
#[derive(Clone, Copy, Debug, PartialEq, Eq)]
pub(crate) enum Stage {
    Only,
    First,
    Last,
}

impl Stage {
    fn is_first(self) -> bool
        ensures { result ≡ is_first self }
    {
        self != Stage::Last
    }

    fn is_last(self) -> bool
        ensures { result ≡ is_last self }
    {
        self != Stage::First
    }
}

/// The piece of the multipart body that carries a payload.
fn piece_of(alloc: Global, payload: &Payload, stage: Stage) -> Result<Bytes, NoMemory>
    ensures piece { IfOk result (λ piece. piece ≡ framed (is_first stage) (is_last stage) (payload_text payload.now)) }
    ensures written { OnOk result (IsWritten payload.now) }
{
    let text = encode(alloc, payload)?;
    frame(alloc, text.as_slice(), stage.is_first(), stage.is_last())
}

/// Feeds a piece to the client, at most `cut` bytes a call.
fn feed_in_cuts(piece: &[u8], cut: usize, client: &mut Client) -> Result<(), ClientRefusal>
    requires { 0 < cut }
    ensures heard { OnOk result (Hears client.old client.new piece.now) }
    ensures cuts { OnOk result (CountsOn client.old client.new (cuts_in cut piece.now)) }
    ensures refused { result ≡ Err answer.Refused → StopsIn client.old client.new piece.now }
{
    let mut rest = piece;
    while !rest.is_empty() {
        let (next, behind) = rest.split_at(cut.min(rest.len()));
        client.feed(next)?;
        rest = behind;
    }
    Ok(())
}

/// Feeds a piece to the client in cuts.
fn feed(piece: &[u8], cut: usize, client: &mut Client) -> Result<(), Status>
    requires { 0 < cut }
    ensures heard { OnOk result (Hears client.old client.new piece.now) }
    ensures cuts { OnOk result (CountsOn client.old client.new (cuts_in cut piece.now)) }
    ensures refused { IsErrOf result Status.StreamRefused → StopsIn client.old client.new piece.now }
    ensures statuses { IfErr result (λ status. (status ≡ Status.StreamRefused) ⊎ (status ≡ Status.NoMemory)) }
{
    match feed_in_cuts(piece, cut, client) {
        Ok(()) => Ok(()),
        Err(ClientRefusal::Refused) => Err(Status::StreamRefused),
        Err(ClientRefusal::NoMemory) => Err(Status::NoMemory),
    }
}

/// Puts a payload's piece, and feeds it to the client in cuts.
pub(crate) fn hand_out<O: Sink>(
    alloc: Global,
    payload: &Payload,
    stage: Stage,
    cut: usize,
    output: &mut O,
    client: &mut Client,
) -> Result<(), Status>
    requires { 0 < cut }
    ensures handed { Handed payload.now (framed (is_first stage) (is_last stage) (payload_text payload.now)) cut
        (O.sent output.old) (O.sent output.new) client.old client.new result }
    ensures write_fault { Counts (O.faults output.old) (O.faults output.new) (IsErrOf result Status.WriteFault) }
{
    let piece = piece_of(alloc, payload, stage)?;
    output.put(piece.as_slice())?;
    feed(piece.as_slice(), cut, client)
}
