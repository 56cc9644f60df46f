//! Writing what a client merged.

ghost use Rattle.std.specs.Prelude.{◌≡◌, ◌⊎◌, IfOk, OnOk, IsErrOf};
ghost use Rattle.gql_io.specs.Faults.{Counts};
ghost use Rattle.gql_merge.specs.Same.{IsTypedState};
ghost use Rattle.gql_tool.specs.inner.Handed.{PutsLine};
ghost use Rattle.gql_client.specs.Heard.{reason_of};
ghost use Rattle.gql_tool.specs.Meets.{Meets};
ghost use Rattle.gql_tool.specs.Replay.{lines_of, merged_line, Tells};

use crate::Status;
use gql_client::Client;
use gql_io::Sink;
use gql_tree::{NoMemory, Text};
use std::alloc::Global;

/// The line that reports what a client merged.
fn merged_line(alloc: Global, client: &Client) -> Result<Text, NoMemory>
    ensures line { IfOk result (λ text. text ≡ merged_line client.now.merger.state) }
    ensures typed { OnOk result (IsTypedState client.now.merger.state) }
{
    let report = client.merger().report()?;
    let report = report.as_str();
    Ok(Text::from_string(format!(in alloc; "merged {report}\n")?))
}

/// Writes the line that reports what a client merged.
pub(crate) fn put_merged_line<O: Sink>(
    alloc: Global,
    client: &Client,
    output: &mut O,
) -> Result<(), Status>
    ensures sent { PutsLine client.now.merger.state (O.sent output.old) (O.sent output.new) result }
    ensures write_fault { Counts (O.faults output.old) (O.faults output.new) (IsErrOf result Status.WriteFault) }
{
    let line = merged_line(alloc, client)?;
    output.put(line.as_str().as_bytes())?;
    Ok(())
}

/// What is written of a client.
fn lines(alloc: Global, client: &Client) -> Result<Text, NoMemory>
    ensures lines { IfOk result (λ text. text ≡ lines_of (reason_of client.now.stop) client.now.merger.state) }
    ensures typed { OnOk result (IsTypedState client.now.merger.state) }
{
    let merged = merged_line(alloc, client)?;
    match client.reason() {
        None => Ok(merged),
        Some(reason) => {
            let reason = reason.as_str();
            let merged = merged.as_str();
            Ok(Text::from_string(format!(in alloc; "refused {reason}\n{merged}")?))
        }
    }
}

/// Writes bytes, and ends with this status.
pub(crate) fn put_and_end<O: Sink>(bytes: &[u8], status: Status, output: &mut O) -> Status
    requires { (status ≡ Status.Done) ⊎ ((status ≡ Status.Refused) ⊎ ((status ≡ Status.StreamRefused) ⊎ (status ≡ Status.TooLong))) }
    ensures meets { Meets (λ o. o ≡ record { status = status; bytes = bytes.now }) result (O.sent output.old) (O.sent output.new) }
    ensures statuses { (result ≡ status) ⊎ (result ≡ Status.WriteFault) }
    ensures write_fault { Counts (O.faults output.old) (O.faults output.new) (result ≡ Status.WriteFault) }
{
    match output.put(bytes) {
        Ok(()) => status,
        Err(_) => Status::WriteFault,
    }
}

/// Writes what is written of a client, and ends with this status.
pub(crate) fn put_lines<O: Sink>(
    alloc: Global,
    client: &Client,
    status: Status,
    output: &mut O,
) -> Status
    requires { (status ≡ Status.Done) ⊎ (status ≡ Status.StreamRefused) }
    ensures meets { Meets (Tells status (reason_of client.now.stop) client.now.merger.state) result (O.sent output.old) (O.sent output.new) }
    ensures statuses { (result ≡ status) ⊎ ((result ≡ Status.WriteFault) ⊎ (result ≡ Status.NoMemory)) }
    ensures write_fault { Counts (O.faults output.old) (O.faults output.new) (result ≡ Status.WriteFault) }
{
    match lines(alloc, client) {
        Ok(lines) => put_and_end(lines.as_str().as_bytes(), status, output),
        Err(NoMemory) => Status::NoMemory,
    }
}
