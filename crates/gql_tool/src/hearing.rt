//! The command `replay`: a body comes from the input, and what a client merges of it is written.

ghost use Rattle.std.specs.Prelude.{◌≡◌, ◌+◌, ◌-◌, ◌<◌, ◌≤◌, ◌≢◌, ◌⊎◌, ◌++◌, length, List, ℕ, Some, IfOk, IfErr, IsErrOf};
ghost use Rattle.std.specs.Io.KnownBytes.{Keeps};
ghost use Rattle.gql_io.specs.Faults.{Counts};
ghost use Rattle.gql_client.specs.Heard.{Stands, nothing_heard};
ghost use Rattle.gql_tool.specs.inner.Hearing.{EndsAt, StillTells, heard_of, hearing_of};
ghost use Rattle.gql_tool.specs.Meets.{Meets, MeetsTold, NoneLeft};
ghost use Rattle.gql_tool.specs.Served.{IsServed, MergedWay};
ghost use Rattle.gql_tree.specs.Forest.{Forest};
ghost use Rattle.gql_tool.specs.Statuses.{IsOneOf, replay_statuses};
ghost use Rattle.gql_tool.specs.Replay.{budget, HeardWays, ReplayWays};

use crate::Status;
use crate::lines::{put_and_end, put_lines};
use gql_client::{Client, ClientRefusal};
use gql_io::{Sink, Source};
use gql_multipart::FrameRefusal;
use std::alloc::Global;

/// The most bytes of a body that are heard.
const BUDGET: usize = 1_073_741_824;

/// How the hearing of an input ends.
#[derive(Clone, Copy, Debug, PartialEq, Eq)]
pub(crate) enum Hearing {
    /// The input has ended, and the client took all.
    Ended,
    /// The client refused.
    Refused,
    /// The client took as many bytes as are heard, and more came.
    TooLong,
    /// The input failed.
    Fault,
    NoMemory,
}

fn hearing_of(refusal: ClientRefusal) -> Hearing
    ensures { result ≡ hearing_of refusal }
{
    match refusal {
        ClientRefusal::Refused => Hearing::Refused,
        ClientRefusal::NoMemory => Hearing::NoMemory,
    }
}

/// Hears the next bytes of an input of which the client has taken `count`, and gives their number.
fn hear_next<I: Source>(
    client: &mut Client,
    input: &mut I,
    room: &mut [u8],
    count: usize,
) -> Result<usize, Hearing>
    requires room { 0 < length room.old }
    requires within { count ≤ budget }
    ensures goes_on { IfOk result (λ n. (0 < n) × (count + n ≤ budget)) }
    ensures heard { IfOk result (λ n. (boundary front rest : List ℕ) → length front ≡ count → I.left input.old ≡ Some rest → Stands client.old (heard_of boundary front)
        → (piece back : List ℕ) × (rest ≡ piece ++ back) × (length piece ≡ n) × (I.left input.new ≡ Some back) × Stands client.new (heard_of boundary (front ++ piece))) }
    ensures told { IfOk result (λ _. StillTells (I.left input.old) (I.left input.new)) }
    ensures ended { IsErrOf result Hearing.Ended → NoneLeft (I.left input.old) (I.left input.new) }
    ensures ends { IfErr result (λ end. (boundary front rest : List ℕ) → length front ≡ count → I.left input.old ≡ Some rest → Stands client.old (heard_of boundary front)
        → EndsAt boundary front rest client.new end) }
    ensures cause { Counts (I.faults input.old) (I.faults input.new) (IsErrOf result Hearing.Fault) }
{
    let taken = match input.take(room) {
        Ok(0) => return Err(Hearing::Ended),
        Ok(taken) => taken,
        Err(_) => return Err(Hearing::Fault),
    };
    let fits = taken.min(BUDGET - count);
    if let Err(refusal) = client.feed(&room[..fits]) {
        return Err(hearing_of(refusal));
    }
    if fits < taken {
        return Err(Hearing::TooLong);
    }
    Ok(taken)
}

/// Hears an input to its end, to the client's first refusal, or to the budget.
pub(crate) fn hear<I: Source>(client: &mut Client, input: &mut I) -> Hearing
    ensures ends { (boundary bytes : List ℕ) → I.left input.old ≡ Some bytes → Stands client.old (nothing_heard boundary)
        → (front rest : List ℕ) × (bytes ≡ front ++ rest) × (length front ≤ budget) × EndsAt boundary front rest client.new result }
    ensures ended { result ≡ Hearing.Ended → NoneLeft (I.left input.old) (I.left input.new) }
    ensures cause { Counts (I.faults input.old) (I.faults input.new) (result ≡ Hearing.Fault) }
{
    let mut room = [0; 65_536];
    let mut count = 0;
    loop {
        match hear_next(client, input, &mut room, count) {
            Ok(taken) => count += taken,
            Err(end) => return end,
        }
    }
}

/// Tells the client that the input has ended, and writes what is written of it.
fn end<O: Sink>(alloc: Global, client: &mut Client, output: &mut O) -> Status
    ensures meets { (boundary bytes : List ℕ) → length bytes ≤ budget → Stands client.old (heard_of boundary bytes)
        → Meets (HeardWays boundary bytes) result (O.sent output.old) (O.sent output.new) }
    ensures statuses { IsOneOf replay_statuses result × (result ≢ Status.ReadFault) }
    ensures write_fault { Counts (O.faults output.old) (O.faults output.new) (result ≡ Status.WriteFault) }
{
    match client.finish() {
        Ok(()) => put_lines(alloc, client, Status::Done, output),
        Err(ClientRefusal::Refused) => put_lines(alloc, client, Status::StreamRefused, output),
        Err(ClientRefusal::NoMemory) => Status::NoMemory,
    }
}

/// Hears the input, and writes what is written of the client.
fn replay_to<I: Source, O: Sink>(
    alloc: Global,
    client: &mut Client,
    input: &mut I,
    output: &mut O,
) -> Status
    ensures meets { (boundary bytes : List ℕ) → I.left input.old ≡ Some bytes → Stands client.old (nothing_heard boundary)
        → Meets (HeardWays boundary bytes) result (O.sent output.old) (O.sent output.new) }
    ensures untold { result ≡ Status.ReadFault → Keeps (O.sent output.old) (O.sent output.new) }
    ensures whole { result ≡ Status.Done → NoneLeft (I.left input.old) (I.left input.new) }
    ensures statuses { IsOneOf replay_statuses result }
    ensures read_fault { Counts (I.faults input.old) (I.faults input.new) (result ≡ Status.ReadFault) }
    ensures write_fault { Counts (O.faults output.old) (O.faults output.new) (result ≡ Status.WriteFault) }
{
    match hear(client, input) {
        Hearing::Ended => end(alloc, client, output),
        Hearing::Refused => put_lines(alloc, client, Status::StreamRefused, output),
        Hearing::TooLong => put_and_end(b"too long: body\n", Status::TooLong, output),
        Hearing::Fault => Status::ReadFault,
        Hearing::NoMemory => Status::NoMemory,
    }
}

/// The command `replay`: a multipart body with this boundary comes from the input, and what a client
/// merges of it is written.
///
/// It reads to the end of the input, to the first refusal, or as far as 1,073,741,824 bytes.
pub fn replay<I: Source, O: Sink>(
    alloc: Global,
    boundary: &str,
    input: &mut I,
    output: &mut O,
) -> Status
    ensures answers { MeetsTold (I.left input.old) (ReplayWays boundary.now) result (O.sent output.old) (O.sent output.new) }
    ensures whole { result ≡ Status.Done → NoneLeft (I.left input.old) (I.left input.new) }
    ensures statuses { IsOneOf replay_statuses result }
    ensures read_fault { Counts (I.faults input.old) (I.faults input.new) (result ≡ Status.ReadFault) }
    ensures write_fault { Counts (O.faults output.old) (O.faults output.new) (result ≡ Status.WriteFault) }

    // The body that `local` writes is merged to the defined response.
    ensures merges { (f : Forest) → IsServed f boundary.now (I.left input.old)
        → Meets (MergedWay f) result (O.sent output.old) (O.sent output.new) }
{
    match Client::new(alloc, boundary) {
        Ok(client) => {
            let mut client = client;
            replay_to(alloc, &mut client, input, output)
        }
        Err(FrameRefusal::NoMemory) => Status::NoMemory,
        Err(FrameRefusal::At { .. }) => put_and_end(
            b"refused byte 0: BadBoundary\nmerged none\n",
            Status::StreamRefused,
            output,
        ),
    }
}
