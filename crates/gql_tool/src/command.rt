//! The commands: which words are one, which files it reads, and how it ends.

ghost use Rattle.std.specs.Prelude.{◌≡◌, ◌⊎◌, ◌↔◌, ◌++◌, [], ◌∷◌, ◌≤◌, length, None, IfOk, OnOk, IfErr, IsErr, IsErrOf};
ghost use Rattle.std.specs.Io.KnownBytes.{Keeps};
ghost use Rattle.gql_io.specs.Faults.{Counts, Rose};
ghost use Rattle.gql_io.specs.Told.{Puts};
ghost use Rattle.gql_tool.specs.Words.{form_of, names_of};
ghost use Rattle.gql_tool.specs.Outcome.{names, file_limit};
ghost use Rattle.gql_tool.specs.Local.{LocalWays};
ghost use Rattle.gql_tool.specs.LocalClient.{IsNew, Asks, ClientEnds, ClientOf};
ghost use Rattle.gql_tool.specs.Meets.{Meets, MeetsTold, Answers, IsComplete, IsEnd, ReadsFiles, ReadsInput, NoneLeft, HasFiles, Ready, Serves};
ghost use Rattle.gql_tool.specs.Served.{MergedWay};
ghost use Rattle.gql_tree.specs.Forest.{Forest};
ghost use Rattle.gql_tool.specs.Statuses.{IsOneOf, local_statuses, judged_statuses};
ghost use Rattle.gql_tool.specs.inner.Steps.{file_statuses, Finds, StopsAt, Requests};
ghost use Rattle.gql_tool.specs.hero.Hero.{Runs, judgement_of};

use crate::Status;
use crate::hearing::replay;
use crate::local_words::LocalWords;
use crate::request::{Request, answer, request_of};
use crate::words::{Command, parse};
use gql_client::Client;
use gql_io::{Failed, Shelf, ShelfRefusal, Sink, Source};
use gql_tree::{Bytes, Text};
use std::alloc::Global;

/// The most bytes that a file may have.
const FILE_LIMIT: u64 = 67_108_864;

fn put_line<O: Sink>(words: &[u8], name: &[u8], output: &mut O) -> Result<(), Failed>
    ensures sent { Puts (O.sent output.old) (O.sent output.new) (words.now ++ (name.now ++ 10 ∷ [])) result }
    ensures cause { Counts (O.faults output.old) (O.faults output.new) (IsErr result) }
{
    output.put(words)?;
    output.put(name)?;
    output.put(b"\n")
}

/// Says what is wrong with a file.
fn say<O: Sink>(status: Status, words: &[u8], name: &str, output: &mut O) -> Status
    requires { (status ≡ Status.NoFile) ⊎ (status ≡ Status.TooLong) }
    ensures said { Meets (λ o. o ≡ names status words.now name.now) result (O.sent output.old) (O.sent output.new) }
    ensures status { (result ≡ status) ⊎ (result ≡ Status.WriteFault) }
    ensures write_fault { Counts (O.faults output.old) (O.faults output.new) (result ≡ Status.WriteFault) }
{
    match put_line(words, name.as_bytes(), output) {
        Ok(()) => status,
        Err(_) => Status::WriteFault,
    }
}

/// Reads a file, or says what is wrong with it.
fn file<S: Shelf, O: Sink>(
    alloc: Global,
    name: &str,
    shelf: &mut S,
    output: &mut O,
) -> Result<Bytes, Status>
    ensures found { IfOk result (λ bytes. Finds (S.files shelf.old) name.now bytes) }
    ensures within { IfOk result (λ bytes. length bytes ≤ file_limit) }
    ensures kept { OnOk result (Keeps (O.sent output.old) (O.sent output.new)) }
    ensures stops { IfErr result (λ status. StopsAt (S.files shelf.old) name.now status (O.sent output.old) (O.sent output.new)) }
    ensures statuses { IfErr result (IsOneOf file_statuses) }
    ensures same { S.files shelf.new ≡ S.files shelf.old }
    ensures read_fault { Counts (S.faults shelf.old) (S.faults shelf.new) (IsErrOf result Status.ReadFault) }
    ensures write_fault { Counts (O.faults output.old) (O.faults output.new) (IsErrOf result Status.WriteFault) }
{
    match shelf.read(alloc, name, FILE_LIMIT) {
        Ok(bytes) => Ok(bytes),
        Err(ShelfRefusal::Missing) => Err(say(Status::NoFile, b"no such file: ", name, output)),
        Err(ShelfRefusal::TooLong) => Err(say(Status::TooLong, b"too long: ", name, output)),
        Err(ShelfRefusal::Failed) => Err(Status::ReadFault),
        Err(ShelfRefusal::NoMemory) => Err(Status::NoMemory),
    }
}

/// Reads the files in order, and judges the request that they are.
fn requested<S: Shelf, O: Sink>(
    alloc: Global,
    words: &LocalWords<'_>,
    shelf: &mut S,
    output: &mut O,
) -> Result<Request, Status>
    ensures asks { IfOk result (λ request. Requests (S.files shelf.old) (names_of words.now) (judgement_of request)) }
    ensures runs { IfOk result Runs }
    ensures kept { OnOk result (Keeps (O.sent output.old) (O.sent output.new)) }
    ensures stops { IfErr result (λ status. MeetsTold (S.files shelf.old) (LocalWays (names_of words.now))
        status (O.sent output.old) (O.sent output.new)) }
    ensures statuses { IfErr result (IsOneOf file_statuses) }
    ensures same { S.files shelf.new ≡ S.files shelf.old }
    ensures read_fault { Counts (S.faults shelf.old) (S.faults shelf.new) (IsErrOf result Status.ReadFault) }
    ensures write_fault { Counts (O.faults output.old) (O.faults output.new) (IsErrOf result Status.WriteFault) }
{
    let schema = file(alloc, words.schema, shelf, output)?;
    let tables = file(alloc, words.tables, shelf, output)?;
    let document = file(alloc, words.document, shelf, output)?;
    let request = request_of(
        alloc,
        words.vars,
        schema.as_slice(),
        tables.as_slice(),
        document.as_slice(),
    )?;
    Ok(request)
}

/// The command `local`: the request of three files is answered on this machine alone, and merged by the
/// client.
///
/// It reads the schema, the tables and the document in this order, and ends at the first that is
/// missing or has too many bytes with a line that names it. The client, which was
/// made for the boundary `-` and fed nothing, is fed each piece of the answer when it was written, in
/// cuts of so many bytes as the words say; the line that reports what it merged ends the output.
pub fn local<S: Shelf, O: Sink>(
    alloc: Global,
    words: &LocalWords<'_>,
    shelf: &mut S,
    output: &mut O,
    client: &mut Client,
) -> Status
    requires { IsNew client.old }

    // The causes of what stops it, whether the shelf tells or not.
    ensures read_fault { Counts (S.faults shelf.old) (S.faults shelf.new) (result ≡ Status.ReadFault) }
    ensures write_fault { Counts (O.faults output.old) (O.faults output.new) (result ≡ Status.WriteFault) }
    ensures statuses { IsOneOf local_statuses result }

    // The status, what is written and what the client is, where the shelf tells.
    ensures answers { MeetsTold (S.files shelf.old) (LocalWays (names_of words.now)) result
        (O.sent output.old) (O.sent output.new) }
    ensures client { ClientEnds (Asks (S.files shelf.old) (names_of words.now)) words.now.cut
        client.old client.new (O.sent output.old) (O.sent output.new) result }
    ensures complete { HasFiles (S.files shelf.old) (names_of words.now)
        → ¬ Rose (S.faults shelf.old) (S.faults shelf.new) → ¬ Rose (O.faults output.old) (O.faults output.new)
        → IsOneOf judged_statuses result }

    ensures same { S.files shelf.new ≡ S.files shelf.old }
{
    match requested(alloc, words, shelf, output) {
        Ok(request) => answer(alloc, &request, words.cut, output, client),
        Err(status) => status,
    }
}

/// All that the program does. The client is as `Client::new` gives it for the boundary `-`; `local` feeds
/// it, and every other command leaves it unchanged.
pub fn tool<S: Shelf, I: Source, O: Sink>(
    alloc: Global,
    words: &[Text],
    shelf: &mut S,
    input: &mut I,
    output: &mut O,
    client: &mut Client,
) -> Status
    requires { IsNew client.old }

    // The causes of what stops it, whether shelf and input tell or not.
    ensures usage { (result ≡ Status.Usage) ↔ (form_of words.now ≡ None) }
    ensures read_fault { Counts (S.faults shelf.old) (S.faults shelf.new) (ReadsFiles (form_of words.now) × (result ≡ Status.ReadFault)) }
    ensures input_fault { Counts (I.faults input.old) (I.faults input.new) (ReadsInput (form_of words.now) × (result ≡ Status.ReadFault)) }
    ensures write_fault { Counts (O.faults output.old) (O.faults output.new) (result ≡ Status.WriteFault) }
    ensures statuses { IsEnd (form_of words.now) result }

    // The status, what is written and what the client is, where the one that is read tells.
    ensures answers { Answers (S.files shelf.old) (I.left input.old) (form_of words.now) result (O.sent output.old) (O.sent output.new) }
    ensures client { ClientOf (S.files shelf.old) (form_of words.now) client.old client.new (O.sent output.old) (O.sent output.new) result }
    ensures merges { (f : Forest) → Serves f (I.left input.old) (form_of words.now)
        → Meets (MergedWay f) result (O.sent output.old) (O.sent output.new) }
    ensures complete { Ready (S.files shelf.old) (I.left input.old) (form_of words.now)
        → ¬ Rose (S.faults shelf.old) (S.faults shelf.new) → ¬ Rose (I.faults input.old) (I.faults input.new)
        → ¬ Rose (O.faults output.old) (O.faults output.new) → IsComplete (form_of words.now) result }

    // What is read, and what isn't.
    ensures whole { ReadsInput (form_of words.now) → result ≡ Status.Done → NoneLeft (I.left input.old) (I.left input.new) }
    ensures unread_input { (ReadsInput (form_of words.now) → ⊥) → input.new ≡ input.old }
    ensures unread_shelf { (ReadsFiles (form_of words.now) → ⊥) → shelf.new ≡ shelf.old }
    ensures same { S.files shelf.new ≡ S.files shelf.old }
{
    match parse(words) {
        None => Status::Usage,
        Some(Command::Local(words)) => local(alloc, &words, shelf, output, client),
        Some(Command::Replay { boundary }) => replay(alloc, boundary, input, output),
    }
}
