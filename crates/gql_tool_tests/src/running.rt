//! How the program ends, over files, an input and an output in memory.

use gql_client::Client;
use gql_io::{MemoryShelf, MemorySink, MemorySource, ShelfFile, SinkFault};
use gql_tool::{Status, tool};
use gql_tree::{Bytes, NoMemory, Text};
use std::alloc::Global;
use std::test::Fail;

/// What a run of the program leaves.
#[derive(Drop)]
pub(crate) struct Ending {
    pub(crate) status: Status,
    pub(crate) output: MemorySink,
    pub(crate) client: Client,
}

impl Ending {
    /// The status, how many cuts the client took, and what is written, with a bar between two.
    pub(crate) fn told(&self, alloc: Global) -> Result<String, Fail> {
        let status = self.status.number();
        let cuts = self.client.cuts();
        let written = self.output.sent().to_vec(alloc)?;
        let Ok(written) = String::from_utf8(written) else {
            return Err(Fail::new("no text"));
        };
        Ok(format!(in alloc; "{status}|{cuts}|{written}")?)
    }
}

/// No call of the output fails.
pub(crate) const NO_FAULT: SinkFault = SinkFault { call: 99, taken: 0 };

/// The schema that requests are executed over.
pub(crate) const SCHEMA: &[u8] =
    b"type Query { hero: Person crew: [Person!] cast: [Person] none: [Person] }\ntype Person { id: ID! name: String! age: Int boom: String!\n  nick(upper: Boolean = false): String friends: [Person!]! rival: Person }\n";

/// What is told of a request that isn't executed yet.
pub(crate) const NOT_BUILT: &str =
    "1|0|---\r\nContent-Type: application/json; charset=utf-8\r\n\r\n{\"errors\":[{\"message\":\"NotBuilt\"}]}\r\n-----\r\n";

/// A schema, tables and a document under the names `s`, `t` and `d`.
pub(crate) fn files(
    alloc: Global,
    schema: &[u8],
    tables: &[u8],
    document: &[u8],
) -> Result<Vec<ShelfFile>, NoMemory> {
    let mut files = Vec::new(alloc);
    for &(name, bytes) in &[("s", schema), ("t", tables), ("d", document)] {
        files.push(ShelfFile {
            name: Text::copy_of(alloc, name)?,
            bytes: Bytes::copy_of(alloc, bytes)?,
        })?;
    }
    Ok(files)
}

/// An input with nothing in it.
pub(crate) fn no_input(alloc: Global) -> MemorySource {
    MemorySource::new(Vec::new(alloc), 0, Vec::new(alloc))
}

/// The words of a line with one space between two; an empty line has none.
pub(crate) fn words(alloc: Global, line: &str) -> Result<Vec<Text>, NoMemory> {
    let mut words = Vec::new(alloc);
    if line.is_empty() {
        return Ok(words);
    }
    for word in line.split(' ') {
        words.push(Text::copy_of(alloc, word)?)?;
    }
    Ok(words)
}

/// The texts, one behind another.
pub(crate) fn joined(alloc: Global, texts: &[&str]) -> Result<String, NoMemory> {
    let mut joined = String::new(alloc);
    for text in texts {
        joined.push_str(text)?;
    }
    Ok(joined)
}

/// Runs the program on a command line, where this call of the output fails.
pub(crate) fn run(
    alloc: Global,
    line: &str,
    mut shelf: MemoryShelf,
    mut input: MemorySource,
    fault: SinkFault,
) -> Result<Ending, Fail> {
    let mut output = MemorySink::new(alloc, vec![in alloc; fault]?);
    let words = words(alloc, line)?;
    let Ok(mut client) = Client::new(alloc, "-") else {
        return Err(Fail::new("no client"));
    };
    let status = tool(
        alloc,
        words.as_slice(),
        &mut shelf,
        &mut input,
        &mut output,
        &mut client,
    );
    Ok(Ending {
        status,
        output,
        client,
    })
}
