//! The program: it takes the words of its command line, calls `tool` over the files of the system,
//! standard input, standard output and a new client, and ends with the number of the status. It writes
//! nothing to standard error.
#![tactic(auto)]

use gql_client::Client;
use gql_io::{FileShelf, StdSink, StdSource};
use gql_tool::{Status, tool};
use gql_tree::Text;
use std::alloc::Global;
use std::env;
use std::io::ErrorKind;
use std::process::ExitCode;

/// The words of a command line.
enum Words {
    Read(Vec<Text>),
    /// Some word is no text in UTF-8.
    NotText,
    NoMemory,
}

/// Reads the words behind the program's own name.
fn read_words(rt: &HostRuntime, alloc: Global) -> Words {
    let arguments = match env::args(rt) {
        Ok(arguments) => arguments,
        Err(error) if error.kind() == ErrorKind::OutOfMemory => return Words::NoMemory,
        Err(_) => return Words::NotText,
    };
    let mut words = Vec::new(alloc);
    for argument in arguments.skip(1) {
        if words.push(Text::from_string(argument)).is_err() {
            return Words::NoMemory;
        }
    }
    Words::Read(words)
}

/// Runs the program on its words.
fn run(rt: &HostRuntime, words: &[Text]) -> Status {
    let Ok(mut client) = Client::new(rt.alloc(), "-") else {
        return Status::NoMemory;
    };
    let mut shelf = FileShelf::new(rt);
    let mut input = StdSource::new(rt.stdin());
    let mut output = StdSink::new(rt.stdout());
    tool(
        rt.alloc(),
        words,
        &mut shelf,
        &mut input,
        &mut output,
        &mut client,
    )
}

fn main(rt: HostRuntime) -> ExitCode {
    let status = match read_words(&rt, rt.alloc()) {
        Words::NotText => Status::Usage,
        Words::NoMemory => Status::NoMemory,
        Words::Read(words) => run(&rt, words.as_slice()),
    };
    ExitCode::from(status.number())
}
