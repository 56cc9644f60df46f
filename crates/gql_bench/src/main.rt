//! Reads a text again and again, so that its reader can be timed in one process. Its words are `document` or `schema`,
//! which the text is, the name of its file and how many times it is to be read; it prints how many times it was.
//! bench/parse.sh and bench/schema.sh call it.
#![tactic(auto)]

use gql_doc::{ParseRefusal, parse};
use gql_schema::{SchemaRefusal, read_schema};
use std::alloc::Global;
use std::io::ErrorKind;
use std::process::ExitCode;
use std::{env, fs, io};

/// Parses a text so many times, each document dropped before the next one.
fn parse_again(alloc: Global, text: &str, times: u32) -> Result<(), ParseRefusal> {
    for _ in 0..times {
        parse(alloc, text)?;
    }
    Ok(())
}

/// Reads a schema so many times, each schema dropped before the next one.
fn read_schema_again(alloc: Global, text: &str, times: u32) -> Result<(), SchemaRefusal> {
    for _ in 0..times {
        read_schema(alloc, text)?;
    }
    Ok(())
}

/// Reads a text so many times, and tells whether it could be read.
fn read_again(alloc: Global, text: &str, times: u32, is_schema: bool) -> bool {
    if is_schema {
        read_schema_again(alloc, text, times).is_ok()
    } else {
        parse_again(alloc, text, times).is_ok()
    }
}

fn run(rt: &HostRuntime) -> io::Result<()> {
    let mut words = env::args(rt)?.skip(1);
    let (Some(what), Some(name), Some(times)) = (words.next(), words.next(), words.next()) else {
        return Err(io::Error::from(ErrorKind::InvalidInput));
    };
    let Ok(times) = times.as_str().parse::<u32>() else {
        return Err(io::Error::from(ErrorKind::InvalidInput));
    };
    let text = fs::read_to_string(rt, name.as_str())?;
    if !read_again(rt.alloc(), text.as_str(), times, what.as_str() == "schema") {
        return Err(io::Error::from(ErrorKind::InvalidData));
    }
    println!(rt; "read {times} times")
}

fn main(rt: HostRuntime) -> ExitCode {
    match run(&rt) {
        Ok(()) => ExitCode::SUCCESS,
        Err(_) => ExitCode::FAILURE,
    }
}
