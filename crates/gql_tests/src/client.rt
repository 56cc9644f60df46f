//! How often a client is fed, and which boundaries it refuses.

use gql_client::Client;
use std::alloc::Global;
use std::test::Fail;

/// A client that was fed bytes in cuts of this length.
fn fed(alloc: Global, bytes: &[u8], cut: usize) -> Result<Client, Fail> {
    let Ok(mut client) = Client::new(alloc, "-") else {
        return Err(Fail::new("no client"));
    };
    for piece in bytes.chunks(cut.max(1)) {
        if client.feed(piece).is_err() {
            return Ok(client);
        }
    }
    Ok(client)
}

/// How many cuts a client took, and why it refused.
fn shown(alloc: Global, client: &Client) -> Result<String, Fail> {
    let cuts = client.cuts();
    let reason = match client.reason() {
        Some(reason) => reason.as_str(),
        None => "none",
    };
    Ok(format!(in alloc; "{cuts}|{reason}")?)
}

/// The same of a client that was fed these bytes.
fn told(alloc: Global, bytes: &[u8], cut: usize) -> Result<String, Fail> {
    let client = fed(alloc, bytes, cut)?;
    shown(alloc, &client)
}

#[test]
fn no_boundary(rt: HostRuntime) -> Result<(), Fail> {
    assert!(rt; Client::new(rt.alloc(), "").is_err());
    Ok(())
}

#[test]
fn counts(rt: HostRuntime) -> Result<(), Fail> {
    let alloc = rt.alloc();
    // A cut that is refused isn't counted.
    for &(bytes, cut, want) in &[
        ("---\r\n\r\n{\"data\":{}}\r\n-----", 1, "25|none"),
        ("---\r\n\r\n{\"data\":{}}\r\n-----", 7, "4|none"),
        ("-----", 1, "3|byte 4: BadDelimiter"),
        ("---\r\nContent\r\n", 3, "4|byte 13: BadHeader"),
    ] {
        assert_eq!(rt; told(alloc, bytes.as_bytes(), cut)?.as_str(), want);
    }
    Ok(())
}
