//! Payloads of a hero's answer, taken and refused.

use gql_merge::{MergeRefusal, Merger};
use gql_payload::decode;
use std::alloc::Global;
use std::test::Fail;

/// Of the hero a deferred fragment is announced.
const ANNOUNCED: &str =
    "{\"data\":{\"hero\":{\"id\":\"1\"}},\"hasNext\":true,\"pending\":[{\"id\":\"0\",\"label\":\"D\",\"path\":[\"hero\"]}]}";

/// The name of the hero, and the end.
const DELIVERED: &str =
    "{\"completed\":[{\"id\":\"0\"}],\"hasNext\":false,\"incremental\":[{\"data\":{\"name\":\"Luke\"},\"id\":\"0\"}]}";

/// What a client says behind its answer that has the announced fragment open.
const KEPT: &str = "|more|1|0|{\"data\":{\"hero\":{\"id\":\"1\"}},\"errors\":[],\"failures\":[]}\n";

/// What a client answers to the payload of a text: `Ok` or the refusal's name.
fn applied(alloc: Global, merger: &mut Merger, text: &str) -> Result<&'static str, Fail> {
    let payload = decode(alloc, text.as_bytes())?;
    match merger.apply(&payload) {
        Ok(()) => Ok("Ok"),
        Err(refusal) => Ok(refusal.name()),
    }
}

/// Whether more comes, how many ids are open, how many fragments failed, and the report.
fn shown(alloc: Global, merger: &Merger) -> Result<String, Fail> {
    let next = if merger.has_next() { "more" } else { "end" };
    let open = merger.open_ids().len();
    let failed = merger.failed().len();
    let report = merger.report()?;
    let report = report.as_str();
    Ok(format!(in alloc; "{next}|{open}|{failed}|{report}")?)
}

/// What a client says of the payload of a text: its answer, and how it stands then.
fn said(alloc: Global, merger: &mut Merger, text: &str) -> Result<String, Fail> {
    let answer = applied(alloc, merger, text)?;
    let state = shown(alloc, merger)?;
    Ok(format!(in alloc; "{answer}|{state}\n")?)
}

/// What a new client says of each text, a line each.
fn all_said(alloc: Global, texts: &[&str]) -> Result<String, Fail> {
    let mut merger = Merger::new(alloc);
    let mut all = String::new(alloc);
    for text in texts {
        let line = said(alloc, &mut merger, text)?;
        all.push_str(line.as_str())?;
    }
    Ok(all)
}

#[test]
fn payloads_refused(rt: HostRuntime) -> Result<(), Fail> {
    let alloc = rt.alloc();
    let mut merger = Merger::new(alloc);
    said(alloc, &mut merger, ANNOUNCED)?;
    for &(text, refusal) in &[
        (
            "{\"hasNext\":true,\"incremental\":[{\"data\":{\"name\":\"2\"},\"id\":\"9\"}]}",
            "UnknownId",
        ),
        (
            "{\"completed\":[{\"id\":\"0\"},{\"id\":\"0\"}],\"hasNext\":true}",
            "UnknownId",
        ),
        (
            "{\"hasNext\":true,\"pending\":[{\"id\":\"0\",\"path\":[]}]}",
            "IdTwice",
        ),
        (
            "{\"hasNext\":true,\"incremental\":[{\"data\":{\"id\":\"2\"},\"id\":\"0\"}]}",
            "Clash",
        ),
        (
            "{\"hasNext\":true,\"incremental\":[{\"data\":{\"name\":\"2\"},\"id\":\"0\",\"subPath\":[\"x\"]}]}",
            "NoSuchPlace",
        ),
        (
            "{\"hasNext\":true,\"incremental\":[{\"id\":\"0\",\"items\":[]}]}",
            "NotAList",
        ),
        ("{\"hasNext\":false}", "OpenAtEnd"),
        ("{\"data\":{},\"hasNext\":true}", "BadInitial"),
    ] {
        let said = said(alloc, &mut merger, text)?;
        let want = format!(in alloc; "{refusal}{KEPT}")?;
        assert_eq!(rt; said.as_str(), want.as_str(), "{text}");
    }
    Ok(())
}

#[test]
fn delivered_and_ended(rt: HostRuntime) -> Result<(), Fail> {
    let alloc = rt.alloc();
    assert_eq!(rt;
        all_said(alloc, &[ANNOUNCED, DELIVERED, DELIVERED])?.as_str(),
        "Ok|more|1|0|{\"data\":{\"hero\":{\"id\":\"1\"}},\"errors\":[],\"failures\":[]}\nOk|end|0|0|{\"data\":{\"hero\":{\"id\":\"1\",\"name\":\"Luke\"}},\"errors\":[],\"failures\":[]}\nAfterEnd|end|0|0|{\"data\":{\"hero\":{\"id\":\"1\",\"name\":\"Luke\"}},\"errors\":[],\"failures\":[]}\n"
    );
    Ok(())
}

#[test]
fn nothing_merged(rt: HostRuntime) -> Result<(), Fail> {
    assert_eq!(rt; Merger::new(rt.alloc()).report()?.as_str(), "none");
    Ok(())
}

#[test]
fn errors_without_data(rt: HostRuntime) -> Result<(), Fail> {
    let unsorted =
        "{\"errors\":[{\"locations\":[{\"column\":2,\"line\":1}],\"message\":\"b\"},{\"locations\":[{\"column\":3,\"line\":1}],\"message\":\"a\"},{\"locations\":[{\"column\":1,\"line\":1}],\"message\":\"a\"}]}";
    assert_eq!(rt;
        all_said(rt.alloc(), &[unsorted])?.as_str(),
        "Ok|end|0|0|{\"data\":null,\"errors\":[{\"locations\":[{\"column\":1,\"line\":1}],\"message\":\"a\"},{\"locations\":[{\"column\":3,\"line\":1}],\"message\":\"a\"},{\"locations\":[{\"column\":2,\"line\":1}],\"message\":\"b\"}],\"failures\":[]}\n"
    );
    Ok(())
}

#[test]
fn failed_fragments(rt: HostRuntime) -> Result<(), Fail> {
    let failed =
        "{\"completed\":[{\"errors\":[{\"locations\":[{\"column\":41,\"line\":1}],\"message\":\"bang\"}],\"id\":\"0\"}],\"hasNext\":true}";
    assert_eq!(rt;
        all_said(rt.alloc(), &[ANNOUNCED, failed, DELIVERED])?.as_str(),
        "Ok|more|1|0|{\"data\":{\"hero\":{\"id\":\"1\"}},\"errors\":[],\"failures\":[]}\nOk|more|0|1|{\"data\":{\"hero\":{\"id\":\"1\"}},\"errors\":[],\"failures\":[{\"errors\":[{\"locations\":[{\"column\":41,\"line\":1}],\"message\":\"bang\"}],\"label\":\"D\",\"path\":[\"hero\"]}]}\nUnknownId|more|0|1|{\"data\":{\"hero\":{\"id\":\"1\"}},\"errors\":[],\"failures\":[{\"errors\":[{\"locations\":[{\"column\":41,\"line\":1}],\"message\":\"bang\"}],\"label\":\"D\",\"path\":[\"hero\"]}]}\n"
    );
    Ok(())
}

#[test]
fn refusals_are_told(rt: HostRuntime) -> Result<(), Fail> {
    let alloc = rt.alloc();
    let told = format!(in alloc; "{}", MergeRefusal::OpenAtEnd)?;
    assert_eq!(rt; told.as_str(), "the last payload leaves an id open");
    Ok(())
}
