//! The client's end: the bytes of a body, in any cutting, become one merged response.

ghost use Rattle.std.specs.Prelude.{◌≡◌, ◌+◌, ◌-◌, ◌<◌, ◌++◌, ◌∷◌, [], length, true, false, List, ℕ, None, Some, Ok, Err, IfOk, IfErr, OnOk, OnErr, is_ok, option_map, cond};
ghost use Rattle.gql_multipart.specs.Past.{RefusesBoundary};
ghost use Rattle.gql_multipart.specs.Body.{IsOpen};
ghost use Rattle.gql_client.specs.Client.{counted, Takes, AreAll, Refuses, AcceptsEnd, RefusesEnd};
ghost use Rattle.gql_client.specs.declared.stop.ClientRefusal.TheVariants as answer;
ghost use Rattle.gql_client.specs.Heard.{Heard, Stands, Took, nothing_heard, heard, IsRefused, IsRefusedAtEnd, StopsFor, answer_of, reason_of};

use crate::stop::{ClientRefusal, Stop, answer_of, ended_early, misframed, undecoded, unmerged};
use gql_merge::Merger;
use gql_multipart::{FrameRefusal, Reader, Step};
use gql_payload::decode;
use gql_tree::Text;
use std::alloc::Global;

/// The client of one answer: it reads parts, decodes them, and merges their payloads.
#[derive(Debug, Drop)]
pub struct Client {
    alloc: Global,
    reader: Reader,
    merger: Merger,
    payloads: u64,
    cuts: u64,
    stop: Option<Stop>,
}

/// Decodes the text of a part, and merges its payload.
fn take_text(alloc: Global, text: &[u8], number: u64, merger: &mut Merger) -> Result<(), Stop>
    ensures taken { OnOk result (Takes number text.now merger.old.state (Ok merger.new.state)) }
    ensures refused { (why : List ℕ) → result ≡ Err (Stop.Refused why) → Takes number text.now merger.old.state (Err why) }
    ensures kept { OnErr result (merger.new ≡ merger.old) }
{
    let payload = match decode(alloc, text) {
        Ok(payload) => payload,
        Err(refusal) => return Err(undecoded(alloc, number, refusal)),
    };
    match merger.apply(&payload) {
        Ok(()) => Ok(()),
        Err(refusal) => Err(unmerged(alloc, number, refusal)),
    }
}

impl Client {
    /// A client that was fed nothing. Refuses, but for want of memory, only a text that is no boundary.
    pub fn new(alloc: Global, boundary: &str) -> Result<Self, FrameRefusal>
        ensures ok { IfOk result (λ client. Stands client (nothing_heard boundary.now)) }
        ensures cuts { IfOk result (λ client. client.cuts ≡ 0) }
        ensures refused { IfErr result (RefusesBoundary boundary.now) }
    {
        Ok(Client {
            alloc,
            reader: Reader::new(alloc, boundary)?,
            merger: Merger::new(alloc),
            payloads: 0,
            cuts: 0,
            stop: None,
        })
    }

    /// Takes the next bytes of the body, and decodes and merges each part that they complete. Once it
    /// has refused, for want of memory too, it and `finish` give that answer for good.
    pub fn feed(&mut self, piece: &[u8]) -> Result<(), ClientRefusal>
        ensures taken { OnOk result ((h : Heard) → Stands self.old h → Stands self.new (heard h piece.now)) }
        ensures refused { result ≡ Err answer.Refused → (h : Heard) → Stands self.old h
            → IsRefused self.new h.boundary (h.bytes ++ piece.now) }
        ensures stops { IfErr result (StopsFor self.new) }
        ensures for_good { (stop : Stop) → self.old.stop ≡ Some stop → (result ≡ Err (answer_of stop)) × (self.new ≡ self.old) }
        ensures cuts { self.new.cuts ≡ cond (is_ok result) (counted (self.old.cuts + 1)) self.old.cuts }
    {
        self.going()?;
        match self.take_in(piece) {
            Ok(()) => {
                self.cuts = self.cuts.saturating_add(1);
                Ok(())
            }
            Err(stop) => Err(self.end_with(stop)),
        }
    }

    /// The input has ended. Refuses bytes that are no body as `Truncated`, and a body whose last
    /// payload said that more comes as `NotFinished`. Once it has refused, for want of memory too, it
    /// and `feed` give that answer for good.
    pub fn finish(&mut self) -> Result<(), ClientRefusal>
        ensures taken { OnOk result ((h : Heard) → Stands self.old h → Stands self.new h × AcceptsEnd h.boundary h.bytes self.new.merger.state) }
        ensures refused { result ≡ Err answer.Refused → (h : Heard) → Stands self.old h → IsRefusedAtEnd self.new h.boundary h.bytes }
        ensures merger { self.new.merger ≡ self.old.merger }
        ensures stops { IfErr result (StopsFor self.new) }
        ensures for_good { (stop : Stop) → self.old.stop ≡ Some stop → (result ≡ Err (answer_of stop)) × (self.new ≡ self.old) }
    {
        self.going()?;
        match self.end() {
            Ok(()) => Ok(()),
            Err(stop) => Err(self.end_with(stop)),
        }
    }

    /// Where and why the client refused, as `byte N: NAME`, `payload K: NAME` or `end: NAME`; none
    /// exactly where it didn't.
    pub fn reason(&self) -> Option<&Text>
        ensures { option_map (λ reason. reason.now) result ≡ reason_of self.now.stop }
    {
        match &self.stop {
            Some(Stop::Refused(reason)) => Some(reason),
            _ => None,
        }
    }

    /// What was merged so far.
    pub fn merger(&self) -> &Merger
        ensures { result.now ≡ self.now.merger }
    {
        &self.merger
    }

    /// How many calls of `feed` took their bytes; at most 2^64 - 1.
    pub fn cuts(&self) -> u64
        ensures { result ≡ self.now.cuts }
    {
        self.cuts
    }

    /// Whether it takes bytes, or the answer that it gives for good.
    fn going(&self) -> Result<(), ClientRefusal>
        ensures going { OnOk result (self.now.stop ≡ None) }
        ensures stopped { IfErr result (StopsFor self.now) }
    {
        match &self.stop {
            None => Ok(()),
            Some(stop) => Err(answer_of(stop)),
        }
    }

    /// Keeps what ended it, and gives the answer.
    fn end_with(&mut self, stop: Stop) -> ClientRefusal
        ensures answer { result ≡ answer_of stop }
        ensures kept { self.new ≡ record self.old { stop = Some stop } }
    {
        let refusal = answer_of(&stop);
        self.stop = Some(stop);
        refusal
    }

    /// Takes the bytes, and each part that they complete.
    fn take_in(&mut self, piece: &[u8]) -> Result<(), Stop>
        ensures taken { OnOk result ((h : Heard) (contents : List (List ℕ)) → Took self.old h contents
            → (more : List (List ℕ)) × Took self.new (heard h piece.now) more × AreAll h.boundary (h.bytes ++ piece.now) more × IsOpen h.boundary (h.bytes ++ piece.now)) }
        ensures refused { (why : List ℕ) → result ≡ Err (Stop.Refused why) → (h : Heard) (contents : List (List ℕ)) → Took self.old h contents
            → Refuses h.boundary (h.bytes ++ piece.now) self.new.merger.state why }
        ensures same { (self.new.stop ≡ self.old.stop) × (self.new.cuts ≡ self.old.cuts) }
    {
        self.reader.feed(piece)?;
        while self.take_part()? {}
        Ok(())
    }

    /// Takes the next part that is complete; whether there was one.
    fn take_part(&mut self) -> Result<bool, Stop>
        ensures part { result ≡ Ok true → (h : Heard) (contents : List (List ℕ)) → Took self.old h contents → (content : List ℕ) × Took self.new h (contents ++ content ∷ []) }
        ensures none { result ≡ Ok false → (h : Heard) (contents : List (List ℕ)) → Took self.old h contents
            → Took self.new h contents × AreAll h.boundary h.bytes contents × IsOpen h.boundary h.bytes }
        ensures refused { (why : List ℕ) → result ≡ Err (Stop.Refused why) → (h : Heard) (contents : List (List ℕ)) → Took self.old h contents
            → Refuses h.boundary h.bytes self.new.merger.state why }
        ensures shorter { result ≡ Ok true → length self.new.reader.bytes - self.new.reader.given < length self.old.reader.bytes - self.old.reader.given }
        ensures same { (self.new.stop ≡ self.old.stop) × (self.new.cuts ≡ self.old.cuts) }
    {
        match self.reader.next_part() {
            Ok(Step::Part(text)) => {
                take_text(self.alloc, text, self.payloads, &mut self.merger)?;
                self.payloads = self.payloads.saturating_add(1);
                Ok(true)
            }
            Ok(Step::More) => Ok(false),
            Ok(Step::Ended) => Ok(false),
            Err(refusal) => Err(misframed(self.alloc, refusal)),
        }
    }

    /// What the end of the input adds.
    fn end(&mut self) -> Result<(), Stop>
        ensures taken { OnOk result ((h : Heard) → Stands self.old h → AcceptsEnd h.boundary h.bytes self.old.merger.state) }
        ensures refused { (why : List ℕ) → result ≡ Err (Stop.Refused why) → (h : Heard) → Stands self.old h
            → RefusesEnd h.boundary h.bytes self.old.merger.state why }
        ensures same { self.new ≡ self.old }
    {
        if self.reader.finish().is_err() {
            return Err(ended_early(self.alloc, "Truncated"));
        }
        if self.merger.has_next() {
            return Err(ended_early(self.alloc, "NotFinished"));
        }
        Ok(())
    }
}
