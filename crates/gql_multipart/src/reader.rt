//! The reader of a body that comes in cuts.

ghost use Rattle.std.specs.Prelude.{◌≡◌, ◌++◌, ◌<◌, length, ⊤, IfOk, IfErr, OnOk, OnErr};
ghost use mathlib.Core.Option.{none};
ghost use Rattle.std.specs.Borrow.{sem, follows_so};
ghost use Rattle.gql_multipart.specs.Frame.{crlf};
ghost use Rattle.gql_multipart.specs.Body.{mark};
ghost use Rattle.gql_multipart.specs.contracts.reader.Reader.{the_row};
ghost use Rattle.gql_multipart.specs.inner.Reading.{stop_says, has_ended};
ghost use Rattle.gql_multipart.specs.Past.{Past, Kept, Stands, begun, fed, after, kept_after, IsAnswer, IsGiven, RefusesBoundary, IsEnd, said};

use crate::bytes::is_boundary;
use crate::read::{Found, Stop, content, seek};
use crate::refusal::{FrameKind, FrameRefusal};
use gql_tree::NoMemory;
use std::alloc::{AllocError, Global};
use std::marker::Model;

/// What a reader answers.
#[derive(Debug, Drop)]
pub enum Step<'a> {
    /// The content of the next part; its next mark is whole.
    Part(&'a [u8]),
    /// All complete parts were given, and the body goes on.
    More,
    /// All parts were given, and the end mark is whole. What comes behind it is ignored.
    Ended,
}

/// A reader of multipart bodies (RFC 2046, section 5.1) in any cutting.
#[derive(Debug, Drop)]
pub struct Reader {
    /// CRLF and the mark.
    sought: Vec<u8>,
    bytes: Vec<u8>,
    given: usize,
}

impl Model for Reader {
    ghost use Rattle.std.specs.Prelude.{◌<◌, length};
    ghost use Rattle.gql_multipart.specs.Past.{Kept};

    ghost Value = { Kept };

    ghost view = { λ r. record { sought = r.sought.items; bytes = r.bytes.items; given = r.given } };

    ghost invariant = { λ r. 2 < length r.sought.items };
}

impl Reader {
    /// A reader that was fed nothing. Refuses, but for want of memory, only a text that is no
    /// boundary: 1 to 70 letters, digits and signs with no space at the end.
    pub fn new(alloc: Global, boundary: &str) -> Result<Self, FrameRefusal>
        ensures ok { IfOk result (λ reader. Stands reader (begun boundary.now)) }
        ensures refused { IfErr result (λ refusal. RefusesBoundary boundary.now refusal) }
    {
        if !is_boundary(boundary.as_bytes()) {
            return Err(FrameRefusal::At {
                kind: FrameKind::BadBoundary,
                byte: 0,
            });
        }
        let sought = sought_of(alloc, boundary.as_bytes())?;
        Ok(Reader {
            sought,
            bytes: Vec::new(alloc),
            given: 0,
        })
    }

    /// Takes the next cut of the body. An `Err` changes nothing.
    pub fn feed(&mut self, cut: &[u8]) -> Result<(), NoMemory>
        ensures ok { OnOk result ((past : Past) → Stands self.old past → Stands self.new (fed past cut.now)) }
        ensures err { OnErr result (self.new ≡ self.old) }
    {
        self.bytes.extend_from_slice(cut)?;
        Ok(())
    }

    /// The next part that is complete and wasn't given yet; else whether more is needed, the body has
    /// ended, or no body begins with these bytes. A refusal is given again at each call. Needs no
    /// memory.
    pub fn next_part(&mut self) -> Result<Step<'_>, FrameRefusal>
        ensures answer { (past : Past) → Stands self.old past → IsAnswer past (said result) }
        ensures bytes { IsGiven (said result) → self.old.given < length self.old.bytes }
        ensures* after { sem 𝓛 (follows_so the_row the_row self.entry.ghost_name none (λ _ _. ⊤) (λ new. (new ≡ kept_after self.old (said result)) × ((past : Past) → Stands self.old past → Stands new (after past (said result))))) }
    {
        match seek(&self.sought, &self.bytes, self.given) {
            Ok(found) => {
                self.given += 1;
                Ok(Step::Part(content(&self.sought, &self.bytes, found)))
            }
            Err(stop) => stopped(stop),
        }
    }

    /// The input has ended. Refuses as `Truncated` exactly where the bytes are no body, whichever of
    /// their parts were given. Needs no memory.
    pub fn finish(&mut self) -> Result<(), FrameRefusal>
        ensures answer { (past : Past) → Stands self.old past → IsEnd past result }
        ensures same { self.new ≡ self.old }
    {
        let length = self.bytes.len();
        if has_ended(seek(&self.sought, &self.bytes, length)) {
            return Ok(());
        }
        Err(FrameRefusal::At {
            kind: FrameKind::Truncated,
            byte: length as u64,
        })
    }
}

/// What a reader answers where it has found no part.
fn stopped<'a>(stop: Stop) -> Result<Step<'a>, FrameRefusal>
    ensures { said result ≡ stop_says stop }
{
    match stop {
        Stop::More => Ok(Step::More),
        Stop::Ended => Ok(Step::Ended),
        Stop::Refused { kind, byte } => Err(FrameRefusal::At {
            kind,
            byte: byte as u64,
        }),
    }
}

fn has_ended(found: Result<Found, Stop>) -> bool
    ensures { result ≡ has_ended found }
{
    match found {
        Ok(_) => false,
        Err(Stop::More) => false,
        Err(Stop::Ended) => true,
        Err(Stop::Refused { .. }) => false,
    }
}

/// CRLF and the mark of a boundary.
fn sought_of(alloc: Global, boundary: &[u8]) -> Result<Vec<u8>, NoMemory>
    ensures { IfOk result (λ sought. sought.items ≡ crlf ++ mark boundary.now) }
{
    let mut sought = Vec::new(alloc);
    sought.extend_from_slice(b"\r\n--")?;
    sought.extend_from_slice(boundary)?;
    Ok(sought)
}
