//! A body from its first byte on, part after part.

ghost use Rattle.std.specs.Prelude.{◌≡◌, ◌+◌, ◌-◌, ◌<◌, ◌≤◌, length, drop, IfOk, true, ◌==◌};
ghost use Rattle.gql_multipart.specs.inner.Reading.{IsAlive, region, second_dash, mark_end, part_end, skip, seek, content_of};

use crate::place::{Moved, Place, step};
use crate::refusal::FrameKind;

/// At most so many bytes stand in a preamble, its CRLF counted, and in the header lines of a part.
const PREAMBLE: usize = 16_384;

const HEADER: usize = 16_384;

/// A content has at most 67,108,864 bytes, and the CRLF before it is counted with it.
const CONTENT: usize = 67_108_866;

/// At most so many spaces and tabs stand behind a mark.
const BLANKS: usize = 64;

/// Why no further part is found.
#[derive(Clone, Copy)]
pub(crate) enum Stop {
    More,
    Ended,
    Refused { kind: FrameKind, byte: usize },
}

/// A part: where its content begins, and where its next mark has ended.
#[derive(Clone, Copy)]
pub(crate) struct Found {
    pub(crate) content: usize,
    pub(crate) next: usize,
}

/// Reads one region, from this place on, and gives where it ends.
fn region(
    sought: &[u8],
    kind: FrameKind,
    place: Place,
    bytes: &[u8],
    from: usize,
) -> Result<usize, Stop>
    requires sought { 2 < length sought.now }
    requires place { IsAlive sought.now place }
    ensures value { result ≡ region sought.now kind place bytes.now from }
    ensures grows { IfOk result (λ next. (from < next) × (next ≤ length bytes.now)) }
{
    let mut place = place;
    for index in from..bytes.len() {
        match step(sought, place, bytes[index]) {
            Moved::Go(next) => place = next,
            Moved::Whole => return Ok(index + 1),
            Moved::Bad => {
                return Err(Stop::Refused {
                    kind,
                    byte: index + 1,
                });
            }
        }
    }
    Err(Stop::More)
}

/// Reads what stands behind a mark.
fn mark_end(sought: &[u8], first: bool, bytes: &[u8], at: usize) -> Result<usize, Stop>
    requires { 2 < length sought.now }
    ensures value { result ≡ mark_end sought.now first bytes.now at }
    ensures grows { IfOk result (λ next. (at < next) × (next ≤ length bytes.now)) }
{
    if !first && at < bytes.len() && bytes[at] == b'-' {
        return Err(second_dash(bytes, at + 1));
    }
    region(
        sought,
        FrameKind::BadDelimiter,
        Place::Blanks { room: BLANKS },
        bytes,
        at,
    )
}

/// What stands behind a mark and one dash.
fn second_dash(bytes: &[u8], at: usize) -> Stop
    ensures { result ≡ second_dash at (drop at bytes.now) }
{
    if at >= bytes.len() {
        return Stop::More;
    }
    if bytes[at] == b'-' {
        return Stop::Ended;
    }
    Stop::Refused {
        kind: FrameKind::BadDelimiter,
        byte: at + 1,
    }
}

/// Reads the part behind a mark.
fn part_end(sought: &[u8], first: bool, bytes: &[u8], at: usize) -> Result<Found, Stop>
    requires { 2 < length sought.now }
    ensures value { result ≡ part_end sought.now first bytes.now at }
    ensures grows { IfOk result (λ found. (at < found.next) × (found.content ≤ found.next) × (found.next ≤ length bytes.now)) }
{
    let header = mark_end(sought, first, bytes, at)?;
    let line = Place::Line { room: HEADER };
    let content = region(sought, FrameKind::BadHeader, line, bytes, header)?;
    let behind = Place::Mark {
        room: CONTENT,
        matched: 2,
    };
    let next = region(sought, FrameKind::PartTooLong, behind, bytes, content)?;
    Ok(Found { content, next })
}

/// Reads so many parts, from behind the first mark on.
fn skip(sought: &[u8], count: usize, bytes: &[u8], at: usize) -> Result<usize, Stop>
    requires { 2 < length sought.now }
    ensures value { result ≡ skip sought.now count true bytes.now at }
    ensures grows { IfOk result (λ next. at + count ≤ next) }
{
    let mut at = at;
    for number in 0..count {
        at = part_end(sought, number == 0, bytes, at)?.next;
    }
    Ok(at)
}

/// Reads the part behind so many parts. What is sought is CRLF and the mark.
pub(crate) fn seek(sought: &[u8], bytes: &[u8], given: usize) -> Result<Found, Stop>
    requires { 2 < length sought.now }
    ensures value { result ≡ seek sought.now bytes.now given }
    ensures grows { IfOk result (λ found. (given < found.next) × (found.content ≤ found.next) × (found.next ≤ length bytes.now)) }
{
    let before = Place::Mark {
        room: PREAMBLE,
        matched: 2,
    };
    let first = region(sought, FrameKind::BadPreamble, before, bytes, 0)?;
    let at = skip(sought, given, bytes, first)?;
    part_end(sought, given == 0, bytes, at)
}

/// The content of a part that was found.
pub(crate) fn content<'a>(sought: &[u8], bytes: &'a [u8], found: Found) -> &'a [u8]
    requires order { found.content ≤ found.next }
    requires within { found.next ≤ length bytes.now }
    ensures { result.now ≡ content_of sought.now bytes.now found }
{
    let end = found.next.saturating_sub(sought.len());
    if end <= found.content {
        return &bytes[found.content..found.content];
    }
    &bytes[found.content..end]
}
