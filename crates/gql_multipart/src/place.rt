//! One byte of a body, region by region.
//!
//! ```text
//! preamble, content    Mark --(CRLF and the mark)--> whole
//! delimiter line       Blanks --CR--> LastFeed --LF--> whole
//! header               Line --CR--> LastFeed --LF--> whole
//!                      Line --> Name --:--> Value --CR--> FieldFeed --LF--> Line
//! ```
//!
//! Each place has the room that its region has left. A byte is refused as soon as what must still
//! come can't fit into this room.

ghost use Rattle.std.specs.Prelude.{◌≡◌, ◌+◌, ◌<◌, length};
ghost use Rattle.gql_multipart.specs.inner.Reading.{IsAlive, IsShort, step, mark_step, missed, matched_step, blank_step, line_step, name_step, value_step, bar, feed_step, named, valued, clashes, name_need};

use crate::bytes::{byte_at, is_blank, is_token, is_value};

/// Where the next byte stands in its region.
#[derive(Clone, Copy)]
pub(crate) enum Place {
    /// CRLF and a mark are sought, of which `matched` bytes have come. `room` bytes may still stand
    /// before them.
    Mark { room: usize, matched: usize },
    /// Behind a mark: spaces and tabs, `room` of them at most, and CRLF.
    Blanks { room: usize },
    /// At the beginning of a header line, or of the empty line.
    Line { room: usize },
    /// In the name of a header line that begins with so much of CRLF and a mark, less the CRLF.
    Name { room: usize, barred: Option<usize> },
    /// In its value.
    Value { room: usize, barred: Option<usize> },
    /// Behind the CR of a header line.
    FieldFeed { room: usize },
    /// Behind the CR that ends a delimiter line or is the empty line's.
    LastFeed,
}

/// What a byte does.
#[derive(Clone, Copy)]
pub(crate) enum Moved {
    Go(Place),
    /// The region ends with this byte.
    Whole,
    /// No region goes on with this byte.
    Bad,
}

/// One byte. What is sought is CRLF and the mark.
pub(crate) fn step(sought: &[u8], place: Place, byte: u8) -> Moved
    requires sought { 2 < length sought.now }
    requires place { IsAlive sought.now place }
    ensures { result ≡ step sought.now place byte }
{
    match place {
        Place::Mark { room, matched } => mark_step(sought, room, matched, byte),
        Place::Blanks { room } => blank_step(room, byte),
        Place::Line { room } => line_step(sought, room, byte),
        Place::Name { room, barred } => name_step(sought, room, barred, byte),
        Place::Value { room, barred } => value_step(sought, room, barred, byte),
        Place::FieldFeed { room } => feed_step(room, byte),
        Place::LastFeed => {
            if byte == b'\n' {
                Moved::Whole
            } else {
                Moved::Bad
            }
        }
    }
}

fn mark_step(sought: &[u8], room: usize, matched: usize, byte: u8) -> Moved
    requires { matched < length sought.now }
    ensures { result ≡ mark_step sought.now room matched byte }
{
    if sought[matched] == byte {
        return matched_step(sought, room, matched);
    }
    if byte == b'\r' {
        missed(room, matched, 1)
    } else {
        missed(room, matched + 1, 0)
    }
}

fn matched_step(sought: &[u8], room: usize, matched: usize) -> Moved
    requires { matched < length sought.now }
    ensures { result ≡ matched_step sought.now room matched }
{
    if matched + 1 == sought.len() {
        return Moved::Whole;
    }
    Moved::Go(Place::Mark {
        room,
        matched: matched + 1,
    })
}

fn missed(room: usize, passed: usize, matched: usize) -> Moved
    ensures { result ≡ missed room passed matched }
{
    if passed > room {
        return Moved::Bad;
    }
    Moved::Go(Place::Mark {
        room: room - passed,
        matched,
    })
}

fn blank_step(room: usize, byte: u8) -> Moved
    ensures { result ≡ blank_step room byte }
{
    if byte == b'\r' {
        return Moved::Go(Place::LastFeed);
    }
    if !is_blank(byte) || room < 1 {
        return Moved::Bad;
    }
    Moved::Go(Place::Blanks { room: room - 1 })
}

fn line_step(sought: &[u8], room: usize, byte: u8) -> Moved
    requires { 2 < length sought.now }
    ensures { result ≡ line_step sought.now room byte }
{
    if byte == b'\r' {
        return Moved::Go(Place::LastFeed);
    }
    if !is_token(byte) {
        return Moved::Bad;
    }
    named(sought, room, bar(sought, Some(2), byte))
}

fn name_step(sought: &[u8], room: usize, barred: Option<usize>, byte: u8) -> Moved
    requires { IsShort sought.now barred }
    ensures { result ≡ name_step sought.now room barred byte }
{
    if byte == b':' {
        return valued(sought, room, bar(sought, barred, byte));
    }
    if !is_token(byte) {
        return Moved::Bad;
    }
    named(sought, room, bar(sought, barred, byte))
}

fn value_step(sought: &[u8], room: usize, barred: Option<usize>, byte: u8) -> Moved
    requires { IsShort sought.now barred }
    ensures { result ≡ value_step sought.now room barred byte }
{
    if byte == b'\r' {
        if room < 2 {
            return Moved::Bad;
        }
        return Moved::Go(Place::FieldFeed { room: room - 1 });
    }
    if !is_value(byte) {
        return Moved::Bad;
    }
    valued(sought, room, bar(sought, barred, byte))
}

fn feed_step(room: usize, byte: u8) -> Moved
    ensures { result ≡ feed_step room byte }
{
    if byte != b'\n' || room < 1 {
        return Moved::Bad;
    }
    Moved::Go(Place::Line { room: room - 1 })
}

/// How much of CRLF and a mark there is with one more byte.
fn bar(sought: &[u8], barred: Option<usize>, byte: u8) -> Option<usize>
    requires { IsShort sought.now barred }
    ensures { result ≡ bar sought.now barred byte }
{
    match barred {
        Some(matched) => {
            if sought[matched] == byte {
                Some(matched + 1)
            } else {
                None
            }
        }
        None => None,
    }
}

fn clashes(sought: &[u8], barred: Option<usize>) -> bool
    ensures { result ≡ clashes sought.now barred }
{
    match barred {
        Some(matched) => matched == sought.len(),
        None => false,
    }
}

/// In a name. Behind it at least a colon and CRLF must come.
fn named(sought: &[u8], room: usize, barred: Option<usize>) -> Moved
    ensures { result ≡ named sought.now room barred }
{
    if clashes(sought, barred) || room < name_need(sought, barred) + 1 {
        return Moved::Bad;
    }
    Moved::Go(Place::Name {
        room: room - 1,
        barred,
    })
}

/// In a value. Behind it at least CRLF must come.
fn valued(sought: &[u8], room: usize, barred: Option<usize>) -> Moved
    ensures { result ≡ valued sought.now room barred }
{
    if clashes(sought, barred) || room < 3 {
        return Moved::Bad;
    }
    Moved::Go(Place::Value {
        room: room - 1,
        barred,
    })
}

/// How many bytes must come behind a name, one more where a colon would end a mark.
fn name_need(sought: &[u8], barred: Option<usize>) -> usize
    ensures { result ≡ name_need sought.now barred }
{
    match barred {
        Some(matched) => {
            if matched < sought.len() && matched + 1 == sought.len() && sought[matched] == b':' {
                4
            } else {
                3
            }
        }
        None => 3,
    }
}
