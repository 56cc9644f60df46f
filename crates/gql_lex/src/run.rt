//! Runs of pieces: blanks, and what strings have.

ghost use Rattle.std.specs.Prelude.{◌≡◌, ℕ, ◌<◌, ◌≤◌, ◌+◌, length, IfSome, true};
ghost use Rattle.std.specs.List.{prefix_len};
ghost use Rattle.gql_lex.specs.Classes.{is_line_end, is_forbidden, is_blank, is_commentary};
ghost use Rattle.gql_lex.specs.declared.run.Pieces.TheVariants.{Blanks};
ghost use Rattle.gql_lex.specs.Runs.{blank, goes_on_in_line, quoted_item, is_d, is_8_to_b, is_c_to_f, unit_by, unit_of, begins_with_low, unicode_escape, is_escape, escape, sound_item, block_item, piece, run_len};

/// What runs of pieces are of.
#[derive(Clone, Copy)]
pub(crate) enum Pieces {
    /// What stands between tokens. `blanks_len` counts them.
    Blanks,
    /// What stands between quotes, be it right or wrong.
    QuotedItems,
    /// What is right between quotes.
    SoundItems,
    /// What stands between the marks of a block string.
    BlockItems,
}

/// What four hexadecimal digits are.
#[derive(Clone, Copy)]
enum Unit {
    /// No surrogate.
    Plain,
    High,
    Low,
}

/// How many bytes at the front of a text are pieces, one after another.
pub(crate) fn run_len(pieces: Pieces, text: &[u8]) -> usize
    ensures value { result ≡ run_len pieces 0 text.now }
    ensures within { result ≤ length text.now }
{
    let mut len = 0;
    while let Some(more) = piece(pieces, &text[len..]) {
        len += more + 1;
    }
    len
}

/// The piece at the front: how many bytes it takes behind its first.
fn piece(pieces: Pieces, text: &[u8]) -> Option<usize>
    ensures value { result ≡ piece pieces text.now }
    ensures within { IfSome result (λ more. more < length text.now) }
{
    match pieces {
        Pieces::Blanks => blank(text),
        Pieces::QuotedItems => quoted_item(text),
        Pieces::SoundItems => sound_item(text),
        Pieces::BlockItems => block_item(text),
    }
}

// ---- blanks

/// How many bytes at the front of a text are blanks, one after another: what `run_len` counts, with
/// all blanks of one byte that follow each other passed in one go.
pub(crate) fn blanks_len(text: &[u8]) -> usize
    ensures value { result ≡ run_len Blanks 0 text.now }
    ensures within { result ≤ length text.now }
{
    let mut len = single_blanks(text);
    while let Some(more) = blank(&text[len..]) {
        len += more + 1;
        len += single_blanks(&text[len..]);
    }
    len
}

/// How many bytes at the front are blanks of one byte.
fn single_blanks(text: &[u8]) -> usize
    ensures value { result ≡ prefix_len is_blank text.now }
    ensures within { result ≤ length text.now }
{
    text.iter().take_while(|byte| is_blank(**byte)).count()
}

pub(crate) fn is_line_end(byte: u8) -> bool
    ensures { result ≡ is_line_end byte }
{
    byte == b'\n' || byte == b'\r'
}

/// A control character other than tab, LF and CR.
pub(crate) fn is_forbidden(byte: u8) -> bool
    ensures { result ≡ is_forbidden byte }
{
    byte < b' ' && !(byte == b'\t' || is_line_end(byte))
}

fn is_blank(byte: u8) -> bool
    ensures { result ≡ is_blank byte }
{
    byte == b'\t' || is_line_end(byte) || byte == b' ' || byte == b','
}

/// What a comment has.
fn is_commentary(byte: u8) -> bool
    ensures { result ≡ is_commentary byte }
{
    !(is_line_end(byte) || is_forbidden(byte))
}

fn commentary_len(text: &[u8]) -> usize
    ensures value { result ≡ prefix_len is_commentary text.now }
    ensures within { result ≤ length text.now }
{
    text.iter().take_while(|byte| is_commentary(**byte)).count()
}

/// A byte, a comment or a byte order mark that stands between tokens.
fn blank(text: &[u8]) -> Option<usize>
    ensures value { result ≡ blank text.now }
    ensures within { IfSome result (λ more. more < length text.now) }
{
    let [first, rest @ ..] = text else {
        return None;
    };
    if is_blank(*first) {
        return Some(0);
    }
    if *first == b'#' {
        return Some(commentary_len(rest));
    }
    if text.starts_with(b"\xef\xbb\xbf") {
        return Some(2);
    }
    None
}

// ---- quoted strings

fn goes_on_in_line(text: &[u8]) -> bool
    ensures { result ≡ goes_on_in_line text.now }
{
    match text {
        [] => false,
        [first, ..] => !is_line_end(*first),
    }
}

/// Anything but a quote and a line end; a backslash takes what follows it.
fn quoted_item(text: &[u8]) -> Option<usize>
    ensures value { result ≡ quoted_item text.now }
    ensures within { IfSome result (λ more. more < length text.now) }
{
    let [first, rest @ ..] = text else {
        return None;
    };
    if *first == b'"' || is_line_end(*first) {
        return None;
    }
    if *first == b'\\' && goes_on_in_line(rest) {
        return Some(1);
    }
    Some(0)
}

fn is_d(byte: u8) -> bool
    ensures { result ≡ is_d byte }
{
    byte == b'D' || byte == b'd'
}

fn is_8_to_b(byte: u8) -> bool
    ensures { result ≡ is_8_to_b byte }
{
    byte == b'8' || byte == b'9' || byte == b'A' || byte == b'B' || byte == b'a' || byte == b'b'
}

fn is_c_to_f(byte: u8) -> bool
    ensures { result ≡ is_c_to_f byte }
{
    byte == b'C'
        || byte == b'D'
        || byte == b'E'
        || byte == b'F'
        || byte == b'c'
        || byte == b'd'
        || byte == b'e'
        || byte == b'f'
}

/// What four digits are that begin with these two.
fn unit_by(first: u8, second: u8) -> Unit
    ensures { result ≡ unit_by first second }
{
    if is_d(first) && is_8_to_b(second) {
        Unit::High
    } else if is_d(first) && is_c_to_f(second) {
        Unit::Low
    } else {
        Unit::Plain
    }
}

/// The four hexadecimal digits at the front.
fn unit_of(text: &[u8]) -> Option<Unit>
    ensures value { result ≡ unit_of text.now }
    ensures within { IfSome result (λ _. 4 ≤ length text.now) }
{
    let [a, b, c, d, ..] = text else {
        return None;
    };
    if a.is_ascii_hexdigit()
        && b.is_ascii_hexdigit()
        && c.is_ascii_hexdigit()
        && d.is_ascii_hexdigit()
    {
        return Some(unit_by(*a, *b));
    }
    None
}

/// `\u` and a low surrogate.
fn begins_with_low(text: &[u8]) -> bool
    ensures value { result ≡ begins_with_low text.now }
    ensures within { result ≡ true → 6 ≤ length text.now }
{
    let [first, second, rest @ ..] = text else {
        return false;
    };
    *first == b'\\' && *second == b'u' && matches!(unit_of(rest), Some(Unit::Low))
}

/// What stands behind `\u`: how many bytes the escape takes behind its backslash.
fn unicode_escape(text: &[u8]) -> Option<usize>
    ensures value { result ≡ unicode_escape text.now }
    ensures within { IfSome result (λ more. more ≤ length text.now + 1) }
{
    match unit_of(text)? {
        Unit::Plain => Some(5),
        Unit::Low => None,
        Unit::High => {
            if begins_with_low(&text[4..]) {
                Some(11)
            } else {
                None
            }
        }
    }
}

fn is_escape(byte: u8) -> bool
    ensures { result ≡ is_escape byte }
{
    byte == b'"'
        || byte == b'\\'
        || byte == b'/'
        || byte == b'b'
        || byte == b'f'
        || byte == b'n'
        || byte == b'r'
        || byte == b't'
}

/// What stands behind a backslash: how many bytes of it belong to the escape.
fn escape(text: &[u8]) -> Option<usize>
    ensures value { result ≡ escape text.now }
    ensures within { IfSome result (λ more. more ≤ length text.now) }
{
    let [first, rest @ ..] = text else {
        return None;
    };
    if *first == b'u' {
        return unicode_escape(rest);
    }
    if is_escape(*first) {
        return Some(1);
    }
    None
}

/// A right escape, or a character that may stand between quotes.
fn sound_item(text: &[u8]) -> Option<usize>
    ensures value { result ≡ sound_item text.now }
    ensures within { IfSome result (λ more. more < length text.now) }
{
    let [first, rest @ ..] = text else {
        return None;
    };
    if *first == b'\\' {
        return escape(rest);
    }
    if is_forbidden(*first) {
        return None;
    }
    Some(0)
}

// ---- block strings

/// `\"""`, or anything but `"""`.
fn block_item(text: &[u8]) -> Option<usize>
    ensures value { result ≡ block_item text.now }
    ensures within { IfSome result (λ more. more < length text.now) }
{
    if text.is_empty() || text.starts_with(b"\"\"\"") {
        return None;
    }
    if text.starts_with(b"\\\"\"\"") {
        return Some(3);
    }
    Some(0)
}
