//! Kinds of bytes.

ghost use Rattle.std.specs.Prelude.{◌≡◌, ◌↔◌, IsTrue, slice_index};
ghost use Rattle.gql_multipart.specs.Body.{IsBoundary, boundary_byte, blank_byte, token_byte, value_byte};

/// Whether a text is a boundary: 1 to 70 letters, digits and signs, and no space at its end.
pub(crate) fn is_boundary(text: &[u8]) -> bool
    ensures { IsTrue result ↔ IsBoundary text.now }
{
    if text.len() == 0 || text.len() > 70 || text[text.len() - 1] == b' ' {
        return false;
    }
    text.iter().all(|byte| boundary_byte(*byte))
}

fn boundary_byte(byte: u8) -> bool
    ensures { result ≡ boundary_byte byte }
{
    byte.is_ascii_alphanumeric() || b"'()+_,-./:=? ".contains(&byte)
}

pub(crate) fn is_blank(byte: u8) -> bool
    ensures { result ≡ blank_byte byte }
{
    byte == b' ' || byte == b'\t'
}

/// Whether a byte may stand in a token (RFC 9110, section 5.6.2).
pub(crate) fn is_token(byte: u8) -> bool
    ensures { result ≡ token_byte byte }
{
    byte.is_ascii_alphanumeric() || b"!#$%&'*+-.^_|~`".contains(&byte)
}

/// Whether a byte may stand in the value of a header line.
pub(crate) fn is_value(byte: u8) -> bool
    ensures { result ≡ value_byte byte }
{
    !(byte == b'\r' || byte == b'\n' || byte == 0)
}

/// The byte at an index, and 0 behind the end.
pub(crate) fn byte_at(bytes: &[u8], index: usize) -> u8
    ensures { result ≡ slice_index bytes.now index }
{
    if index < bytes.len() { bytes[index] } else { 0 }
}
