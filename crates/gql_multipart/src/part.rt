//! The piece of one text.

ghost use Rattle.std.specs.Prelude.{◌≡◌, IfOk};
ghost use Rattle.gql_multipart.specs.Framed.{opening, closing, framed};

use gql_tree::{Bytes, NoMemory};
use std::alloc::Global;

/// What is sent for one text, where the boundary is `-`.
///
/// Takes the text, and whether it is the first and the last of its body. Gives its part with the
/// delimiter that follows it: where it is the first the delimiter `---` comes before it, and where it
/// is the last its delimiter is closed by `--` and an end of line. Refuses only for want of memory.
pub fn frame(alloc: Global, json: &[u8], first: bool, last: bool) -> Result<Bytes, NoMemory>
    ensures { IfOk result (λ bytes. bytes ≡ framed first last json.now) }
{
    let mut piece = Vec::new(alloc);
    piece.extend_from_slice(opening(first))?;
    piece.extend_from_slice(b"\r\nContent-Type: application/json; charset=utf-8\r\n\r\n")?;
    piece.extend_from_slice(json)?;
    piece.extend_from_slice(b"\r\n---")?;
    piece.extend_from_slice(closing(last))?;
    Ok(Bytes::from_vec(piece))
}

/// The delimiter before the first piece.
fn opening(first: bool) -> &'static [u8]
    ensures { result.now ≡ opening first }
{
    if first { b"---" } else { b"" }
}

/// What closes the last delimiter.
fn closing(last: bool) -> &'static [u8]
    ensures { result.now ≡ closing last }
{
    if last { b"--\r\n" } else { b"" }
}
