//! Multipart bodies: sent a piece at a time, and read in any cutting.
//!
//! A server that answers with several texts sends each as soon as it is made. `frame` gives the
//! bytes to send for one text, its piece, for the boundary `-`: a first piece begins the body with a
//! delimiter, each piece ends with the delimiter before the next part, and in a last piece that one
//! closes the body. So a reader that waits for whole delimiters sees each text at once. Its contract:
//! the bytes are `framed` of specs/Framed.antt. The pieces of a list of texts, one after another, are
//! the body, `frame` of specs/Frame.antt: the contract of `pieces_make_a_body`.
//!
//! `Reader` takes a body of any boundary in cuts of any length, and gives each part once its next
//! mark, two dashes and the boundary, is whole. What a body is stands in specs/Body.antt, a relation
//! between a boundary, bytes and the contents of parts. A reader stands for a past, the bytes that it
//! was fed and the number of parts that it gave, and answers as the relation has it for that past:
//! `Stands` and `IsAnswer` of specs/Past.antt. So it doesn't matter how the bytes were cut.
//! `frames_are_read_back` says that it finds again what `frame` wrote.
#![tactic(auto)]

mod bytes;
mod laws;
mod part;
mod place;
mod read;
mod reader;
mod refusal;

pub use laws::{
    a_past_has_one_answer, bodies_are_read_in_one_way, body_lengths, frames_are_read_back,
    frames_of_long_lines_are_shut, fronts_of_frames_are_open, pieces_make_a_body,
};
pub use part::frame;
pub use reader::{Reader, Step};
pub use refusal::{FrameKind, FrameRefusal};
