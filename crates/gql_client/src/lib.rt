//! The client's end of an incremental answer.
//!
//! `Client` is fed the bytes of a multipart body in any cutting. It reads the parts, decodes each as a
//! payload and merges it, and says what it has so far, or where and why it refused. Its contract: what
//! it is stands in specs/Client.antt and hangs on the bytes that it was fed alone, in no cutting
//! (`Stands` of specs/Heard.antt says that a client is one for its bytes); and that is one thing, the
//! law `hearing_has_one_end`.
#![tactic(auto)]

mod client;
mod laws;
mod stop;

pub use client::Client;
pub use laws::hearing_has_one_end;
pub use stop::ClientRefusal;
