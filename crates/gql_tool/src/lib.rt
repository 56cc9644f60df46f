//! The commands of the program.
//!
//! `tool` takes the words of a command line: `specs/Words.antt` has those that are a command,
//! `specs/Local.antt` the right outcomes of the command `local`, and `specs/Meets.antt` how a status
//! and what is written meet them.
//!
//! `local` hands out each payload as it is made: `handing` puts its piece of the multipart body and
//! feeds it to the client in cuts (`specs/LocalClient.antt` says what the client is then), and `lines`
//! writes what the client merged.
//!
//! Which requests are executed, and how, is the module `hero`, for one shape of request alone: judging a request asks it for
//! the regions that the request has (`specs/Judged.antt`), and all other clauses speak of regions.
#![tactic(auto)]

mod command;
mod handing;
mod hearing;
mod hero;
mod laws;
mod lines;
mod local_words;
mod request;
mod status;
mod words;

pub use command::{local, tool};
pub use hearing::replay;
pub use hero::laws::{a_response_without_failures_is_plain, executed_documents, worked_documents};
pub use hero::tables::worked_tables;
pub use laws::{local_has_one_outcome, replay_has_one_outcome, worked_texts};
pub use local_words::LocalWords;
pub use status::Status;
