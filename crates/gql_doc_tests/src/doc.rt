//! Tests of gql_doc.

mod documents;
mod hostile;
mod parts;
mod printing;
mod strings;
mod types;
