//! How much of each thing is read or run.

/// Bytes of a document.
pub const DOCUMENT_BYTES: u64 = 1_048_576;

/// Bytes of a file of the schema, the tables or the document, as it is read.
pub const FILE_BYTES: u64 = 67_108_864;

/// Braces and brackets that are open at one place of a document, all kinds counted together.
pub const SYNTAX_NESTING: u32 = 128;

/// Bytes of a body that is replayed.
pub const BODY_BYTES: usize = 1_073_741_824;

/// Bytes of a cut that a client is fed.
pub const CUT_BYTES: u64 = 1_048_576;
