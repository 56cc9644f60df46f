ghost use Rattle.std.specs.Prelude.{◌<◌};

/// The words behind `local`.
#[derive(Clone, Copy, Debug)]
pub struct LocalWords<'a> {
    /// The names of the files, and of the variables.
    pub schema: &'a str,
    pub tables: &'a str,
    pub document: &'a str,
    pub vars: &'a str,
    /// How many threads run tasks; no form of this build has any.
    pub workers: u64,
    /// How many bytes the client is fed at a time.
    pub cut: usize,
    ghost some: { 0 < cut },
}
