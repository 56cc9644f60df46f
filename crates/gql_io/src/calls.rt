ghost use Rattle.std.specs.Prelude.{◌≡◌, ◌↔◌, ◌≤◌, IsErr};
ghost use Rattle.gql_io.specs.Calls.{IsFresh, IsNext, FailsNext};
ghost use Rattle.gql_io.specs.Faults.{Rose, Counts};

use crate::Failed;

/// The calls of something in memory: those that it is told to fail, how many
/// were made, and how often it has failed.
#[derive(Debug, Drop)]
pub struct Calls<F> {
    failing: Vec<F>,
    made: u64,
    faults: u64,
}

impl<F> Calls<F> {
    /// No calls yet, with those that fail.
    pub fn new(failing: Vec<F>) -> Self
        ensures { IsFresh result failing.items }
    {
        Calls {
            failing,
            made: 0,
            faults: 0,
        }
    }

    /// How often it has failed.
    pub fn faults(&self) -> u64
        ensures { result ≡ self.now.faults }
    {
        self.faults
    }

    /// Counts a call, and gives its number.
    pub fn count(&mut self) -> u64
        ensures number { result ≡ self.old.made }
        ensures next { IsNext self.old self.new }
        ensures same { self.new.faults ≡ self.old.faults }
    {
        let call = self.made;
        self.made = call.saturating_add(1);
        call
    }

    /// Counts a fault.
    pub fn fail(&mut self) -> Failed
        ensures same { (self.new.failing.items ≡ self.old.failing.items) × (self.new.made ≡ self.old.made) }
        ensures later { self.old.faults ≤ self.new.faults }
        ensures rose { Rose self.old.faults self.new.faults }
    {
        self.faults = self.faults.saturating_add(1);
        Failed
    }

    /// The calls that fail.
    pub fn failing(&self) -> &[F]
        ensures { result.now ≡ self.now.failing.items }
    {
        self.failing.as_slice()
    }
}

impl Calls<u64> {
    /// Counts a call, and a fault where it is one that fails.
    pub fn begin(&mut self) -> Result<(), Failed>
        ensures listed { IsErr result ↔ FailsNext self.old }
        ensures next { IsNext self.old self.new }
        ensures cause { Counts self.old.faults self.new.faults (IsErr result) }
    {
        let call = self.count();
        if self.failing.as_slice().contains(&call) {
            return Err(self.fail());
        }
        Ok(())
    }
}
