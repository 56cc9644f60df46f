ghost use Rattle.std.specs.Prelude.{◌≡◌, ◌↔◌, ◌≤◌, length, Some, option_map, find, bytes_eq, IfOk, IsErrOf};
ghost use Rattle.gql_io.specs.Calls.{IsFresh, IsNext, FailsNext};
ghost use Rattle.gql_io.specs.Faults.{Counts};
ghost use Rattle.gql_io.specs.Files.{Reads};
ghost use Rattle.gql_io.specs.MemoryShelf.{bytes_under, files_of, calls_of, faults_of};

use crate::calls::Calls;
use crate::{Shelf, ShelfRefusal};
use gql_tree::{Bytes, Text};
use std::alloc::Global;

/// A file of a shelf in memory.
#[derive(Debug, Drop)]
pub struct ShelfFile {
    pub name: Text,
    pub bytes: Bytes,
}

/// A shelf in memory, which fails at the calls that it is told to fail.
#[derive(Debug, Drop)]
pub struct MemoryShelf {
    files: Vec<ShelfFile>,
    calls: Calls<u64>,
}

impl MemoryShelf {
    /// A shelf with these files, of which the first counts where two have one
    /// name, and with the numbers of the calls that fail, counted from 0.
    pub fn new(files: Vec<ShelfFile>, failing: Vec<u64>) -> Self
        ensures files { files_of result ≡ Some (bytes_under files.items) }
        ensures calls { IsFresh (calls_of result) failing.items }
    {
        MemoryShelf {
            files,
            calls: Calls::new(failing),
        }
    }

    /// How often the shelf has failed.
    pub fn faults(&self) -> u64
        ensures { result ≡ faults_of self.now }
    {
        self.calls.faults()
    }
}

/// The first file of a name.
fn file_under<'a>(files: &'a [ShelfFile], name: &str) -> Option<&'a ShelfFile>
    ensures { option_map (λ file. file.now) result ≡ find (λ file. bytes_eq file.name name.now) files.now }
{
    files.iter().find(|file| file.name.as_str() == name)
}

impl Shelf for MemoryShelf {
    ghost files = { files_of };

    ghost faults = { faults_of };

    fn read(&mut self, alloc: Global, name: &str, most: u64) -> Result<Bytes, ShelfRefusal>
        ensures answer { Reads (files_of self.old) name.now most result }
        ensures bound { IfOk result (λ bytes. length bytes ≤ most) }
        ensures same { files_of self.new ≡ files_of self.old }
        ensures cause { Counts (faults_of self.old) (faults_of self.new) (IsErrOf result ShelfRefusal.Failed) }

        // The calls that fail are those of the list.
        ensures listed { IsErrOf result ShelfRefusal.Failed ↔ FailsNext (calls_of self.old) }
        ensures next { IsNext (calls_of self.old) (calls_of self.new) }
    {
        self.calls.begin()?;
        match file_under(self.files.as_slice(), name) {
            None => Err(ShelfRefusal::Missing),
            Some(file) if file.bytes.as_slice().len() as u64 > most => Err(ShelfRefusal::TooLong),
            Some(file) => Ok(Bytes::copy_of(alloc, file.bytes.as_slice())?),
        }
    }
}

#[cfg(test)]
mod tests {
    use super::*;
    use gql_tree::NoMemory;
    use std::process::Abort;
    use std::test::Fail;

    fn file(alloc: Global, name: &str, bytes: &str) -> Result<ShelfFile, NoMemory> {
        let name = Text::copy_of(alloc, name)?;
        let bytes = Bytes::copy_of(alloc, bytes.as_bytes())?;
        Ok(ShelfFile { name, bytes })
    }

    /// The next read gives these bytes or refuses so, and then so many calls have failed.
    fn reads(
        rt: &impl Abort,
        shelf: &mut MemoryShelf,
        (alloc, name, most): (Global, &str, u64),
        want: Result<&[u8], ShelfRefusal>,
        faults: u64,
    ) {
        let read = shelf.read(alloc, name, most);
        let outcome = match &read {
            Ok(bytes) => Ok(bytes.as_slice()),
            Err(refusal) => Err(*refusal),
        };
        assert_eq!(rt; outcome, want);
        assert_eq!(rt; shelf.faults(), faults);
    }

    #[test]
    fn calls_that_fail_among_others(rt: HostRuntime) -> Result<(), Fail> {
        let alloc = rt.alloc();
        let mut files = Vec::new(alloc);
        for &(name, bytes) in &[("a", "alpha"), ("empty", ""), ("a", "hidden")] {
            files.push(file(alloc, name, bytes)?)?;
        }
        let mut shelf = MemoryShelf::new(files, vec![in alloc; 1, 4]?);
        for &(name, most, want, faults) in &[
            ("a", 5, Ok(b"alpha".as_slice()), 0),
            ("a", 5, Err(ShelfRefusal::Failed), 1),
            ("a", 5, Ok(b"alpha".as_slice()), 1),
            ("a", 4, Err(ShelfRefusal::TooLong), 1),
            ("b", 5, Err(ShelfRefusal::Failed), 2),
            ("b", 5, Err(ShelfRefusal::Missing), 2),
            ("empty", 0, Ok(b"".as_slice()), 2),
        ] {
            reads(&rt, &mut shelf, (alloc, name, most), want, faults);
        }
        Ok(())
    }
}
