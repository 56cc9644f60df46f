ghost use Rattle.std.specs.Prelude.{◌≡◌, ◌↔◌, ◌≤◌, Some, IfOk, IfSome, IsErrOf, length};
ghost use Rattle.gql_io.specs.FileShelf.{faults_of};
ghost use Rattle.gql_io.specs.Files.{ReadsFile};

use crate::{Shelf, ShelfRefusal};
use gql_tree::Bytes;
use std::alloc::Global;
use std::fs;
use std::io::{ErrorKind, Read};
use std::rt::Files;

/// The files of the system, by their paths.
///
/// A path at which nothing stands is `Missing`. A folder, a file that may not
/// be read and every other error of the system is `Failed`. A read that a
/// signal interrupts is made again.
#[derive(Drop)]
pub struct FileShelf<'a, R> {
    rt: &'a R,
    faults: u64,
}

impl<'a, R: Files> FileShelf<'a, R> {
    /// The files that the runtime reaches.
    pub fn new(rt: &'a R) -> Self
        ensures { faults_of result ≡ 0 }
    {
        FileShelf { rt, faults: 0 }
    }

    /// How often the shelf has failed.
    pub fn faults(&self) -> u64
        ensures { result ≡ faults_of self.now }
    {
        self.faults
    }
}

impl<'a, R: Files> Shelf for FileShelf<'a, R> {
    ghost use Rattle.std.specs.Prelude.{None};

    ghost files = { λ _. None };

    ghost faults = { faults_of };

    fn read(&mut self, alloc: Global, name: &str, most: u64) -> Result<Bytes, ShelfRefusal> {
        let outcome = match fs::open(self.rt, name) {
            Ok(file) => read_whole(alloc, file, most),
            Err(error) => Err(refusal_to_open(error.kind())),
        };
        if matches!(outcome, Err(ShelfRefusal::Failed)) {
            self.faults = self.faults.saturating_add(1);
        }
        outcome
    }
}

/// Why no file was opened.
fn refusal_to_open(kind: ErrorKind) -> ShelfRefusal
    ensures missing { (result ≡ ShelfRefusal.Missing) ↔ (kind ≡ ErrorKind.NotFound) }
    ensures no_memory { (result ≡ ShelfRefusal.NoMemory) ↔ (kind ≡ ErrorKind.OutOfMemory) }
    ensures never_too_long { ¬ (result ≡ ShelfRefusal.TooLong) }
{
    match kind {
        ErrorKind::NotFound => ShelfRefusal::Missing,
        ErrorKind::OutOfMemory => ShelfRefusal::NoMemory,
        _ => ShelfRefusal::Failed,
    }
}

/// All that a reader gives, where that is at most `most` bytes. It takes at most
/// one byte more from the reader.
fn read_whole<F: Read + Drop>(alloc: Global, file: F, most: u64) -> Result<Bytes, ShelfRefusal>
    ensures told { IfSome (F.remaining file) (λ bytes. ReadsFile (Some bytes) most result) }
    ensures bound { IfOk result (λ bytes. length bytes ≤ most) }
    ensures never_missing { ¬ IsErrOf result ShelfRefusal.Missing }
{
    let mut bytes = Vec::new(alloc);
    match file.take(most.saturating_add(1)).read_to_end(&mut bytes) {
        Ok(_) if bytes.len() as u64 > most => Err(ShelfRefusal::TooLong),
        Ok(_) => Ok(Bytes::from_vec(bytes)),
        Err(error) if error.kind() == ErrorKind::OutOfMemory => Err(ShelfRefusal::NoMemory),
        Err(_) => Err(ShelfRefusal::Failed),
    }
}

#[cfg(test)]
mod tests {
    use super::*;
    use crate::choppy::Choppy;
    use std::fs::Permissions;
    use std::os::unix::fs::PermissionsExt;
    use std::process::Abort;
    use std::test::Fail;

    /// A read gives these bytes or refuses so.
    fn is_read(
        rt: &impl Abort,
        read: &Result<Bytes, ShelfRefusal>,
        want: Result<&[u8], ShelfRefusal>,
    ) {
        let outcome = match read {
            Ok(bytes) => Ok(bytes.as_slice()),
            Err(refusal) => Err(*refusal),
        };
        assert_eq!(rt; outcome, want);
    }

    #[test]
    fn reads_of_real_files(rt: HostRuntime) -> Result<(), Fail> {
        fs::write(&rt, "five.txt", "12345")?;
        fs::write(&rt, "empty.txt", "")?;
        let mut shelf = FileShelf::new(&rt);
        for &(name, most, want, faults) in &[
            ("five.txt", 6, Ok(b"12345".as_slice()), 0),
            ("five.txt", 5, Ok(b"12345".as_slice()), 0),
            ("five.txt", 4, Err(ShelfRefusal::TooLong), 0),
            ("five.txt", u64::MAX, Ok(b"12345".as_slice()), 0),
            ("empty.txt", 0, Ok(b"".as_slice()), 0),
            ("six.txt", 5, Err(ShelfRefusal::Missing), 0),
            (".", 5, Err(ShelfRefusal::Failed), 1),
            ("five.txt", 5, Ok(b"12345".as_slice()), 1),
            (".", 0, Err(ShelfRefusal::Failed), 2),
        ] {
            let read = shelf.read(rt.alloc(), name, most);
            is_read(&rt, &read, want);
            assert_eq!(rt; shelf.faults(), faults);
        }
        Ok(())
    }

    #[test]
    fn a_file_that_may_not_be_read(rt: HostRuntime) -> Result<(), Fail> {
        fs::write(&rt, "locked.txt", "12345")?;
        fs::set_permissions(&rt, "locked.txt", Permissions::from_mode(0))?;
        // The superuser may read each file.
        let locked = fs::open(&rt, "locked.txt").is_err();
        let mut shelf = FileShelf::new(&rt);
        let read = shelf.read(rt.alloc(), "locked.txt", 5);
        fs::remove_file(&rt, "locked.txt")?;
        if locked {
            is_read(&rt, &read, Err(ShelfRefusal::Failed));
            assert_eq!(rt; shelf.faults(), 1);
        }
        Ok(())
    }

    #[test]
    fn a_read_that_fails_in_the_middle(rt: HostRuntime) {
        for &(kind, most, want) in &[
            (ErrorKind::Interrupted, 5, Ok(b"12345".as_slice())),
            (ErrorKind::Interrupted, 4, Err(ShelfRefusal::TooLong)),
            (ErrorKind::ConnectionReset, 5, Err(ShelfRefusal::Failed)),
            (ErrorKind::NotFound, 5, Err(ShelfRefusal::Failed)),
            (ErrorKind::OutOfMemory, 5, Err(ShelfRefusal::NoMemory)),
        ] {
            let reader = Choppy {
                rest: b"12345",
                most: 2,
                fails_at: 3,
                kind,
            };
            let read = read_whole(rt.alloc(), reader, most);
            is_read(&rt, &read, want);
        }
    }
}
