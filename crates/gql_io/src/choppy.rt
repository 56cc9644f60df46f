use std::io;
use std::io::{ErrorKind, Read};

/// A reader that gives few bytes a read, and fails once where so many are left.
#[derive(Drop)]
pub struct Choppy {
    pub rest: &'static [u8],
    pub most: usize,
    pub fails_at: usize,
    pub kind: ErrorKind,
}

impl Read for Choppy {
    fn read(&mut self, buffer: &mut [u8]) -> io::Result<usize> {
        if self.rest.len() == self.fails_at {
            self.fails_at = usize::MAX;
            return Err(io::Error::from(self.kind));
        }
        let count = self.rest.len().min(buffer.len()).min(self.most);
        let (front, rest) = self.rest.split_at(count);
        buffer[..count].copy_from_slice(front);
        self.rest = rest;
        Ok(count)
    }
}
