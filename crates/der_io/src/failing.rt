//! Streams that fail, for the tests of programs.

use std::io;
use std::io::{ErrorKind, Read, Write};

/// Gives a single octet for each of its first `reads` reads, while there is one, and then a fault.
#[derive(Drop)]
pub struct FailingReader<'a> {
    /// What is left to be read.
    pub octets: &'a [u8],
    /// How many reads have no fault.
    pub reads: usize,
    /// The kind of the fault.
    pub kind: ErrorKind,
}

impl Read for FailingReader<'_> {
    fn read(&mut self, buf: &mut [u8]) -> io::Result<usize> {
        if self.reads == 0 {
            return Err(self.kind.into());
        }
        self.reads -= 1;
        if self.octets.is_empty() || buf.is_empty() {
            return Ok(0);
        }
        buf[0] = self.octets[0];
        self.octets = &self.octets[1..];
        Ok(1)
    }
}

/// Has a fault at each flush, and at each write but the first `writes`.
#[derive(Drop)]
pub struct FailingWriter {
    /// How many writes have no fault.
    pub writes: usize,
}

impl Write for FailingWriter {
    fn write(&mut self, buf: &[u8]) -> io::Result<usize> {
        if self.writes == 0 {
            return Err(ErrorKind::Other.into());
        }
        self.writes -= 1;
        Ok(buf.len())
    }

    fn flush(&mut self) -> io::Result<()> {
        Err(ErrorKind::Other.into())
    }
}
