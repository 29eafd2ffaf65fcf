//! Readers and writers that fail, or that give and take a set count of bytes.

use std::io;
use std::io::{Read, Write};

/// A reader that fails.
#[derive(Drop)]
pub(crate) struct Broken;

impl Read for Broken {
    fn read(&mut self, _: &mut [u8]) -> io::Result<usize> {
        Err(io::Error::from(io::ErrorKind::TimedOut))
    }
}

/// A reader of so many spaces.
#[derive(Drop)]
pub(crate) struct Spaces {
    pub(crate) left: usize,
}

impl Read for Spaces {
    fn read(&mut self, buf: &mut [u8]) -> io::Result<usize> {
        let count = buf.len().min(self.left);
        buf[..count].fill(b' ');
        self.left -= count;
        Ok(count)
    }
}

/// A writer that takes so many bytes, and then fails.
#[derive(Drop)]
pub(crate) struct Limited {
    pub(crate) bytes: Vec<u8>,
    pub(crate) room: usize,
}

impl Write for Limited {
    fn write(&mut self, buf: &[u8]) -> io::Result<usize> {
        let count = buf.len().min(self.room);
        if count == 0 {
            return Err(io::Error::from(io::ErrorKind::TimedOut));
        }
        self.room -= count;
        self.bytes.extend_from_slice(&buf[..count])?;
        Ok(count)
    }

    fn flush(&mut self) -> io::Result<()> {
        Ok(())
    }
}
