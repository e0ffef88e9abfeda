//! Inputs and outputs that give and take little, or fail.

use std::alloc::Global;
use std::io;
use std::io::{ErrorKind, Read, Write};

/// An input that gives at most so many bytes a call, and fails once its calls are used up.
#[derive(Drop)]
pub struct ShortReader<'a> {
    bytes: &'a [u8],
    most: usize,
    calls: usize,
    kind: ErrorKind,
}

impl Read for ShortReader<'_> {
    fn read(&mut self, buf: &mut [u8]) -> io::Result<usize> {
        if self.calls == 0 {
            return Err(io::Error::from(self.kind));
        }
        self.calls -= 1;
        let count = self.bytes.len().min(buf.len()).min(self.most);
        buf[..count].copy_from_slice(&self.bytes[..count]);
        self.bytes = &self.bytes[count..];
        Ok(count)
    }
}

/// An output that takes at most so many bytes a call, and fails once its calls are used up.
#[derive(Drop)]
pub struct ShortWriter {
    /// The bytes that it took, in their order.
    pub taken: Vec<u8>,
    most: usize,
    calls: usize,
}

impl Write for ShortWriter {
    fn write(&mut self, buf: &[u8]) -> io::Result<usize> {
        if self.calls == 0 {
            return Err(io::Error::from(ErrorKind::BrokenPipe));
        }
        self.calls -= 1;
        let count = buf.len().min(self.most);
        self.taken.extend_from_slice(&buf[..count])?;
        Ok(count)
    }

    fn flush(&mut self) -> io::Result<()> {
        Ok(())
    }
}

/// An input that gives all the bytes, at most so many a call.
pub fn short_reader(bytes: &[u8], most: usize) -> ShortReader<'_> {
    ShortReader {
        bytes,
        most,
        calls: usize::MAX,
        kind: ErrorKind::Other,
    }
}

/// An input that gives a byte a call, for so many calls, and then fails so.
pub fn failing_reader(bytes: &[u8], calls: usize, kind: ErrorKind) -> ShortReader<'_> {
    ShortReader {
        bytes,
        most: 1,
        calls,
        kind,
    }
}

/// An output that takes at most so many bytes a call, for so many calls.
pub fn short_writer(alloc: Global, most: usize, calls: usize) -> ShortWriter {
    ShortWriter {
        taken: Vec::new(alloc),
        most,
        calls,
    }
}
