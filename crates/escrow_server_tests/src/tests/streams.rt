//! A reader that returns a script, and a writer that accepts replies.
use std::cell::Cell;
use std::io::{self, Error, Read, Write};

/// The numbers of Linux's errors for a device that fails, and for a full disk.
const IO_ERROR: i32 = 5;

const NO_SPACE: i32 = 28;

/// Returns bytes, a number at a time, and reports the end after them, or fails there as a device
/// does. At each read it notes how many bytes it had returned, and how many were written.
#[derive(Drop)]
pub(super) struct Source<'a> {
    pub(super) rest: &'a [u8],
    pub(super) at_a_time: usize,
    pub(super) fails: bool,
    pub(super) given: usize,
    pub(super) written: &'a Cell<usize>,
    pub(super) reads: Vec<(usize, usize)>,
}

impl Read for Source<'_> {
    fn read(&mut self, buf: &mut [u8]) -> io::Result<usize> {
        self.reads.push((self.given, self.written.get()))?;
        if self.rest.is_empty() && self.fails {
            return Err(Error::from_raw_os_error(IO_ERROR));
        }
        let most = buf.len().min(self.at_a_time);
        let count = self.rest.read(&mut buf[..most])?;
        self.given = self.given.saturating_add(count);
        Ok(count)
    }
}

/// Accepts a number of bytes, and then fails because the disk is full, or accepts nothing. It
/// counts the calls.
#[derive(Drop)]
pub(super) struct Sink<'a> {
    pub(super) taken: Vec<u8>,
    pub(super) room: usize,
    pub(super) at_a_time: usize,
    pub(super) is_silent: bool,
    pub(super) calls: usize,
    pub(super) written: &'a Cell<usize>,
}

impl Write for Sink<'_> {
    fn write(&mut self, buf: &[u8]) -> io::Result<usize> {
        self.calls = self.calls.saturating_add(1);
        let count = buf.len().min(self.room).min(self.at_a_time);
        if count == 0 && !self.is_silent {
            return Err(Error::from_raw_os_error(NO_SPACE));
        }
        self.taken.extend_from_slice(&buf[..count])?;
        self.room -= count;
        self.written.set(self.taken.len());
        Ok(count)
    }

    fn flush(&mut self) -> io::Result<()> {
        Ok(())
    }
}
