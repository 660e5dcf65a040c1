//! What a run says on a terminal of how far it is.

use std::io;
use std::io::{IsTerminal, Read, Write};
use std::time::Instant;

/// After how many seconds a run first says how many bytes it has read or written.
const FIRST: u64 = 2;

/// How long a run has taken, where that matters to somebody at a terminal.
#[derive(Clone, Copy, Drop)]
pub(crate) struct Progress<'a> {
    /// The process.
    rt: &'a HostRuntime,
    /// When the run began; `None` where standard error is no terminal, or there is no clock.
    start: Option<Instant>,
}

impl<'a> Progress<'a> {
    /// The progress of a run that begins now.
    pub(crate) fn new(rt: &'a HostRuntime) -> Progress<'a> {
        let start = if rt.stderr().is_terminal() {
            Instant::now(rt).ok()
        } else {
            None
        };
        Progress { rt, start }
    }

    /// Says what is done with how many bytes.
    pub(crate) fn report(&self, what: &str, bytes: u64) {
        if self.start.is_some() {
            let _ = eprintln!(self.rt; "bitm: {what} {bytes} bytes");
        }
    }

    /// How many whole seconds the run has taken; 0 where nothing is said.
    fn seconds(&self) -> u64 {
        let Some(start) = self.start else {
            return 0;
        };
        match start.elapsed(self.rt) {
            Ok(time) => time.as_secs(),
            Err(_) => 0,
        }
    }
}

/// A stream that says how many bytes went through it once the run has taken 2, 4, 8 seconds and so on.
#[derive(Drop)]
pub(crate) struct Counted<'a, T> {
    /// The stream.
    stream: T,
    /// How long the run has taken.
    progress: Progress<'a>,
    /// What was done with the bytes.
    done: &'static str,
    /// How many there were.
    bytes: u64,
    /// After how many seconds that is said next.
    next: u64,
}

impl<'a, T> Counted<'a, T> {
    /// The stream, before its first byte.
    pub(crate) fn new(progress: Progress<'a>, done: &'static str, stream: T) -> Counted<'a, T> {
        Counted {
            stream,
            progress,
            done,
            bytes: 0,
            next: FIRST,
        }
    }

    /// Counts bytes, and says how many there were when it is time.
    fn count(&mut self, bytes: usize) {
        self.bytes = self.bytes.saturating_add(bytes as u64);
        let seconds = self.progress.seconds();
        if seconds >= self.next {
            self.next = seconds.saturating_mul(2);
            self.progress.report(self.done, self.bytes);
        }
    }
}

impl<T: Read> Read for Counted<'_, T> {
    fn read(&mut self, buf: &mut [u8]) -> io::Result<usize> {
        let bytes = self.stream.read(buf)?;
        self.count(bytes);
        Ok(bytes)
    }
}

impl<T: Write> Write for Counted<'_, T> {
    fn write(&mut self, buf: &[u8]) -> io::Result<usize> {
        let bytes = self.stream.write(buf)?;
        self.count(bytes);
        Ok(bytes)
    }

    fn flush(&mut self) -> io::Result<()> {
        self.stream.flush()
    }
}
