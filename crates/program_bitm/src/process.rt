//! What the program reads from.

use crate::progress::{Counted, Progress};
use program_base::runs::{CannotRead, Sources, read_all};
use std::alloc::{Alloc, Global};
use std::io::Input;

/// From how many bytes on a command works for some two seconds.
const LARGE: usize = 8_000_000;

/// A process that says on a terminal how far it is.
#[derive(Drop)]
pub(crate) struct Process<'a> {
    /// The process.
    pub(crate) rt: &'a HostRuntime,
    /// How long it has run.
    pub(crate) progress: Progress<'a>,
    /// Whether the work is on all bytes of a file, as in `check` and `info`, and not just on some.
    pub(crate) walks: bool,
}

impl Alloc for Process<'_> {
    type A = Global;

    fn alloc(&self) -> Global {
        self.rt.alloc()
    }
}

impl Process<'_> {
    /// Says how many bytes there are to work on, where they are many.
    fn report(&self, bytes: usize) {
        if bytes >= LARGE {
            self.progress.report("working on", bytes as u64);
        }
    }
}

impl Sources for Process<'_> {
    fn file(&self, path: &str) -> Result<Vec<u8>, CannotRead> {
        let bytes = self.rt.file(path)?;
        if self.walks {
            self.report(bytes.len());
        }
        Ok(bytes)
    }

    fn input(&self) -> Result<Vec<u8>, CannotRead> {
        let mut stream = Counted::new(self.progress, "read", self.rt.reader());
        let bytes = read_all(self.alloc(), &mut stream)?;
        self.report(bytes.len());
        Ok(bytes)
    }
}
