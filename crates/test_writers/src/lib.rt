//! A writer that fails, to test what is said and answered then.
#![tactic(auto)]

ghost use Rattle.std.specs.Prelude.{◌≡◌, []};

use std::alloc::Global;
use std::io;
use std::io::Write;

/// A writer over memory whose writes fail after the given number of successes, and whose flush fails at will.
#[derive(Drop)]
pub struct Failing {
    /// What was written.
    pub written: Vec<u8>,
    /// How many more writes succeed.
    pub writes_left: u32,
    /// Whether a flush succeeds.
    pub flushes: bool,
}

impl Failing {
    /// A writer to which nothing was written yet, with that many writes that succeed, and a flush that does or fails.
    ///
    /// ```
    /// Failing::new(alloc, 0, true)   // the first write fails
    /// ```
    pub fn new(alloc: Global, writes_left: u32, flushes: bool) -> Failing
        ensures empty { result.written.items ≡ [] }
        ensures writes { result.writes_left ≡ writes_left }
        ensures flushes { result.flushes ≡ flushes }
    {
        Failing {
            written: Vec::new(alloc),
            writes_left,
            flushes,
        }
    }
}

impl Write for Failing {
    fn write(&mut self, buf: &[u8]) -> io::Result<usize> {
        if self.writes_left == 0 {
            return Err(io::Error::from(io::ErrorKind::BrokenPipe));
        }
        self.writes_left -= 1;
        self.written.write(buf)
    }

    fn flush(&mut self) -> io::Result<()> {
        if self.flushes {
            Ok(())
        } else {
            Err(io::Error::from(io::ErrorKind::BrokenPipe))
        }
    }
}
