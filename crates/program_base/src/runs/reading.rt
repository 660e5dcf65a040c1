//! The bytes of files and of the standard input.
ghost use Rattle.std.specs.Prelude.{IfOk};
ghost use Rattle.program_base.specs.Known.{unknown, IsKnownAs, Known};

use std::alloc::Global;
use std::fs;
use std::io::{Input, Read};
use std::rt::Files;

/// What is written where the arguments, a file or the standard input can't be read.
pub const CANNOT_READ: &str = "bitm: cannot read";

/// A file or the standard input can't be read whole.
#[derive(Clone, Copy)]
pub struct CannotRead;

/// Where a program reads from. The bytes that are read are the bytes of the file that is named, and of the standard
/// input, wherever the type says what these hold; a process does not say it.
pub trait Sources {
    /// What is known of the files and of the standard input.
    ghost known: { Self → Known } = { λ _. unknown };

    /// The bytes of a file.
    ///
    /// # Errors
    /// `CannotRead` where it can't be read whole, or memory was refused.
    ///
    /// ```
    /// rt.file("numbers.block")   // Ok(bytes)
    /// ```
    fn file(&self, path: &str) -> Result<Vec<u8>, CannotRead>
        ensures { IfOk result (λ bytes. IsKnownAs ((known self.now).files path.now) bytes.items) };

    /// The bytes of the standard input.
    ///
    /// # Errors
    /// `CannotRead` where it can't be read to its end, or memory was refused.
    ///
    /// ```
    /// rt.input()   // Ok(bytes)
    /// ```
    fn input(&self) -> Result<Vec<u8>, CannotRead>
        ensures { IfOk result (λ bytes. IsKnownAs (known self.now).input bytes.items) };
}

/// The bytes of a stream.
///
/// # Errors
/// `CannotRead` where it can't be read to its end, or memory was refused.
///
/// ```
/// read_all(rt.alloc(), &mut rt.reader())   // Ok(bytes)
/// ```
pub fn read_all<R: Read>(alloc: Global, stream: &mut R) -> Result<Vec<u8>, CannotRead>
    ensures { IfOk result (λ bytes. IsKnownAs (R.remaining stream.old) bytes.items) }
{
    let mut bytes = Vec::new(alloc);
    match stream.read_to_end(&mut bytes) {
        Ok(_) => Ok(bytes),
        Err(_) => Err(CannotRead),
    }
}

impl<R: Files + Input + AllocGlobal> Sources for R {
    fn file(&self, path: &str) -> Result<Vec<u8>, CannotRead> {
        match fs::read(self, path) {
            Ok(bytes) => Ok(bytes),
            Err(_) => Err(CannotRead),
        }
    }

    fn input(&self) -> Result<Vec<u8>, CannotRead> {
        read_all(self.alloc(), &mut self.reader())
    }
}
