//! The status that a run ends with, and the text that says why.
ghost use Rattle.std.specs.Prelude.{◌≡◌, ◌≤◌, false, true, IsErr, Ok};
ghost use Rattle.std.specs.Io.KnownBytes.{Keeps};

use crate::runs::failure::CANNOT_WRITE;
use crate::runs::reading::{CANNOT_READ, CannotRead};
use std::fmt;
use std::io::Write;

/// Why a program ends with status 2, where `F` is why there is no answer.
#[derive(Clone, Copy)]
pub enum Stop<F> {
    /// No command takes the arguments; what is written then.
    Usage(&'static str),
    /// A file or the standard input can't be read whole.
    CannotRead,
    /// The flush of what was written failed.
    CannotFlush,
    /// There is no answer.
    Failed(F),
}

impl<F> From<CannotRead> for Stop<F> {
    fn from(_error: CannotRead) -> Stop<F> {
        Stop::CannotRead
    }
}

/// Ends a run that did a command, or stopped: flushes what the command wrote, and answers the status that the program
/// ends with. It is 0 where the command was done and all went well, and 1 where it was done and something did not; then
/// nothing was written to `err`.
///
/// # Errors
/// The status is 2, and a text goes to `err`, where the run stopped, and nothing else is written then, and where the
/// flush failed. A failed write to `err` changes nothing.
///
/// ```
/// end::<Failure, _, _>(Ok(true), &mut out, &mut err)   // 0
/// ```
pub fn end<F: fmt::Display + Drop, W: Write, E: Write>(
    done: Result<bool, Stop<F>>,
    out: &mut W,
    err: &mut E,
) -> u8
    ensures status { result ≤ 2 }
    ensures good { result ≡ 0 → done ≡ Ok true }
    ensures bad { result ≡ 1 → done ≡ Ok false }
    ensures stopped { IsErr done → (result ≡ 2) × (out.new ≡ out.old) }
    ensures kept { result ≤ 1 → Keeps (W.contents out.old) (W.contents out.new) }
    ensures quiet { result ≤ 1 → E.contents err.new ≡ E.contents err.old }
{
    match done {
        Ok(good) => match out.flush() {
            Ok(()) => u8::from(!good),
            Err(_) => fail::<F, E>(Stop::CannotFlush, err),
        },
        Err(stop) => fail(stop, err),
    }
}

/// Says why the program ends with status 2, as far as that can be written, and answers that status.
fn fail<F: fmt::Display + Drop, E: Write>(stop: Stop<F>, err: &mut E) -> u8
    ensures { result ≡ 2 }
{
    let _ = match stop {
        Stop::Usage(usage) => writeln!(err, "{usage}"),
        Stop::CannotRead => writeln!(err, "{CANNOT_READ}"),
        Stop::CannotFlush => writeln!(err, "bitm: {CANNOT_WRITE}"),
        Stop::Failed(failure) => writeln!(err, "bitm: {failure}"),
    };
    2
}
