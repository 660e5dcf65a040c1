//! A source in memory whose bytes contracts know: over it the contract of `start` names the strings and the lines.
ghost use Rattle.std.specs.Prelude.{◌≡◌, IfOk, None, Some, if◌then◌else◌};
ghost use Rattle.std.specs.Str.{bytes_eq};
ghost use Rattle.program_base.specs.Known.{Known};

use crate::strings::lines::built;
use program_base::runs::{CannotRead, Sources};
use program_files::strings::start;
use std::alloc::{Alloc, Global};
use std::process::Abort;
use std::test::Fail;

/// A file at a path, and no other, and the standard input.
#[derive(Drop)]
struct Held<'a> {
    alloc: Global,
    path: &'a str,
    file: &'a [u8],
    input: &'a [u8],
}

impl Held<'_> {
    /// A copy of bytes.
    fn copy(&self, bytes: &[u8]) -> Result<Vec<u8>, CannotRead>
        ensures { IfOk result (λ copy. copy.items ≡ bytes.now) }
    {
        match Vec::from_slice(self.alloc, bytes) {
            Ok(copy) => Ok(copy),
            Err(_) => Err(CannotRead),
        }
    }
}

impl Alloc for Held<'_> {
    type A = Global;

    fn alloc(&self) -> Global {
        self.alloc
    }
}

impl Sources for Held<'_> {
    ghost known = { λ h. record {
      files = λ path. if bytes_eq path h.path.now then Some h.file.now else None;
      input = Some h.input.now;
    } };

    fn file(&self, path: &str) -> Result<Vec<u8>, CannotRead> {
        if path == self.path {
            self.copy(self.file)
        } else {
            Err(CannotRead)
        }
    }

    fn input(&self) -> Result<Vec<u8>, CannotRead> {
        self.copy(self.input)
    }
}

/// What `start` writes over a file at a path and an input, and with which status it ends.
fn started(
    rt: &(impl Abort + AllocGlobal),
    (file, input): (&[u8], &[u8]),
    words: &[&str],
) -> Result<(u8, Vec<u8>), Fail> {
    let mut args = Vec::new(rt.alloc());
    for word in words {
        args.push(String::from_str(rt.alloc(), *word)?)?;
    }
    let held = Held {
        alloc: rt.alloc(),
        path: "held.block",
        file,
        input,
    };
    let (mut out, mut err) = (Vec::new(rt.alloc()), Vec::new(rt.alloc()));
    let status = start(&held, args.as_slice(), &mut out, &mut err);
    Ok((status, out))
}

#[test]
fn the_file_that_is_named_answers_the_input(rt: HostRuntime) -> Result<(), Fail> {
    let file = built(&rt, b"ada\nbob\neve\n".as_slice())?;
    let (none, input) = (b"".as_slice(), b"eve\nmallory\n".as_slice());
    let (status, out) = started(&rt, (file.as_slice(), input), &["find", "held.block"])?;
    assert!(rt; status == 0 && out.as_slice() == b"0\nnone\n".as_slice());
    let strange = b"mallory\nAda\n".as_slice();
    let (status, out) = started(&rt, (file.as_slice(), strange), &["find", "held.block"])?;
    assert!(rt; status == 1 && out.as_slice() == b"none\nnone\n".as_slice());
    let (status, out) = started(&rt, (file.as_slice(), input), &["find", "other.block"])?;
    assert!(rt; status == 2 && out.is_empty());
    let names = b"ada\nbob\neve\n".as_slice();
    let (status, out) = started(&rt, (none, names), &["build"])?;
    assert!(rt; status == 0 && out.as_slice() == file.as_slice());
    Ok(())
}
