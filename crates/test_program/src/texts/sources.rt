//! A source in memory whose bytes contracts know: over it the contract of `start` names the text.
ghost use Rattle.std.specs.Prelude.{None, Some, if◌then◌else◌};
ghost use Rattle.std.specs.Str.{bytes_eq};
ghost use Rattle.program_base.specs.Known.{Known};

use crate::texts::patterns::built;
use program_base::runs::{CannotRead, Sources};
use program_files::texts::start;
use std::alloc::{Alloc, Global};
use std::process::Abort;
use std::test::Fail;

/// A file at a path, and no other; its bytes are the standard input too.
#[derive(Drop)]
struct Held<'a> {
    alloc: Global,
    path: &'a str,
    bytes: &'a [u8],
}

impl Alloc for Held<'_> {
    type A = Global;

    fn alloc(&self) -> Global {
        self.alloc
    }
}

impl Sources for Held<'_> {
    ghost known = { λ h. record {
      files = λ path. if bytes_eq path h.path.now then Some h.bytes.now else None;
      input = Some h.bytes.now;
    } };

    fn file(&self, path: &str) -> Result<Vec<u8>, CannotRead> {
        if path == self.path {
            self.input()
        } else {
            Err(CannotRead)
        }
    }

    fn input(&self) -> Result<Vec<u8>, CannotRead> {
        match Vec::from_slice(self.alloc, self.bytes) {
            Ok(bytes) => Ok(bytes),
            Err(_) => Err(CannotRead),
        }
    }
}

/// What `start` writes over a file at a path, and with which status it ends.
fn started(
    rt: &(impl Abort + AllocGlobal),
    file: &[u8],
    words: &[&str],
) -> Result<(u8, Vec<u8>), Fail> {
    let mut args = Vec::new(rt.alloc());
    for word in words {
        args.push(String::from_str(rt.alloc(), *word)?)?;
    }
    let held = Held {
        alloc: rt.alloc(),
        path: "held.block",
        bytes: file,
    };
    let (mut out, mut err) = (Vec::new(rt.alloc()), Vec::new(rt.alloc()));
    let status = start(&held, args.as_slice(), &mut out, &mut err);
    Ok((status, out))
}

#[test]
fn the_file_that_is_named_answers(rt: HostRuntime) -> Result<(), Fail> {
    let file = built(&rt, b"banana\nfig\n".as_slice())?;
    let (status, out) = started(&rt, file.as_slice(), &["lines", "ana", "held.block"])?;
    assert!(rt; status == 0 && out.as_slice() == b"1\n".as_slice());
    let (status, out) = started(&rt, file.as_slice(), &["lines", "ana", "other.block"])?;
    assert!(rt; status == 2 && out.is_empty());
    Ok(())
}
