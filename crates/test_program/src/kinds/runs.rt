//! Runs with arguments, and what they write, over a source in memory whose bytes contracts know.
ghost use Rattle.std.specs.Prelude.{◌≡◌, IfOk, None, Some, if◌then◌else◌};
ghost use Rattle.std.specs.Str.{bytes_eq};
ghost use Rattle.program_base.specs.Known.{Known};

use crate::kinds::saying::file_of;
use program_base::runs::{CannotRead, Form, Sources};
use program_files::blocks::Failure;
use program_files::kinds::{info, start};
use std::alloc::{Alloc, Global};
use std::process::Abort;
use std::test::Fail;
use test_writers::Failing;

/// What is written where the arguments are no command.
const USAGE: &str = "usage: bitm check [--json] BLOCK | bitm info [--json] BLOCK\n";

/// A file at a path, and no other.
#[derive(Drop)]
struct Held<'a> {
    alloc: Global,
    path: &'a str,
    file: &'a [u8],
}

impl Alloc for Held<'_> {
    type A = Global;

    fn alloc(&self) -> Global {
        self.alloc
    }
}

impl Sources for Held<'_> {
    ghost known = { λ h. record {
      files = λ path. if bytes_eq path h.path.now then Some h.file.now else None;
      input = None;
    } };

    fn file(&self, path: &str) -> Result<Vec<u8>, CannotRead> {
        if path != self.path {
            return Err(CannotRead);
        }
        match Vec::from_slice(self.alloc, self.file) {
            Ok(copy) => Ok(copy),
            Err(_) => Err(CannotRead),
        }
    }

    fn input(&self) -> Result<Vec<u8>, CannotRead> {
        Err(CannotRead)
    }
}

/// Runs `start` over a file at the path `held.block`, and compares its status and its output.
fn expect_start(
    rt: &(impl Abort + AllocGlobal),
    file: &[u8],
    args: &[&str],
    status: u8,
    (out_text, err_text): (&str, &str),
) -> Result<(), Fail> {
    let mut given = Vec::new(rt.alloc());
    for arg in args {
        given.push(String::from_str(rt.alloc(), *arg)?)?;
    }
    let held = Held {
        alloc: rt.alloc(),
        path: "held.block",
        file,
    };
    let (mut out, mut err) = (Vec::new(rt.alloc()), Vec::new(rt.alloc()));
    assert!(rt; start(&held, given.as_slice(), &mut out, &mut err) == status);
    assert!(rt; out.as_slice() == out_text.as_bytes());
    assert!(rt; err.as_slice() == err_text.as_bytes());
    Ok(())
}

/// The file of a hash of three keys.
fn hash(rt: &(impl Abort + AllocGlobal)) -> Result<Vec<u8>, Fail> {
    let mut block = [0u64; 64];
    let _ = hash_block::build(&[0b1101], &[1], 7, block.as_mut_slice());
    file_of(rt, block.as_slice())
}

#[test]
fn arguments_that_are_no_command_get_the_usage(rt: HostRuntime) -> Result<(), Fail> {
    let none = b"".as_slice();
    expect_start(&rt, none, &["check"], 2, ("", USAGE))?;
    expect_start(&rt, none, &["info", "a", "b"], 2, ("", USAGE))?;
    expect_start(&rt, none, &["query", "held.block"], 2, ("", USAGE))
}

#[test]
fn the_file_that_is_named_is_reported(rt: HostRuntime) -> Result<(), Fail> {
    let mut file = hash(&rt)?;
    expect_start(
        &rt,
        file.as_slice(),
        &["check", "held.block"],
        0,
        ("good\n", ""),
    )?;
    let said = "kind hash\nlen 3\nwidth 0\nbytes 512\nbits_per_item 1365.33\n";
    expect_start(&rt, file.as_slice(), &["info", "held.block"], 0, (said, ""))?;
    let unread = ("", "bitm: cannot read\n");
    expect_start(&rt, file.as_slice(), &["check", "other.block"], 2, unread)?;
    file.push(0)?;
    expect_start(
        &rt,
        file.as_slice(),
        &["check", "held.block"],
        1,
        ("wrong\n", ""),
    )?;
    let wrong = "bitm: not a block of a kind that bitm queries, or not as it was written\n";
    expect_start(
        &rt,
        file.as_slice(),
        &["info", "held.block"],
        2,
        ("", wrong),
    )
}

#[test]
fn a_write_that_fails_is_reported(rt: HostRuntime) -> Result<(), Fail> {
    let file = hash(&rt)?;
    let mut out = Failing::new(rt.alloc(), 0, true);
    let said = info(rt.alloc(), file.as_slice(), Form::Text, &mut out);
    assert!(rt; said == Err(Failure::CannotWrite));
    Ok(())
}

#[test]
fn a_flush_that_fails_is_reported(rt: HostRuntime) -> Result<(), Fail> {
    let file = hash(&rt)?;
    let args = [
        String::from_str(rt.alloc(), "info")?,
        String::from_str(rt.alloc(), "held.block")?,
    ];
    let held = Held {
        alloc: rt.alloc(),
        path: "held.block",
        file: file.as_slice(),
    };
    let mut out = Failing::new(rt.alloc(), 100, false);
    let mut err = Vec::new(rt.alloc());
    assert!(rt; start(&held, &args, &mut out, &mut err) == 2);
    assert!(rt; err.as_slice() == b"bitm: cannot write\n".as_slice());
    Ok(())
}

/// The words of a file of version 2 that has no items.
fn of_version_2() -> [u64; 24] {
    [
        0x0262_6174_6d74_6962,
        1,
        0,
        0,
        192,
        0,
        0,
        192,
        0,
        192,
        0,
        192,
        0,
        192,
        0,
        192,
        0,
        192,
        0,
        192,
        0,
        192,
        0,
        0x6b2b_60c3_7795_fbb7,
    ]
}

#[test]
fn a_file_of_version_2_is_checked_by_its_parts(rt: HostRuntime) -> Result<(), Fail> {
    let mut words = of_version_2();
    let file = file_of(&rt, &words)?;
    let args = ["check", "held.block"].as_slice();
    let good = "good: the parts fit each other (version 2, which has no checksum of them)\n";
    expect_start(&rt, file.as_slice(), args, 0, (good, ""))?;
    words[1] ^= 2;
    let file = file_of(&rt, &words)?;
    expect_start(&rt, file.as_slice(), args, 1, ("wrong\n", ""))
}
