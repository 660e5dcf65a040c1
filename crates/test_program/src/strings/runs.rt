//! Runs with arguments, and what they write.
use program_base::runs::Form;
use program_files::strings::{Failure, build, find, start};
use std::fs;
use std::io::Input;
use std::process::Abort;
use std::rt::Files;
use std::test::Fail;
use test_writers::Failing;

/// What is written where the arguments are no command.
const USAGE: &str = "usage: bitm strings build | bitm strings find [--json] BLOCK\n";

/// Runs `start` with these arguments after `strings`, and compares its status and its output.
fn expect_start(
    rt: &(impl Abort + Files + Input + AllocGlobal),
    args: &[&str],
    status: u8,
    out_text: &str,
    err_text: &str,
) -> Result<(), Fail> {
    let mut given = Vec::new(rt.alloc());
    for arg in args {
        given.push(String::from_str(rt.alloc(), *arg)?)?;
    }
    let mut out = Vec::new(rt.alloc());
    let mut err = Vec::new(rt.alloc());
    assert_eq!(rt; start(rt, given.as_slice(), &mut out, &mut err), status);
    assert!(rt; out.as_slice() == out_text.as_bytes());
    assert!(rt; err.as_slice() == err_text.as_bytes());
    Ok(())
}

#[test]
fn arguments_that_are_no_command_get_the_usage(rt: HostRuntime) -> Result<(), Fail> {
    expect_start(&rt, &[], 2, "", USAGE)?;
    expect_start(&rt, &["find"], 2, "", USAGE)?;
    expect_start(&rt, &["count"], 2, "", USAGE)?;
    expect_start(&rt, &["build", "a"], 2, "", USAGE)?;
    expect_start(&rt, &["find", "a", "b"], 2, "", USAGE)
}

#[test]
fn a_file_that_is_no_block_of_strings_is_reported(rt: HostRuntime) -> Result<(), Fail> {
    let path = "bitm_strings.block";
    fs::write(&rt, path, b"ada\n".as_slice())?;
    let wrong = "bitm: not a block of strings, or not as it was written\n";
    expect_start(&rt, &["find", path], 2, "", wrong)?;
    fs::remove_file(&rt, path)?;
    expect_start(&rt, &["find", path], 2, "", "bitm: cannot read\n")
}

#[test]
fn a_write_that_fails_is_reported(rt: HostRuntime) -> Result<(), Fail> {
    let mut file = Vec::new(rt.alloc());
    let text = b"ada\nbob\n".as_slice();
    build(rt.alloc(), text, &mut file)?;
    let mut out = Failing::new(rt.alloc(), 0, true);
    assert_eq!(rt;
        build(rt.alloc(), text, &mut out),
        Err(Failure::CannotWrite)
    );
    assert_eq!(rt;
        find(rt.alloc(), file.as_slice(), text, Form::Text, &mut out),
        Err(Failure::CannotWrite)
    );
    Ok(())
}
