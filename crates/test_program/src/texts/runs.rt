//! Runs with arguments, and what they write.
use program_files::texts::{Failure, build, count, start};
use std::fs;
use std::io::Input;
use std::process::Abort;
use std::rt::Files;
use std::test::Fail;
use test_writers::Failing;

/// What is written where the arguments are no command.
const USAGE: &str = "usage: bitm text build | bitm text count PATTERN BLOCK | \
    bitm text locate PATTERN BLOCK | bitm text lines PATTERN BLOCK
before PATTERN may stand --no-check and --json; -f FILE instead of PATTERN takes the lines of a file as patterns\n";

/// Runs `start` with these arguments after `text`, and compares its status and its output.
fn expect_start(
    rt: &(impl Abort + Files + Input + AllocGlobal),
    args: &[&str],
    status: u8,
    out_text: &str,
    err_text: &str,
) -> Result<(), Fail> {
    let mut given = Vec::new(rt.alloc());
    for arg in args {
        given.push(String::from_str(rt.alloc(), *arg)?)?;
    }
    let mut out = Vec::new(rt.alloc());
    let mut err = Vec::new(rt.alloc());
    assert_eq!(rt; start(rt, given.as_slice(), &mut out, &mut err), status);
    assert!(rt; out.as_slice() == out_text.as_bytes());
    assert!(rt; err.as_slice() == err_text.as_bytes());
    Ok(())
}

#[test]
fn arguments_that_are_no_command_get_the_usage(rt: HostRuntime) -> Result<(), Fail> {
    expect_start(&rt, &[], 2, "", USAGE)?;
    expect_start(&rt, &["count"], 2, "", USAGE)?;
    expect_start(&rt, &["count", "a"], 2, "", USAGE)?;
    expect_start(&rt, &["find", "a", "b"], 2, "", USAGE)?;
    expect_start(&rt, &["build", "a"], 2, "", USAGE)?;
    expect_start(&rt, &["locate", "a", "b", "c"], 2, "", USAGE)?;
    expect_start(&rt, &["locate", "-f", "--no-check", "b", "c"], 2, "", USAGE)
}

#[test]
fn a_run_answers_by_its_file(rt: HostRuntime) -> Result<(), Fail> {
    let path = "bitm_text.block";
    let mut file = Vec::new(rt.alloc());
    build(rt.alloc(), b"banana".as_slice(), &mut file)?;
    fs::write(&rt, path, file.as_slice())?;
    expect_start(&rt, &["count", "an", path], 0, "2\n", "")?;
    expect_start(&rt, &["locate", "an", path], 0, "1\n3\n", "")?;
    expect_start(&rt, &["locate", "x", path], 1, "", "")?;
    expect_start(&rt, &["count", "x", path], 1, "0\n", "")?;
    expect_start(&rt, &["lines", "x", path], 1, "", "")?;
    expect_start(&rt, &["lines", "an", path], 0, "1\n", "")?;
    expect_start(&rt, &["count", "--no-check", "an", path], 0, "2\n", "")?;
    expect_start(&rt, &["count", "-f", path], 1, "0\n", "")?;
    fs::write(&rt, path, b"banana".as_slice())?;
    let wrong = "bitm: not the index of a text, or not as it was written\n";
    expect_start(&rt, &["count", "an", path], 2, "", wrong)?;
    fs::remove_file(&rt, path)?;
    expect_start(&rt, &["count", "an", path], 2, "", "bitm: cannot read\n")
}

#[test]
fn the_lines_of_a_list_are_patterns(rt: HostRuntime) -> Result<(), Fail> {
    let (path, list) = ("bitm_listed.block", "bitm_listed.txt");
    let mut file = Vec::new(rt.alloc());
    build(rt.alloc(), b"banana\nfig\n".as_slice(), &mut file)?;
    fs::write(&rt, path, file.as_slice())?;
    fs::write(&rt, list, b"an\r\nx\n\nfig".as_slice())?;
    expect_start(&rt, &["count", "-f", list, path], 0, "2\n0\n12\n1\n", "")?;
    expect_start(&rt, &["lines", "-f", list, path], 0, "1\n2\n", "")?;
    fs::write(&rt, list, b"fig\nan\n".as_slice())?;
    let rows = "1\n3\n7\n";
    expect_start(
        &rt,
        &["locate", "--no-check", "-f", list, path],
        0,
        rows,
        "",
    )?;
    fs::write(&rt, list, b"x\ny\n".as_slice())?;
    expect_start(&rt, &["count", "-f", list, path], 1, "0\n0\n", "")?;
    fs::remove_file(&rt, list)?;
    expect_start(
        &rt,
        &["lines", "-f", list, path],
        2,
        "",
        "bitm: cannot read\n",
    )?;
    Ok(fs::remove_file(&rt, path)?)
}

#[test]
fn a_write_that_fails_is_reported(rt: HostRuntime) -> Result<(), Fail> {
    let mut file = Vec::new(rt.alloc());
    build(rt.alloc(), b"banana".as_slice(), &mut file)?;
    let mut out = Failing::new(rt.alloc(), 0, true);
    let text = b"banana".as_slice();
    assert_eq!(rt;
        build(rt.alloc(), text, &mut out),
        Err(Failure::CannotWrite)
    );
    let pattern = b"an".as_slice();
    assert_eq!(rt;
        count(rt.alloc(), file.as_slice(), &[pattern], true, &mut out),
        Err(Failure::CannotWrite)
    );
    Ok(())
}
