//! The numbers that lines have.
use program_base::runs::Form;
use program_files::strings::{Failure, build, find};
use std::process::Abort;
use std::test::Fail;

/// The file of the lines of a text.
pub(crate) fn built(rt: &(impl Abort + AllocGlobal), text: &[u8]) -> Result<Vec<u8>, Fail> {
    let mut out = Vec::new(rt.alloc());
    build(rt.alloc(), text, &mut out)?;
    Ok(out)
}

/// Compares what is answered to the lines of a text by the strings of another.
fn expect_numbers(
    rt: &(impl Abort + AllocGlobal),
    strings: &[u8],
    text: &[u8],
    numbers: &str,
) -> Result<(), Fail> {
    let file = built(rt, strings)?;
    let mut out = Vec::new(rt.alloc());
    find(rt.alloc(), file.as_slice(), text, Form::Text, &mut out)?;
    assert!(rt; out.as_slice() == numbers.as_bytes());
    Ok(())
}

/// Compares why there is no block of the lines of a text.
fn expect_failure(
    rt: &(impl Abort + AllocGlobal),
    text: &[u8],
    failure: Failure,
) -> Result<(), Fail> {
    let mut out = Vec::new(rt.alloc());
    assert!(rt; build(rt.alloc(), text, &mut out) == Err(failure));
    assert!(rt; out.is_empty());
    Ok(())
}

/// The numbers are those that a program in Python made by docs/FORMAT.md.
#[test]
fn each_line_has_a_number_of_its_own(rt: HostRuntime) -> Result<(), Fail> {
    let names = b"ada\nbob\neve\n".as_slice();
    expect_numbers(&rt, names, names, "1\n2\n0\n")?;
    expect_numbers(&rt, names, b"eve".as_slice(), "0\n")?;
    expect_numbers(
        &rt,
        names,
        b"bo\nadabob\nAda\nada\n".as_slice(),
        "none\nnone\nnone\n1\n",
    )
}

#[test]
fn empty_lines_are_passed_over(rt: HostRuntime) -> Result<(), Fail> {
    expect_numbers(
        &rt,
        b"\n\nada".as_slice(),
        b"\nada\n\nbob\n".as_slice(),
        "0\nnone\n",
    )?;
    expect_numbers(&rt, b"".as_slice(), b"ada\n\n".as_slice(), "none\n")?;
    expect_numbers(&rt, b"\n".as_slice(), b"".as_slice(), "")
}

#[test]
fn a_string_is_any_bytes_but_line_feeds(rt: HostRuntime) -> Result<(), Fail> {
    let bytes = [0u8, 255, 10, 13, 32, 10, 255];
    expect_numbers(
        &rt,
        bytes.as_slice(),
        [255u8, 10, 0].as_slice(),
        "2\nnone\n",
    )
}

/// By the seed 0 these two have one hash, and by the seed 1 they have not.
#[test]
fn equal_lines_are_refused_and_equal_hashes_are_not(rt: HostRuntime) -> Result<(), Fail> {
    expect_failure(&rt, b"ada\nbob\nada".as_slice(), Failure::EqualLines)?;
    let two = b"DfPggx7rn3H\nt_0e0z8MQ6G\n".as_slice();
    expect_numbers(&rt, two, two, "0\n1\n")
}

#[test]
fn other_bytes_are_no_strings(rt: HostRuntime) -> Result<(), Fail> {
    let file = built(&rt, b"ada\nbob\n".as_slice())?;
    for at in 0..file.len() {
        let mut changed = file.clone()?;
        changed[at] ^= 1;
        let mut out = Vec::new(rt.alloc());
        let found = find(
            rt.alloc(),
            changed.as_slice(),
            b"ada".as_slice(),
            Form::Text,
            &mut out,
        );
        assert!(rt; found == Err(Failure::WrongBlock) && out.is_empty());
    }
    let mut longer = file.clone()?;
    longer.push(0)?;
    let mut out = Vec::new(rt.alloc());
    let found = find(
        rt.alloc(),
        longer.as_slice(),
        b"ada".as_slice(),
        Form::Text,
        &mut out,
    );
    assert!(rt; found == Err(Failure::WrongBlock) && out.is_empty());
    Ok(())
}
