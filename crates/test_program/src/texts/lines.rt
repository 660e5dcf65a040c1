//! In which lines patterns stand, worked out by hand as `grep -n` numbers them.
use crate::texts::patterns::built;
use program_files::texts::lines;
use std::process::Abort;
use std::test::Fail;

/// Compares the lines of a text that have a pattern.
fn expect_lines(
    rt: &(impl Abort + AllocGlobal),
    text: &[u8],
    rows: &[(&str, &str)],
) -> Result<(), Fail> {
    let file = built(rt, text)?;
    for (pattern, numbers) in rows {
        let mut out = Vec::new(rt.alloc());
        let found = lines(
            rt.alloc(),
            file.as_slice(),
            &[pattern.as_bytes()],
            true,
            &mut out,
        )?;
        assert!(rt; out.as_slice() == numbers.as_bytes(), "at {pattern:?}");
        assert!(rt; found == !numbers.is_empty());
    }
    Ok(())
}

#[test]
fn a_line_is_named_once_however_often_it_has_the_pattern(rt: HostRuntime) -> Result<(), Fail> {
    let rows = [
        ("ana", "1\n3\n"),
        ("a", "1\n3\n"),
        ("fig", "2\n"),
        ("s", "3\n"),
        ("banana", "1\n"),
        ("bananas", ""),
    ];
    expect_lines(&rt, b"banana\nfig\nananas\n".as_slice(), &rows)
}

#[test]
fn the_last_line_may_end_open(rt: HostRuntime) -> Result<(), Fail> {
    let rows = [("a", "1\n3\n"), ("b", "2\n"), ("", "1\n2\n3\n")];
    expect_lines(&rt, b"a\nb\na".as_slice(), &rows)
}

#[test]
fn the_empty_pattern_stands_in_each_line_and_in_no_other(rt: HostRuntime) -> Result<(), Fail> {
    expect_lines(&rt, b"".as_slice(), &[("", ""), ("a", "")])?;
    expect_lines(&rt, b"\n".as_slice(), &[("", "1\n")])?;
    expect_lines(&rt, b"a\n\nb\n".as_slice(), &[("", "1\n2\n3\n")])
}

#[test]
fn a_pattern_with_a_line_feed_is_in_the_line_where_it_begins(rt: HostRuntime) -> Result<(), Fail> {
    let rows = [
        ("b\nc", "1\n"),
        ("\n", "1\n2\n3\n"),
        ("\n\n", "2\n"),
        ("d\n", "2\n"),
    ];
    expect_lines(&rt, b"ab\ncd\n\n".as_slice(), &rows)
}
