//! How often patterns stand in texts, and where.
use program_files::texts::{Failure, build, count, lines, locate};
use std::process::Abort;
use std::test::Fail;

/// The file of a text.
pub(crate) fn built(rt: &(impl Abort + AllocGlobal), text: &[u8]) -> Result<Vec<u8>, Fail> {
    let mut out = Vec::new(rt.alloc());
    build(rt.alloc(), text, &mut out)?;
    Ok(out)
}

/// Compares at how many positions of a file's text a pattern stands, and at which, with and without a look at its sums.
fn expect_found(
    rt: &(impl Abort + AllocGlobal),
    file: &[u8],
    (pattern, times, positions): (&[u8], &str, &str),
) -> Result<(), Fail> {
    for sums in [true, false] {
        let mut out = Vec::new(rt.alloc());
        let found = count(rt.alloc(), file, &[pattern], sums, &mut out)?;
        assert!(rt; out.as_slice() == times.as_bytes() && found == (times != "0\n"));
        let mut out = Vec::new(rt.alloc());
        let found = locate(rt.alloc(), file, &[pattern], sums, &mut out)?;
        assert!(rt; out.as_slice() == positions.as_bytes() && found == !positions.is_empty());
    }
    Ok(())
}

#[test]
fn a_pattern_stands_where_the_text_has_it(rt: HostRuntime) -> Result<(), Fail> {
    let file = built(&rt, b"banana".as_slice())?;
    let file = file.as_slice();
    expect_found(&rt, file, (b"ana".as_slice(), "2\n", "1\n3\n"))?;
    expect_found(&rt, file, (b"a".as_slice(), "3\n", "1\n3\n5\n"))?;
    expect_found(&rt, file, (b"banana".as_slice(), "1\n", "0\n"))?;
    expect_found(&rt, file, (b"nab".as_slice(), "0\n", ""))?;
    expect_found(&rt, file, (b"bananas".as_slice(), "0\n", ""))
}

#[test]
fn the_empty_pattern_stands_at_each_position_and_the_end(rt: HostRuntime) -> Result<(), Fail> {
    let file = built(&rt, b"abc".as_slice())?;
    expect_found(
        &rt,
        file.as_slice(),
        (b"".as_slice(), "4\n", "0\n1\n2\n3\n"),
    )?;
    let file = built(&rt, b"".as_slice())?;
    expect_found(&rt, file.as_slice(), (b"".as_slice(), "1\n", "0\n"))?;
    expect_found(&rt, file.as_slice(), (b"a".as_slice(), "0\n", ""))
}

#[test]
fn all_bytes_are_letters(rt: HostRuntime) -> Result<(), Fail> {
    let file = built(&rt, &[0, 255, 10, 255, 10, 0])?;
    let file = file.as_slice();
    expect_found(&rt, file, (&[255, 10], "2\n", "1\n3\n"))?;
    expect_found(&rt, file, (&[0], "2\n", "0\n5\n"))?;
    expect_found(&rt, file, (&[128], "0\n", ""))
}

#[test]
fn a_byte_that_the_text_does_not_use_stands_nowhere(rt: HostRuntime) -> Result<(), Fail> {
    let file = built(&rt, b"banana".as_slice())?;
    let file = file.as_slice();
    for byte in 0..=255u8 {
        if byte != b'a' && byte != b'b' && byte != b'n' {
            expect_found(&rt, file, (&[byte], "0\n", ""))?;
            expect_found(&rt, file, (&[b'a', byte], "0\n", ""))?;
            expect_found(&rt, file, (&[byte, b'n'], "0\n", ""))?;
        }
    }
    Ok(())
}

#[test]
fn each_of_256_bytes_stands_where_it_is(rt: HostRuntime) -> Result<(), Fail> {
    let mut text = [0u8; 256];
    for at in 0..256usize {
        text[at] = 255 - at as u8;
    }
    let file = built(&rt, text.as_slice())?;
    for at in 0..256usize {
        let position = format!(in rt.alloc(); "{at}\n")?;
        expect_found(
            &rt,
            file.as_slice(),
            (&text[at..at + 1], "1\n", position.as_str()),
        )?;
    }
    Ok(())
}

#[test]
fn a_text_of_one_byte_has_no_other(rt: HostRuntime) -> Result<(), Fail> {
    for byte in [0u8, 63, 64, 127, 128, 255] {
        let file = built(&rt, &[byte; 3])?;
        let file = file.as_slice();
        expect_found(&rt, file, (&[byte], "3\n", "0\n1\n2\n"))?;
        expect_found(&rt, file, (&[byte; 3], "1\n", "0\n"))?;
        expect_found(&rt, file, (&[byte ^ 1], "0\n", ""))?;
        expect_found(&rt, file, (&[byte ^ 128], "0\n", ""))?;
    }
    Ok(())
}

#[test]
fn positions_rise_in_a_text_of_one_letter(rt: HostRuntime) -> Result<(), Fail> {
    let file = built(&rt, &[b'x'; 12])?;
    let positions = "0\n1\n2\n3\n4\n5\n6\n7\n8\n9\n10\n";
    expect_found(&rt, file.as_slice(), (b"xx".as_slice(), "11\n", positions))
}

/// Whether all calls say that these bytes are no file of a text, and write nothing.
fn is_refused(rt: &impl AllocGlobal, file: &[u8]) -> bool {
    let mut out = Vec::new(rt.alloc());
    let pattern = [b"a".as_slice()];
    count(rt.alloc(), file, &pattern, true, &mut out) == Err(Failure::WrongBlock)
        && locate(rt.alloc(), file, &pattern, true, &mut out) == Err(Failure::WrongBlock)
        && lines(rt.alloc(), file, &pattern, true, &mut out) == Err(Failure::WrongBlock)
        && out.is_empty()
}

/// Turns the lowest bit of a byte over.
fn flip(file: &mut [u8], at: usize) {
    if let Some(byte) = file.get_mut(at) {
        *byte ^= 1;
    }
}

#[test]
fn other_bytes_are_a_wrong_block(rt: HostRuntime) -> Result<(), Fail> {
    let mut file = built(&rt, b"mississippi".as_slice())?;
    for at in 0..file.len() {
        flip(file.as_mut_slice(), at);
        assert!(rt; is_refused(&rt, file.as_slice()), "at byte {at}");
        flip(file.as_mut_slice(), at);
    }
    for len in [0, 1, 8, 512, 1000] {
        assert!(rt; is_refused(&rt, file.as_slice().get(..len).unwrap_or(&[])));
    }
    Ok(())
}

#[test]
fn a_changed_block_is_answered_where_its_sums_are_not_looked_at(
    rt: HostRuntime,
) -> Result<(), Fail> {
    let mut file = built(&rt, b"mississippi".as_slice())?;
    let last = file.len().saturating_sub(1);
    flip(file.as_mut_slice(), last);
    let mut out = Vec::new(rt.alloc());
    let pattern = [b"ss".as_slice()];
    assert!(rt;
        count(rt.alloc(), file.as_slice(), &pattern, true, &mut out) == Err(Failure::WrongBlock)
    );
    assert!(rt; count(rt.alloc(), file.as_slice(), &pattern, false, &mut out) == Ok(true));
    assert!(rt; out.as_slice() == b"2\n".as_slice());
    Ok(())
}

/// What is written of these patterns in banana.
fn of_list(
    rt: &impl AllocGlobal,
    file: &[u8],
    patterns: &[&[u8]],
) -> Result<(Vec<u8>, Vec<u8>), Failure> {
    let (mut counts, mut positions) = (Vec::new(rt.alloc()), Vec::new(rt.alloc()));
    count(rt.alloc(), file, patterns, true, &mut counts)?;
    locate(rt.alloc(), file, patterns, true, &mut positions)?;
    Ok((counts, positions))
}

#[test]
fn each_pattern_of_a_list_is_counted_and_a_position_is_named_once(
    rt: HostRuntime,
) -> Result<(), Fail> {
    let file = built(&rt, b"banana".as_slice())?;
    let list = [
        b"na".as_slice(),
        b"x".as_slice(),
        b"n".as_slice(),
        b"an".as_slice(),
    ];
    let (counts, positions) = of_list(&rt, file.as_slice(), &list)?;
    assert!(rt; counts.as_slice() == b"2\n0\n2\n2\n".as_slice());
    assert!(rt; positions.as_slice() == b"1\n2\n3\n4\n".as_slice());
    let (counts, positions) = of_list(&rt, file.as_slice(), &[])?;
    assert!(rt; counts.is_empty() && positions.is_empty());
    Ok(())
}
