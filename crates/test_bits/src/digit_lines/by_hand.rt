//! The words of short lists, worked out by hand.
use crate::digit_lines::made::make_lines;
use std::process::Abort;
use std::test::Fail;

#[test]
fn three_digits_take_one_line(rt: HostRuntime) -> Result<(), Fail> {
    // The bits 1 and 2 of 9, 4 and 7 are the digits 0, 2 and 3: low bits 0, 0, 1, high bits 0, 1, 1. The other 125 of
    // the first 128 digits are 0.
    let made = make_lines(rt.alloc(), &[9, 4, 7], 1)?;
    assert!(rt; made.lines.as_slice() == [0x0001_0001_0000_007E, 4, 6, 0, 0, 0, 0, 0].as_slice());
    assert!(rt; made.table.as_slice() == [0, 0, 0, 0].as_slice());
    Ok(())
}

#[test]
fn the_last_word_of_a_line_has_low_and_high_bits(rt: HostRuntime) -> Result<(), Fail> {
    // 191 digits 0, and then 1, 2 and 3: digit 191 is the last of word 5, digits 192 and 193 are in word 7.
    let mut numbers = [0u64; 194];
    numbers[191] = 1;
    numbers[192] = 2;
    numbers[193] = 3;
    let made = make_lines(rt.alloc(), &numbers, 0)?;
    let last = 0x0000_0003_0000_0002;
    assert!(rt; made.lines.as_slice() == [128, 0, 0, 0, 0, 1 << 63, 0, last].as_slice());
    Ok(())
}

#[test]
fn a_second_line_counts_from_the_first(rt: HostRuntime) -> Result<(), Fail> {
    // 225 digits 2: the first line has 128 of them before its middle, the second line 224 and its own first.
    let made = make_lines(rt.alloc(), &[2; 225], 0)?;
    let Some(count) = made.lines.as_slice().get(8) else {
        return Err("there is a second line".into());
    };
    assert!(rt; made.lines.len() == 16 && *count == (225 << 32) + 127);
    Ok(())
}
