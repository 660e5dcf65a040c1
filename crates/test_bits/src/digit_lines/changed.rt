//! Counts that were changed: `check` sees each, and no query leads out of the list.
use crate::digit_lines::made::{Made, drawn, make_lines};
use digits::answer::Answer;
use std::process::Abort;
use std::test::Fail;

/// Whether the queries at some indices stay within the list, and each position that is found has its digit.
fn stays(made: &Made) -> bool {
    let mut stays = true;
    for step in 0..40usize {
        let index = step.wrapping_mul(37);
        stays &= (made.rank(0, index) == None) == (index > made.len);
        stays &= (made.digit_and_rank(index) == None) == (index >= made.len);
        for digit in 0..4u8 {
            if let Some(Answer::Found(position)) = made.select(digit, index) {
                stays &= position < made.len && made.digit(position) == Some(digit);
            }
        }
    }
    stays
}

/// The word with one bit turned.
fn turned(word: u64, bit: usize) -> u64 {
    word ^ (1u64 << (bit % 64))
}

#[test]
fn each_changed_bit_of_a_count_is_seen(rt: HostRuntime) -> Result<(), Fail> {
    let numbers = drawn(rt.alloc(), 1000, 0)?;
    let mut made = make_lines(rt.alloc(), numbers.as_slice(), 4)?;
    for bit in 0..320usize {
        let line = bit / 64 * 8;
        if line < made.lines.len() {
            let lines = made.lines.as_mut_slice();
            lines[line] = turned(lines[line], bit);
            assert!(rt; !made.is_right() && stays(&made));
            let lines = made.lines.as_mut_slice();
            if line < lines.len() {
                lines[line] = turned(lines[line], bit);
            }
        }
    }
    assert!(rt; made.is_right());
    Ok(())
}

#[test]
fn each_changed_bit_of_the_table_is_seen(rt: HostRuntime) -> Result<(), Fail> {
    let numbers = drawn(rt.alloc(), 1000, 0)?;
    let mut made = make_lines(rt.alloc(), numbers.as_slice(), 4)?;
    for bit in 0..256usize {
        let table = made.table.as_mut_slice();
        if bit / 64 < table.len() {
            table[bit / 64] = turned(table[bit / 64], bit);
            assert!(rt; !made.is_right() && stays(&made));
            let table = made.table.as_mut_slice();
            if bit / 64 < table.len() {
                table[bit / 64] = turned(table[bit / 64], bit);
            }
        }
    }
    assert!(rt; made.is_right());
    Ok(())
}
