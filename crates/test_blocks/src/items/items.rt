//! Blocks of a sequence, of sparse bits and of a matrix, each read item by item.
use block_items::{HasItems, Items};
use matrix_block::MatrixView;
use sequence_block::sparse::SparseView;
use std::iter::Iterator;
use std::process::Abort;
use std::test::Fail;

/// The numbers of the sequence, and the positions of the 1 bits.
const RISING: [u64; 7] = [2, 3, 5, 7, 11, 13, 24];

/// The numbers of the matrix.
const NUMBERS: [u64; 6] = [3, 1, 4, 1, 5, 2];

/// The first eight items, each one more than it is; 0 after the last.
fn first_eight<V: HasItems>(items: &mut Items<'_, V>) -> [u64; 8] {
    let mut all = [0u64; 8];
    for at in 0..8usize {
        all[at] = match items.next() {
            Some(item) => item.wrapping_add(1),
            None => 0,
        };
    }
    all
}

/// How many items come.
fn count_of<V: HasItems>(items: Items<'_, V>) -> usize {
    let mut count = 0usize;
    for _ in items {
        count = count.wrapping_add(1);
    }
    count
}

#[test]
fn a_sequence_gives_its_numbers(rt: HostRuntime) -> Result<(), Fail> {
    let mut block = [0u64; 80];
    assert!(rt; sequence_block::build(RISING.as_slice(), block.as_mut_slice()).is_ok());
    let Some(sequence) = sequence_block::open(block.as_slice()) else {
        assert!(rt; false, "not opened");
        return Ok(());
    };
    assert!(rt; first_eight(&mut sequence.iter()) == [3, 4, 6, 8, 12, 14, 25, 0]);
    assert!(rt; first_eight(&mut sequence.iter_from(5)) == [14, 25, 0, 0, 0, 0, 0, 0]);
    assert!(rt; count_of(sequence.iter_from(7)) == 0);
    assert!(rt; count_of(sequence.iter_from(usize::MAX)) == 0);
    Ok(())
}

#[test]
fn sparse_bits_give_the_positions_of_their_ones(rt: HostRuntime) -> Result<(), Fail> {
    let mut block = [0u64; 80];
    assert!(rt; sequence_block::sparse::build(RISING.as_slice(), 30, block.as_mut_slice()).is_ok());
    let Some(bits) = SparseView::open(block.as_slice()) else {
        assert!(rt; false, "not opened");
        return Ok(());
    };
    assert!(rt; first_eight(&mut bits.iter()) == [3, 4, 6, 8, 12, 14, 25, 0]);
    assert!(rt; first_eight(&mut bits.iter_from(6)) == [25, 0, 0, 0, 0, 0, 0, 0]);
    Ok(())
}

#[test]
fn a_matrix_gives_its_numbers(rt: HostRuntime) -> Result<(), Fail> {
    let mut block = [0u64; 80];
    let mut room = [0u64; 12];
    let made = matrix_block::build(
        NUMBERS.as_slice(),
        3,
        false,
        false,
        room.as_mut_slice(),
        block.as_mut_slice(),
    );
    assert!(rt; made.is_ok());
    let Some(matrix) = MatrixView::open(block.as_slice()) else {
        assert!(rt; false, "not opened");
        return Ok(());
    };
    assert!(rt; first_eight(&mut matrix.iter()) == [4, 2, 5, 2, 6, 3, 0, 0]);
    assert!(rt; first_eight(&mut matrix.iter_from(4)) == [6, 3, 0, 0, 0, 0, 0, 0]);
    Ok(())
}

#[test]
fn words_of_no_sequence_give_no_more_items_than_are_announced(rt: HostRuntime) -> Result<(), Fail> {
    let mut block = [0u64; 80];
    assert!(rt; sequence_block::build(RISING.as_slice(), block.as_mut_slice()).is_ok());
    // The first section: the words of the high bits.
    block[40] = 0;
    let Some(sequence) = sequence_block::open(block.as_slice()) else {
        assert!(rt; false, "not opened");
        return Ok(());
    };
    let mut items = sequence.iter();
    assert!(rt; first_eight(&mut items) == [0; 8]);
    assert!(rt; count_of(items) == 0);
    block[40] = u64::MAX;
    let Some(sequence) = sequence_block::open(block.as_slice()) else {
        assert!(rt; false, "not opened");
        return Ok(());
    };
    assert!(rt; count_of(sequence.iter()) <= 7);
    Ok(())
}
