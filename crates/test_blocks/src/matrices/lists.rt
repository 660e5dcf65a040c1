//! Lists of what ranges of a matrix in a block have, worked out by hand.
use crate::matrices::matrices::MATRIX;
use matrix_block::{Answer, MatrixView};
use std::process::Abort;
use std::test::Fail;

#[test]
fn lists_of_ranges_are_those_worked_out(rt: HostRuntime) -> Result<(), Fail> {
    let words = MATRIX;
    let Some(matrix) = MatrixView::open(words.as_slice()) else {
        assert!(rt; false, "not opened");
        return Ok(());
    };
    let (mut numbers, mut counts) = ([9u64; 3], [9usize; 3]);
    assert!(rt; matrix.distinct(0, 6, 2, &mut numbers, &mut counts) == Answer::Found(3));
    assert!(rt; numbers == [3, 4, 5]);
    assert!(rt; counts == [1, 1, 1]);
    assert!(rt; matrix.distinct(1, 6, 0, &mut numbers, &mut counts) == Answer::Found(3));
    assert!(rt; numbers == [1, 4, 5]);
    assert!(rt; counts == [3, 1, 1]);
    assert!(rt; matrix.top_k(0, 6, &mut numbers, &mut counts) == Answer::Found(3));
    assert!(rt; numbers == [1, 3, 4]);
    assert!(rt; matrix.intersect(0..3, 3..6, 0, &mut numbers) == Answer::Found(1));
    assert!(rt; numbers == [1, 3, 4]);
    assert!(rt; matrix.intersect(0..3, 3..7, 0, &mut numbers) == Answer::Absent);
    assert!(rt; matrix.top_k(5, 1, &mut numbers, &mut counts) == Answer::Absent);
    Ok(())
}
