//! The words of a short list.
use crate::digit_matrix::kept::make_levels;
use digit_levels::answer::Answer;
use std::process::Abort;
use std::test::Fail;

#[test]
fn the_levels_of_three_numbers_are_these(rt: HostRuntime) -> Result<(), Fail> {
    // 3, 1 and 4 of three bits: the digits 0, 0, 1; sorted by them 3, 1, 4, whose digits are 3, 1, 0.
    let kept = make_levels(rt.alloc(), &[3, 1, 4], 3)?;
    let lines = kept.lines.as_slice();
    assert!(rt; lines.len() == 16 && kept.tables.len() == 8);
    if lines.len() == 16 {
        // Digits after the last one are 0, and so counted as zeros.
        assert!(rt; lines[0] == 127 | 1 << 16 && lines[1] == 4 && lines[2] == 0);
        assert!(rt; lines[8] == 126 | 1 << 16 | 1 << 48 && lines[9] == 3 && lines[10] == 1);
    }
    assert!(rt; kept.lesser.as_slice() == [0, 2, 3, 3, 0, 1, 2, 2].as_slice());
    assert!(rt; kept.get(0) == Some(Answer::Found(3)) && kept.get(1) == Some(Answer::Found(1)));
    assert!(rt; kept.get(2) == Some(Answer::Found(4)) && kept.get(3) == Some(Answer::Absent));
    Ok(())
}
