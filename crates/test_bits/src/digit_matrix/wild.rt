//! Levels in memory that holds anything: each query ends and stays within the list.
use crate::digit_matrix::kept::{Kept, room_for};
use digit_levels::answer::Answer;
use std::process::Abort;
use std::test::Fail;

/// Whether an answer that is found is less than `bound`, or there is none.
fn is_below(answer: &Option<Answer<usize>>, bound: usize) -> bool {
    match answer {
        Some(Answer::Found(found)) => *found < bound,
        _ => true,
    }
}

/// Whether queries stay within the list.
fn stays(kept: &Kept) -> bool {
    let mut stays = true;
    for step in 0..30usize {
        let index = step.wrapping_mul(13);
        let number = index as u64;
        stays &= (kept.get(index) == Some(Answer::Absent)) == (index >= kept.len);
        if let Some(Answer::Found(found)) = kept.get(index) {
            stays &= found < 32;
        }
        stays &= (kept.rank(number, index) == Some(Answer::Absent)) == (index > kept.len);
        stays &= is_below(&kept.rank(number, index), index.wrapping_add(1));
        stays &= is_below(&kept.select(number, step), kept.len);
    }
    stays
}

#[test]
fn queries_over_any_memory_stay_within_the_list(rt: HostRuntime) -> Result<(), Fail> {
    let mut word = 1u64;
    for _ in 0..64usize {
        word = word.wrapping_mul(6_364_136_223_846_793_005).wrapping_add(1);
        let kept = room_for(rt.alloc(), 300, 5, word)?;
        assert!(rt; stays(&kept));
        let small = room_for(rt.alloc(), 300, 5, word >> 57)?;
        assert!(rt; stays(&small));
    }
    Ok(())
}

#[test]
fn lengths_of_other_levels_are_refused(rt: HostRuntime) -> Result<(), Fail> {
    let mut kept = room_for(rt.alloc(), 300, 5, 0)?;
    assert!(rt; kept.get(0) != None);
    kept.width = 3;
    assert!(rt; kept.get(0) == None);
    kept.width = 0;
    assert!(rt; kept.get(0) == None);
    kept.width = 65;
    assert!(rt; kept.get(0) == None);
    kept.width = 5;
    kept.len = 448;
    assert!(rt; kept.get(0) == None);
    kept.len = usize::MAX;
    assert!(rt; kept.get(0) == None);
    Ok(())
}
