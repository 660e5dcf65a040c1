//! Answers of cursors that are worked out by hand.
use elias_fano::EliasFano;
use postings::{
    Cursor, Merged, Seeker, SliceCursor, intersect, total_intersect, total_union, union,
};
use std::process::Abort;
use std::test::Fail;

#[test]
fn a_cursor_moves_forward_only(rt: HostRuntime) -> Result<(), Fail> {
    let numbers = [2u64, 5, 5, 9, u64::MAX];
    let kept = EliasFano::build(rt.alloc(), numbers.as_slice())?;
    let mut seeker = Seeker::of(&kept);
    let Some(mut slice) = SliceCursor::over(numbers.as_slice()) else {
        return Err("the numbers rise".into());
    };
    let asked = [
        (0u64, Some(2u64)),
        (3, Some(5)),
        (1, Some(5)),
        (6, Some(9)),
        (10, Some(u64::MAX)),
        (0, Some(u64::MAX)),
    ];
    for (v, next) in asked {
        assert!(rt; seeker.next_geq(v) == next && slice.next_geq(v) == next);
    }
    assert!(rt; SliceCursor::over([3u64, 2].as_slice()).is_none());
    let mut none = SliceCursor::over([].as_slice());
    assert!(rt; none.as_mut().map(|cursor| cursor.next_geq(0)) == Some(None));
    Ok(())
}

/// Three lists; 5 and 9 stand in each.
pub(crate) const LISTS: [&[u64]; 3] = [&[2, 5, 9, 9, 12], &[5, 7, 9, 12], &[1, 5, 9, 30]];

/// Cursors at the first number of each list.
fn three<'a>() -> Option<[SliceCursor<'a>; 3]> {
    let one = SliceCursor::over(LISTS[0])?;
    let two = SliceCursor::over(LISTS[1])?;
    let three = SliceCursor::over(LISTS[2])?;
    Some([one, two, three])
}

#[test]
fn merges_write_what_lists_share_and_what_they_have(rt: HostRuntime) -> Result<(), Fail> {
    let mut out = [7u64; 9];
    let Some(mut lists) = three() else {
        return Err("the numbers rise".into());
    };
    assert!(rt; intersect(&mut lists, 3, &mut out) == 2 && out == [5, 9, 7, 7, 7, 7, 7, 7, 7]);
    let Some(mut lists) = three() else {
        return Err("the numbers rise".into());
    };
    assert!(rt; total_intersect(&mut lists, 6, &mut out[0..1]) == Merged::Done(1) && out[0] == 9);
    let Some(mut lists) = three() else {
        return Err("the numbers rise".into());
    };
    assert!(rt; union(&mut lists, 2, &mut out) == 6 && out == [2, 5, 7, 9, 12, 30, 7, 7, 7]);
    let Some(mut lists) = three() else {
        return Err("the numbers rise".into());
    };
    assert!(rt;
        total_union(&mut lists, 0, &mut out[0..2]) == Merged::Done(2) && out[0] == 1 && out[1] == 2
    );
    assert!(rt;
        total_union(&mut lists, 3, &mut out[0..2]) == Merged::Done(2) && out[0] == 5 && out[1] == 7
    );
    Ok(())
}
