//! Merges of cursors that turn out wrong, each at one of its calls.
use crate::posting_lists::by_hand::LISTS;
use elias_fano::Answer;
use postings::{Merged, SliceCursor, TotalCursor, total_intersect, total_union};
use std::process::Abort;
use std::test::Fail;

/// A cursor that answers `Wrong` after the given number of calls.
#[derive(Drop)]
struct Breaking<'a> {
    cursor: SliceCursor<'a>,
    calls: usize,
}

impl<'a> TotalCursor for Breaking<'a> {
    ghost use Rattle.std.specs.Prelude.{ℕ, []};

    ghost left = { λ c. [] };

    ghost right = { λ c. ⊥ };

    ghost calls = { λ c. 0 };

    ghost wrong = { λ c. 0 };

    ghost Kept = { ℕ };

    ghost kept = { λ c. 0 };

    fn total_next_geq(&mut self, v: u64) -> Answer<u64> {
        match self.calls.checked_sub(1) {
            Some(calls) => {
                self.calls = calls;
                self.cursor.total_next_geq(v)
            }
            None => Answer::Wrong,
        }
    }
}

/// A cursor at the first number of a list, which breaks after the given number of calls.
fn over<'a>(list: &'a [u64], calls: usize) -> Option<Breaking<'a>> {
    let cursor = SliceCursor::over(list)?;
    Some(Breaking { cursor, calls })
}

/// Cursors over `LISTS`; one breaks after the given number of calls.
fn three_breaking<'a>(broken: usize, calls: usize) -> Option<[Breaking<'a>; 3]> {
    let of = |list: usize| if list == broken { calls } else { usize::MAX };
    let one = over(LISTS[0], of(0))?;
    let two = over(LISTS[1], of(1))?;
    let three = over(LISTS[2], of(2))?;
    Some([one, two, three])
}

/// Whether the intersection from 3 on and the union from 2 on end as worked out by hand.
fn ends(broken: usize, calls: usize, shared: Merged, joined: Merged) -> bool {
    let mut out = [7u64; 9];
    let Some(mut lists) = three_breaking(broken, calls) else {
        return false;
    };
    if total_intersect(&mut lists, 3, &mut out) != shared {
        return false;
    }
    let Some(mut lists) = three_breaking(broken, calls) else {
        return false;
    };
    total_union(&mut lists, 2, &mut out) == joined
}

#[test]
fn a_merge_ends_where_a_list_turns_out_wrong(rt: HostRuntime) -> Result<(), Fail> {
    // The intersection from 3 on asks the first list for 3, 6, 10 and 30, the others for 5, 9 and 12; it has 5 and 9. A
    // row has the list, how many calls it answers, and how many numbers are written before the call after these.
    let rows = [
        (0usize, 0usize, 0usize),
        (0, 1, 1),
        (0, 2, 2),
        (0, 3, 2),
        (1, 0, 0),
        (1, 1, 1),
        (1, 2, 2),
        (2, 0, 0),
        (2, 1, 1),
        (2, 2, 2),
    ];
    for (list, calls, written) in rows {
        // The union from 2 on asks each list for 2, 3, 6, 8, 10, 13 and 31; it has 2, 5, 7, 9, 12 and 30.
        assert!(rt; ends(list, calls, Merged::Wrong(written), Merged::Wrong(calls)));
    }
    assert!(rt; ends(0, 4, Merged::Done(2), Merged::Wrong(4)));
    for list in 1..3usize {
        assert!(rt; ends(list, 3, Merged::Done(2), Merged::Wrong(3)));
    }
    for list in 0..3usize {
        assert!(rt; ends(list, 6, Merged::Done(2), Merged::Wrong(6)));
        assert!(rt; ends(list, 7, Merged::Done(2), Merged::Done(6)));
    }
    Ok(())
}
