//! Tables that came with the words and may be wrong: checked, built anew where they are, and queried.
ghost use Rattle.std.specs.Prelude.{◌≡◌, ◌↔◌, true, false, IsNone, IsTrue};
ghost use Rattle.bitm.specs.Bits.{bits_of};
ghost use Rattle.bitm.specs.Count.{IsSelect};
ghost use Rattle.bitm.specs.Tables.{HasSizes, HasTables};
ghost use Rattle.bitm_view.specs.Sizes.{lists_of};

use bitm_view::{Answer, TablesView, build};

/// Makes the tables match the words, unless they do; false exactly where their lengths are not right.
pub fn repair(words: &[u64], upper: &mut [usize], lower: &mut [u64]) -> bool
    ensures done { IsTrue result ↔ HasSizes (lists_of words.now upper.old lower.old) }
    ensures sizes { IsTrue result → HasSizes (lists_of words.now upper.new lower.new) }
    ensures tables { IsTrue result → HasTables (lists_of words.now upper.new lower.new) }
{
    let Some(borrowed) = TablesView::over(words, &*upper, &*lower) else {
        return false;
    };
    if borrowed.check() {
        return true;
    }
    build(words, upper, lower).is_some()
}

/// The position of the 1 bit with `rank` 1 bits before it, by tables that may be wrong, and are right afterwards;
/// `None` where there is no such bit, or the lengths of the tables are wrong.
pub fn select(words: &[u64], upper: &mut [usize], lower: &mut [u64], rank: usize) -> Option<usize>
    ensures answer { HasSizes (lists_of words.now upper.old lower.old)
        → IsSelect (bits_of words.now) true rank result }
    ensures refused { ¬ (HasSizes (lists_of words.now upper.old lower.old)) → IsNone result }
{
    if !repair(words, &mut *upper, &mut *lower) {
        return None;
    }
    let Some(borrowed) = TablesView::over(words, &*upper, &*lower) else {
        unreachable!()
    };
    match borrowed.select::<1>(rank) {
        Answer::Found(position) => Some(position),
        Answer::Absent => None,
        // No right tables are called wrong.
        Answer::Wrong => unreachable!(),
    }
}
