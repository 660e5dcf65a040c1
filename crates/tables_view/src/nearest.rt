//! The nearest bit on either side of a position, as a rank and a selection answer it over any tables.
ghost use Rattle.tables_view.specs.Nearest.{IsOnlyBefore, IsOnlyFrom};

use bitm_tables::answer::Answer;

/// A selected position that is not before `from`; one before it shows that the tables are wrong.
///
/// ```
/// only_from(Answer::Found(7), 3);   // Found(7)
/// only_from(Answer::Found(2), 3);   // Wrong
/// ```
#[inline(always)]
pub fn only_from(selected: Answer<usize>, from: usize) -> Answer<usize>
    ensures { IsOnlyFrom from selected result }
{
    match selected {
        Answer::Found(position) => {
            if position < from {
                Answer::Wrong
            } else {
                Answer::Found(position)
            }
        }
        Answer::Absent => Answer::Absent,
        Answer::Wrong => Answer::Wrong,
    }
}

/// A selected position that is before `end`; one after it, and none, show that the tables are wrong.
///
/// ```
/// only_before(Answer::Found(2), 3);   // Found(2)
/// only_before(Answer::Absent, 3);     // Wrong
/// ```
#[inline(always)]
pub fn only_before(selected: Answer<usize>, end: usize) -> Answer<usize>
    ensures { IsOnlyBefore end selected result }
{
    match selected {
        Answer::Found(position) => {
            if position < end {
                Answer::Found(position)
            } else {
                Answer::Wrong
            }
        }
        Answer::Absent => Answer::Wrong,
        Answer::Wrong => Answer::Wrong,
    }
}
