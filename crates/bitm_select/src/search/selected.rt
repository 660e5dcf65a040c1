//! The answer of a selection, as a value and as a code in a list of answers.
ghost use Rattle.std.specs.Prelude.{◌≡◌};
ghost use Rattle.bitm_select.specs.Answers.{position_in, list_code};

use bitm_tables::answer::Answer;

/// The position that a selection found, if it found one.
#[inline(always)]
pub fn found(selected: Answer<usize>) -> Option<usize>
    ensures { result ≡ position_in selected }
{
    match selected {
        Answer::Found(position) => Some(position),
        Answer::Absent | Answer::Wrong => None,
    }
}

/// In a list of answers: there is no such position or bit.
pub const NO_ANSWER: usize = usize::MAX;

/// In a list of answers: the tables do not match the words.
pub const WRONG_TABLES: usize = usize::MAX - 1;

/// The code of a selection's answer: the position, `NO_ANSWER` or `WRONG_TABLES`.
#[inline(always)]
pub fn list_code(selected: Answer<usize>) -> usize
    ensures { result ≡ list_code selected }
{
    match selected {
        Answer::Found(position) => position,
        Answer::Absent => NO_ANSWER,
        Answer::Wrong => WRONG_TABLES,
    }
}
