//! How a list of answers is reported: by a status, and by the number of its codes.
ghost use Rattle.std.specs.Prelude.{◌≡◌, ◌≢◌, ◌-◌, ◌^◌, ◌↔◌, IsTrue};
ghost use Rattle.bitm_abi.specs.Lists.{AreAnswersCounted};
ghost use Rattle.bitm_abi.specs.Status.{IsFoundBelow};
ghost use Rattle.bitm_view.specs.Queries.{selected_by};

use crate::answer::{BAD_SIZE, OK};
use bitm_select::search::selected::{NO_ANSWER, WRONG_TABLES};
use bitm_tables::answer::Answer;

/// The number of codes in a list of answers.
#[repr(C)]
#[derive(Clone, Copy)]
pub struct ListCounts {
    /// The number of items that are `BITM_NO_ANSWER`.
    pub missing: u64,
    /// The number of items that are `BITM_WRONG_TABLES`.
    pub wrong: u64,
}

/// Counts the codes of a list of answers in one pass.
fn codes_in(answers: &[usize]) -> ListCounts
    ensures { AreAnswersCounted answers.now result }
{
    let mut missing = 0;
    let mut wrong = 0;
    for answer in answers {
        missing += (*answer == NO_ANSWER) as u64;
        wrong += (*answer == WRONG_TABLES) as u64;
    }
    ListCounts { missing, wrong }
}

/// Reports whether a list was answered, and counts the codes of its answers if it was.
#[inline(always)]
pub fn report_list(is_answered: bool, answers: &[usize], counts: &mut ListCounts) -> u32
    ensures ok { (result ≡ 0) ↔ IsTrue is_answered }
    ensures bad { result ≢ 0 → (result ≡ 2) × (counts.new ≡ counts.old) }
    ensures counts { result ≡ 0 → AreAnswersCounted answers.now counts.new }
{
    if !is_answered {
        return BAD_SIZE;
    }
    *counts = codes_in(answers);
    OK
}

/// An answer by the codes of lists.
#[inline(always)]
pub fn code_of(answer: Answer<usize>) -> usize
    ensures { IsFoundBelow (2 ^ 64 - 2) answer → selected_by result ≡ answer }
{
    match answer {
        Answer::Found(number) => number,
        Answer::Absent => NO_ANSWER,
        Answer::Wrong => WRONG_TABLES,
    }
}
