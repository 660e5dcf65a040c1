//! How an export reports an answer: by a status, and by a number that is written only where the status is `OK`.
ghost use Rattle.std.specs.Prelude.{◌≡◌, if◌then◌else◌, MatchOption};
ghost use Rattle.bitm_abi.specs.Status.{truth_of, IsFoundBelow, IsReported};

use bitm_tables::answer::Answer;

/// The answer was written.
pub const OK: u32 = 0;

/// There is no such position, bit or number; nothing was written.
pub const NONE: u32 = 1;

/// A length is wrong; nothing was written.
pub const BAD_SIZE: u32 = 2;

/// The tables do not match the words; nothing was written.
pub const WRONG: u32 = 3;

/// A number is less than the one before it; nothing was written.
pub const UNSORTED: u32 = 4;

/// Writes the number that was found, if one was.
#[inline(always)]
pub fn report_option<T: Copy>(found: Option<T>, out: &mut T) -> u32
    ensures { MatchOption found ((result ≡ 1) × (out.new ≡ out.old))
        (λ n. (result ≡ 0) × (out.new ≡ n)) }
{
    match found {
        Some(number) => {
            *out = number;
            OK
        }
        None => NONE,
    }
}

/// Reports an answer by its status, and writes the number that was found.
#[inline(always)]
pub fn report<T: Copy>(answer: Answer<T>, out: &mut T) -> u32
    ensures { IsReported answer result out.old out.new }
{
    match answer {
        Answer::Found(found) => {
            *out = found;
            OK
        }
        Answer::Absent => NONE,
        Answer::Wrong => WRONG,
    }
}

/// Reports an answer of two numbers by its status, and writes the numbers that were found.
#[inline(always)]
pub fn report_both(answer: Answer<(usize, usize)>, first: &mut usize, second: &mut usize) -> u32
    ensures { IsReported answer result (first.old, second.old) (first.new, second.new) }
{
    let mut both = (*first, *second);
    let status = report(answer, &mut both);
    *first = both.0;
    *second = both.1;
    status
}

/// A truth as 0 or 1.
#[inline(always)]
pub fn as_number(answer: Answer<bool>) -> Answer<usize>
    ensures truth { IsFoundBelow 2 result }
    ensures answer { truth_of result ≡ answer }
{
    match answer {
        Answer::Found(is) => Answer::Found(is as usize),
        Answer::Absent => Answer::Absent,
        Answer::Wrong => Answer::Wrong,
    }
}

/// The status of a call by whether it wrote.
#[inline(always)]
pub fn done(is_done: bool) -> u32
    ensures { result ≡ (if is_done then 0 else 1) }
{
    if is_done { OK } else { NONE }
}
