//! Blocks of a monotone sequence.
ghost use Rattle.std.specs.Prelude.{◌≡◌, IfErr, IfOk, IfSome, List, SomeIff, ℕ};
ghost use Rattle.elias_fano.specs.SequenceParts.{AreParts, Holds};
ghost use Rattle.sequence_block.specs.Block.{sequence_in, IsBlockOf, IsSoundBlock};
ghost use Rattle.program_files.specs.Sequence.{IsCountBelow, IsNextNumber, IsPreviousNumber, IsSequenceReplyOne};
ghost use Rattle.program_files.specs.Failure.{IsBlockFailure};

use crate::blocks::failure::Failure;
use crate::blocks::indices::zeros;
use crate::blocks::kind::Kind;
use crate::blocks::queryable::Queryable;
use crate::blocks::question::{Question, Word};
use crate::blocks::reply::Reply;
use sequence_block::{Answer, SequenceView, build, check, size};
use std::alloc::Global;

/// The last number, and 0 where there is none.
pub(crate) fn last_of(numbers: &[u64]) -> u64 {
    match numbers {
        [.., last] => *last,
        [] => 0,
    }
}

/// The block of the sequence of these numbers.
pub(crate) fn block_of_sequence(alloc: Global, numbers: &[u64]) -> Result<Vec<u64>, Failure>
    ensures block { IfOk result (λ block. IsBlockOf numbers.now block.items) }
    ensures failure { IfErr result (IsBlockFailure Kind.Sequence numbers.now) }
{
    let Some(room) = size(numbers.len(), last_of(numbers)) else {
        return Err(Failure::TooLarge);
    };
    let mut block = zeros(alloc, room)?;
    match build(numbers, block.as_mut_slice()) {
        Ok(()) => Ok(block),
        Err(_) => Err(Failure::TooLarge),
    }
}

/// The sequence in a block that is as it was written.
pub(crate) fn open_sequence(block: &[u64]) -> Option<SequenceView<'_>>
    ensures opened { SomeIff result (IsSoundBlock block.now) (sequence_in block.now) }
    ensures holds { IfSome result AreParts }
{
    if check(block) {
        sequence_block::open(block)
    } else {
        None
    }
}

/// How many numbers come before the first that is at least `value`.
fn rank(view: &SequenceView<'_>, value: u64) -> Answer<usize>
    ensures { (xs : List ℕ) → Holds xs view.now → IsCountBelow xs value result }
{
    match view.first_at_least(value) {
        Answer::Found(index) => Answer::Found(index),
        Answer::Absent => Answer::Found(view.len()),
        Answer::Wrong => Answer::Wrong,
    }
}

/// The first number that is at least `value`.
fn next(view: &SequenceView<'_>, value: u64) -> Answer<u64>
    ensures { (xs : List ℕ) → Holds xs view.now → IsNextNumber xs value result }
{
    match view.first_at_least(value) {
        Answer::Found(index) => view.get(index),
        Answer::Absent => Answer::Absent,
        Answer::Wrong => Answer::Wrong,
    }
}

/// The last number that is at most `value`.
fn previous(view: &SequenceView<'_>, value: u64) -> Answer<u64>
    ensures { (xs : List ℕ) → Holds xs view.now → IsPreviousNumber xs value result }
{
    match view.last_at_most(value) {
        Answer::Found(index) => view.get(index),
        Answer::Absent => Answer::Absent,
        Answer::Wrong => Answer::Wrong,
    }
}

/// What a sequence answers to a question with one number.
fn reply_to_one(view: &SequenceView<'_>, word: Word, number: u64) -> Reply
    ensures { (xs : List ℕ) → Holds xs view.now → IsSequenceReplyOne xs word number result }
{
    match word {
        Word::Get => Reply::of_number(view.get(number as usize)),
        Word::Rank => Reply::of_index(rank(view, number)),
        Word::Next => Reply::of_number(next(view, number)),
        Word::Previous => Reply::of_number(previous(view, number)),
        _ => Reply::BadQuestion,
    }
}

impl<'a> Queryable for SequenceView<'a> {
    ghost use Rattle.std.specs.Prelude.{List, ℕ};
    ghost use Rattle.elias_fano.specs.SequenceParts.{AreParts, Holds};
    ghost use Rattle.program_files.specs.Sequence.{IsSequenceReply};

    ghost holds = { AreParts };

    ghost replies = { λ view question reply. (xs : List ℕ) → Holds xs view
        → IsSequenceReply xs question reply };

    fn reply(&self, question: &Question) -> Reply {
        match *question {
            Question::One(word, number) => reply_to_one(self, word, number),
            Question::Two(..) => Reply::BadQuestion,
        }
    }
}
