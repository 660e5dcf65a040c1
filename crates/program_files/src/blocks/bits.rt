//! Blocks of bits with their index.
ghost use Rattle.std.specs.Prelude.{◌≡◌, ◌≤◌, ◌<◌, ◌*◌, All, IfErr, IfOk, IfSome, SomeIff, length};
ghost use Rattle.bit_lists.specs.Bits.{bits_of};
ghost use Rattle.bitm_view.specs.BitsBlock.{bits_in_block, IsSoundBlock};
ghost use Rattle.bitm_view.specs.Cut.{bits_of_cut, Cut};
ghost use Rattle.bitm_select.specs.Tables.{HasTables};
ghost use Rattle.sparse_bits.specs.Answers.{IsBitOf};
ghost use Rattle.program_files.specs.Bits.{HasEnd, HasOnesAt, IsBitsOf, IsBitsReply, IsBitsReplyOne};
ghost use Rattle.program_files.specs.Failure.{IsBlockFailure};

use crate::blocks::failure::Failure;
use crate::blocks::indices::{indices_of, zeros};
use crate::blocks::kind::Kind;
use crate::blocks::queryable::Queryable;
use crate::blocks::question::{Question, Word};
use crate::blocks::reply::Reply;
use bit_words::slices::set_listed_in;
use bitm::words;
use bitm_view::bits::{Answer, IndexView, build, check, size};
use std::alloc::{AllocError, Global};

/// One more than the greatest number, and 0 where there is none; `None` where that is no `u64`.
#[tactic(auto, using(crate::proofs::lemmas::BitsLemmas::end_more))]
pub(crate) fn end_of(numbers: &[u64]) -> Option<u64>
    ensures { IfSome result (HasEnd numbers.now) }
{
    let mut end = 0u64;
    for number in numbers {
        end = end.max(number.checked_add(1)?);
    }
    Some(end)
}

/// Words whose 1 bits are at these positions.
fn words_with(alloc: Global, positions: &[u64], len: usize) -> Result<Vec<u64>, AllocError>
    requires { All (λ x. x < len) positions.now }
    ensures ones { IfOk result (λ words. HasOnesAt positions.now (bits_of words.items)) }
    ensures long { IfOk result (λ words. len ≤ 64 * length words.items) }
{
    let positions = indices_of(alloc, positions)?;
    let mut words = zeros(alloc, len.div_ceil(64))?;
    set_listed_in(words.as_mut_slice(), len, true, positions.as_slice());
    Ok(words)
}

/// The block of the bits whose 1 bits are at these positions, in any order, up to the last 1 bit.
pub(crate) fn block_of_bits(alloc: Global, positions: &[u64]) -> Result<Vec<u64>, Failure>
    ensures block { IfOk result (λ block. IsBitsOf positions.now block.items) }
    ensures failure { IfErr result (IsBlockFailure Kind.Bits positions.now) }
{
    let Some(end) = end_of(positions) else {
        return Err(Failure::TooLarge);
    };
    let len = end as usize;
    let Some(room) = size(len) else {
        return Err(Failure::TooLarge);
    };
    let words = words_with(alloc, positions, len)?;
    let mut block = zeros(alloc, room)?;
    match build(words.as_slice(), len, block.as_mut_slice()) {
        Ok(()) => Ok(block),
        Err(_) => Err(Failure::TooLarge),
    }
}

/// The bits in a block that is as it was written.
pub(crate) fn open_bits(block: &[u64]) -> Option<IndexView<'_>>
    ensures opened { SomeIff result (IsSoundBlock block.now) (bits_in_block block.now) }
    ensures holds { IfSome result (λ view. HasTables view.lists) }
{
    if check(block) {
        bitm_view::bits::open(block)
    } else {
        None
    }
}

/// The bit at a position.
fn bit_at(view: &IndexView<'_>, position: usize) -> Answer<bool>
    requires { HasTables view.now.lists }
    ensures { IsBitOf (bits_of_cut view.now) position result }
{
    let Some(bit) = words::try_get_bit(view.tables().words(), position) else {
        return Answer::Absent;
    };
    match view.rank::<1>(position + 1) {
        Answer::Found(_) => Answer::Found(bit),
        Answer::Absent => Answer::Absent,
        Answer::Wrong => Answer::Wrong,
    }
}

/// What bits answer to a question with one number.
fn reply_to_one(view: &IndexView<'_>, word: Word, number: usize) -> Reply
    requires { HasTables view.now.lists }
    ensures { IsBitsReplyOne (bits_of_cut view.now) word number result }
{
    match word {
        Word::Get => Reply::of_bit(bit_at(view, number)),
        Word::Rank => Reply::of_index(view.rank::<1>(number)),
        Word::Rank0 => Reply::of_index(view.rank::<0>(number)),
        Word::Select => Reply::of_index(view.select::<1>(number)),
        Word::Select0 => Reply::of_index(view.select::<0>(number)),
        Word::Next => Reply::of_index(view.next::<1>(number)),
        Word::Next0 => Reply::of_index(view.next::<0>(number)),
        Word::Previous => Reply::of_index(view.previous::<1>(number)),
        Word::Previous0 => Reply::of_index(view.previous::<0>(number)),
        _ => Reply::BadQuestion,
    }
}

impl<'a> Queryable for IndexView<'a> {
    ghost use Rattle.bitm_select.specs.Tables.{HasTables};
    ghost use Rattle.bitm_view.specs.Cut.{bits_of_cut};
    ghost use Rattle.program_files.specs.Bits.{IsBitsReply};

    ghost holds = { λ view. HasTables view.lists };

    ghost replies = { λ view. IsBitsReply (bits_of_cut view) };

    fn reply(&self, question: &Question) -> Reply {
        match *question {
            Question::One(word, number) => reply_to_one(self, word, number as usize),
            Question::Two(..) => Reply::BadQuestion,
        }
    }
}
