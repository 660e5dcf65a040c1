//! Blocks of bits with few 1 bits.
ghost use Rattle.std.specs.Prelude.{◌≡◌, IfErr, IfOk, IfSome, List, SomeIff, ℕ};
ghost use Rattle.sequence_block.specs.SparseBlock.{bits_of, sparse_in, HoldsBits, HoldsOnes, IsSoundBlock};
ghost use Rattle.program_files.specs.Bits.{IsBitsReplyOne};
ghost use Rattle.program_files.specs.Sparse.{IsSparseOf};
ghost use Rattle.program_files.specs.Failure.{IsBlockFailure};

use crate::blocks::bits::end_of;
use crate::blocks::failure::Failure;
use crate::blocks::indices::zeros;
use crate::blocks::kind::Kind;
use crate::blocks::queryable::Queryable;
use crate::blocks::question::{Question, Word};
use crate::blocks::reply::Reply;
use crate::blocks::sequence::last_of;
use sequence_block::sparse::{SparseView, build, check, size};
use std::alloc::Global;

/// The block of the bits whose 1 bits are at these positions, up to the last 1 bit.
pub(crate) fn block_of_sparse(alloc: Global, positions: &[u64]) -> Result<Vec<u64>, Failure>
    ensures block { IfOk result (λ block. IsSparseOf positions.now block.items) }
    ensures failure { IfErr result (IsBlockFailure Kind.Sparse positions.now) }
{
    let Some(end) = end_of(positions) else {
        return Err(Failure::TooLarge);
    };
    let Some(room) = size(positions.len(), last_of(positions)) else {
        return Err(Failure::TooLarge);
    };
    let mut block = zeros(alloc, room)?;
    match build(positions, end as usize, block.as_mut_slice()) {
        Ok(()) => Ok(block),
        Err(_) => Err(Failure::TooLarge),
    }
}

/// The sparse bits in a block that is as it was written.
pub(crate) fn open_sparse(block: &[u64]) -> Option<SparseView<'_>>
    ensures opened { SomeIff result (IsSoundBlock block.now) (sparse_in block.now) }
    ensures holds { IfSome result HoldsBits }
{
    if check(block) {
        SparseView::open(block)
    } else {
        None
    }
}

/// What sparse bits answer to a question with one number.
fn reply_to_one(view: &SparseView<'_>, word: Word, number: usize) -> Reply
    ensures { (xs : List ℕ) → HoldsOnes xs view.now
        → IsBitsReplyOne (bits_of xs view.now) word number result }
{
    match word {
        Word::Get => Reply::of_bit(view.get_bit(number)),
        Word::Rank => Reply::of_index(view.rank(number)),
        Word::Rank0 => Reply::of_index(view.rank0(number)),
        Word::Select => Reply::of_index(view.select(number)),
        Word::Select0 => Reply::of_index(view.select0(number)),
        Word::Next => Reply::of_index(view.next(true, number)),
        Word::Next0 => Reply::of_index(view.next(false, number)),
        Word::Previous => Reply::of_index(view.previous(true, number)),
        Word::Previous0 => Reply::of_index(view.previous(false, number)),
        _ => Reply::BadQuestion,
    }
}

impl<'a> Queryable for SparseView<'a> {
    ghost use Rattle.std.specs.Prelude.{List, ℕ};
    ghost use Rattle.sequence_block.specs.SparseBlock.{bits_of, HoldsBits, HoldsOnes};
    ghost use Rattle.program_files.specs.Bits.{IsBitsReply};

    ghost holds = { HoldsBits };

    ghost replies = { λ view question reply. (xs : List ℕ) → HoldsOnes xs view
        → IsBitsReply (bits_of xs view) question reply };

    fn reply(&self, question: &Question) -> Reply {
        match *question {
            Question::One(word, number) => reply_to_one(self, word, number as usize),
            Question::Two(..) => Reply::BadQuestion,
        }
    }
}
