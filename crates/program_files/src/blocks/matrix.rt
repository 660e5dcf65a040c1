//! Blocks of a wavelet matrix: numbers in any order.
ghost use Rattle.std.specs.Prelude.{◌≡◌, IfErr, IfOk, IfSome, SomeIff};
ghost use Rattle.matrix_block.specs.Block.{matrix_in, HasHints, HoldsMatrix, IsSoundBlock};
ghost use Rattle.program_files.specs.Matrix.{HasLeastWidth, IsMatrixBlockOf};
ghost use Rattle.program_files.specs.Failure.{IsBlockFailure};

use crate::blocks::failure::Failure;
use crate::blocks::kind::Kind;
use crate::blocks::queryable::Queryable;
use crate::blocks::question::{Question, Word};
use crate::blocks::reply::Reply;
use matrix_block::{MatrixView, build, size};
use matrix_levels::all_fit;
use std::alloc::Global;

/// The bits that a number has at most, at least 1.
fn least_width(numbers: &[u64]) -> u8
    ensures { HasLeastWidth numbers.now result }
{
    let mut width = 1;
    while width < 64 && !all_fit(numbers, width) {
        width += 1;
    }
    width
}

/// The block of a matrix of these numbers.
pub(crate) fn block_of_matrix(alloc: Global, numbers: &[u64]) -> Result<Vec<u64>, Failure>
    ensures block { IfOk result (λ block. IsMatrixBlockOf numbers.now block.items) }
    ensures failure { IfErr result (IsBlockFailure Kind.Matrix numbers.now) }
{
    let width = least_width(numbers);
    let Some(words) = size(numbers.len(), width, false, false) else {
        return Err(Failure::TooLarge);
    };
    let mut scratch = Vec::new(alloc);
    scratch.resize(2 * numbers.len(), 0)?;
    let mut block = Vec::new(alloc);
    block.resize(words, 0)?;
    match build(
        numbers,
        width,
        false,
        false,
        scratch.as_mut_slice(),
        block.as_mut_slice(),
    ) {
        Ok(()) => Ok(block),
        Err(_) => Err(Failure::TooLarge),
    }
}

/// The matrix in a block that is as it was written.
pub(crate) fn open_matrix(block: &[u64]) -> Option<MatrixView<'_>>
    ensures opened { SomeIff result (IsSoundBlock block.now) (matrix_in block.now) }
    ensures holds { IfSome result (λ matrix. HoldsMatrix matrix × HasHints matrix) }
{
    MatrixView::open_checked(block)
}

impl<'a> Queryable for MatrixView<'a> {
    ghost use Rattle.matrix_block.specs.Block.{items_in, HasHints, HoldsMatrix};
    ghost use Rattle.program_files.specs.Matrix.{IsNumbersReply};

    ghost holds = { λ matrix. HoldsMatrix matrix × HasHints matrix };

    ghost replies = { λ matrix. IsNumbersReply (items_in matrix) };

    fn reply(&self, question: &Question) -> Reply {
        match *question {
            Question::One(Word::Get, index) => Reply::of_number(self.get(index as usize)),
            Question::Two(Word::Rank, number, index) => {
                Reply::of_index(self.rank(number, index as usize))
            }
            Question::Two(Word::Select, number, before) => {
                Reply::of_index(self.select(number, before as usize))
            }
            _ => Reply::BadQuestion,
        }
    }
}
