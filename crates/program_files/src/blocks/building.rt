//! The block of the numbers in a text.
ghost use Rattle.std.specs.Prelude.{◌≡◌, ◌≢◌, IfErr, IfOk, None, OnOk};
ghost use Rattle.program_base.specs.List.{numbers_in_lines, wrong_line};
ghost use Rattle.program_files.specs.Building.{first_out, IsBlockOf, IsTextFailure, WroteBlock};
ghost use Rattle.program_files.specs.Failure.{IsBlockFailure};

use crate::blocks::bits::block_of_bits;
use crate::blocks::bytes::write_words;
use crate::blocks::failure::Failure;
use crate::blocks::kind::Kind;
use crate::blocks::matrix::block_of_matrix;
use crate::blocks::sequence::block_of_sequence;
use crate::blocks::sparse::block_of_sparse;
use crate::blocks::tree::block_of_tree;
use program_base::text::{first_fall, numbers};
use std::alloc::Global;
use std::io::Write;

/// The block of these numbers, of a kind.
fn block_of(alloc: Global, kind: Kind, numbers: &[u64]) -> Result<Vec<u64>, Failure>
    ensures block { IfOk result (λ block. IsBlockOf kind numbers.now block.items) }
    ensures failure { IfErr result (IsBlockFailure kind numbers.now) }
{
    match kind {
        Kind::Bits => block_of_bits(alloc, numbers),
        Kind::Sequence => block_of_sequence(alloc, numbers),
        Kind::Sparse => block_of_sparse(alloc, numbers),
        Kind::Matrix => block_of_matrix(alloc, numbers),
        Kind::Tree => block_of_tree(alloc, numbers),
    }
}

/// The first line whose number is out of the order that the kind needs, if there is one.
fn first_out(kind: Kind, text: &[u8]) -> Option<usize>
    ensures { result ≡ first_out kind text.now }
{
    first_fall(text, kind.order()?)
}

/// The block of the numbers in a text, of a kind.
#[tactic(auto, using(crate::proofs::lemmas::BuildingLemmas::line_named, crate::proofs::lemmas::BuildingLemmas::no_block))]
fn block_of_text(alloc: Global, kind: Kind, text: &[u8]) -> Result<Vec<u64>, Failure>
    ensures right { IfOk result (λ _. wrong_line text.now ≡ None) }
    ensures block { IfOk result (λ block. IsBlockOf kind (numbers_in_lines text.now) block.items) }
    ensures order { IfOk result (λ _. first_out kind text.now ≡ None) }
    ensures failure { IfErr result (IsTextFailure kind text.now) }
{
    let numbers = numbers(alloc, text)?;
    if let Some(line) = first_out(kind, text) {
        return Err(Failure::OutOfOrder(line));
    }
    block_of(alloc, kind, numbers.as_slice())
}

/// Writes the block of a kind of the numbers in a text, as bytes. The numbers are positions of 1 bits for `Bits` and
/// `Sparse`, whose bits end with the last 1 bit; the numbers of a list for `Sequence` and `Matrix`, where the numbers
/// of a matrix have the fewest bits that all of them fit; and the degrees of nodes, level by level, for `Tree`.
///
/// # Errors
/// `WrongLine` where a line neither is empty nor has just a number, with the first such line; else `OutOfOrder` where
/// the numbers of a `Sequence` fall or the numbers of `Sparse` do not rise, with the first line that does it;
/// `NotATree` where degrees form no tree; `TooLarge` where the numbers are too many or too large for a block;
/// `NoMemory` where memory was refused. Nothing is written then. `CannotWrite` where a write failed; what was written
/// before that stays.
/// # Cost
/// At most 64 passes over the numbers of a matrix to find their width, and the passes of the kind's `build` (evident
/// from the code).
///
/// ```
/// build(alloc, Kind::Matrix, b"3\n1\n4\n".as_slice(), &mut out);   // Ok(()): out has the bytes of the block
/// build(alloc, Kind::Sequence, b"3\n1\n".as_slice(), &mut out);    // Err(Failure::OutOfOrder(1))
/// ```
pub fn build<W: Write>(alloc: Global, kind: Kind, text: &[u8], out: &mut W) -> Result<(), Failure>
    ensures written { OnOk result (WroteBlock kind text.now (W.contents out.old) (W.contents out.new)) }
    ensures failure { IfErr result (IsTextFailure kind text.now) }
    ensures nothing { IfErr result (λ e. e ≢ Failure.CannotWrite → out.new ≡ out.old) }
{
    let block = block_of_text(alloc, kind, text)?;
    Ok(write_words(block.as_slice(), out)?)
}
