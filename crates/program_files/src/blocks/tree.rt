//! Blocks of a tree.
ghost use Rattle.std.specs.Prelude.{IfErr, IfOk, IfSome, SomeIff};
ghost use Rattle.louds.specs.Counted.{degrees_in};
ghost use Rattle.tree_block.specs.Block.{tree_in, HoldsIn, HoldsTree, IsBlockOf};
ghost use Rattle.program_files.specs.Tree.{IsTreeReplyOne, IsTreeReplyTwo};
ghost use Rattle.program_files.specs.Failure.{IsBlockFailure};

use crate::blocks::failure::Failure;
use crate::blocks::indices::{indices_of, zeros};
use crate::blocks::kind::Kind;
use crate::blocks::queryable::Queryable;
use crate::blocks::question::{Question, Word};
use crate::blocks::reply::Reply;
use std::alloc::Global;
use tree_block::{BuildError, LoudsView, build, size};

/// The block of the tree of these degrees.
pub(crate) fn block_of_tree(alloc: Global, degrees: &[u64]) -> Result<Vec<u64>, Failure>
    ensures block { IfOk result (λ block. IsBlockOf degrees.now block.items) }
    ensures failure { IfErr result (IsBlockFailure Kind.Tree degrees.now) }
{
    if degrees.len() >= 1 << 60 {
        return Err(Failure::TooLarge);
    }
    let degrees = indices_of(alloc, degrees)?;
    let mut block = zeros(alloc, size(degrees.len()))?;
    match build(degrees.as_slice(), block.as_mut_slice()) {
        Ok(()) => Ok(block),
        Err(BuildError::NotATree) => Err(Failure::NotATree),
        Err(_) => Err(Failure::TooLarge),
    }
}

/// The tree in a block that is as it was written.
pub(crate) fn open_tree(block: &[u64]) -> Option<LoudsView<'_>>
    ensures opened { SomeIff result (HoldsTree block.now) (tree_in block.now) }
    ensures holds { IfSome result (λ view. HoldsIn view) }
{
    LoudsView::open_checked(block)
}

/// What a tree answers to a question with one number.
fn reply_to_one(view: &LoudsView<'_>, word: Word, node: usize) -> Reply
    requires { HoldsIn view.now }
    ensures { IsTreeReplyOne (degrees_in view.now.len view.now.lists) word node result }
{
    match word {
        Word::Parent => Reply::of_index(view.parent(node)),
        Word::Degree => Reply::of_index(view.degree(node)),
        Word::ChildRank => Reply::of_index(view.child_rank(node)),
        Word::NextSibling => Reply::of_index(view.next_sibling(node)),
        Word::PreviousSibling => Reply::of_index(view.previous_sibling(node)),
        _ => Reply::BadQuestion,
    }
}

/// What a tree answers to a question with two numbers.
fn reply_to_two(view: &LoudsView<'_>, word: Word, node: usize, k: usize) -> Reply
    requires { HoldsIn view.now }
    ensures { IsTreeReplyTwo (degrees_in view.now.len view.now.lists) word node k result }
{
    match word {
        Word::Child => Reply::of_index(view.child(node, k)),
        _ => Reply::BadQuestion,
    }
}

impl<'a> Queryable for LoudsView<'a> {
    ghost use Rattle.louds.specs.Counted.{degrees_in};
    ghost use Rattle.tree_block.specs.Block.{HoldsIn};
    ghost use Rattle.program_files.specs.Tree.{IsTreeReply};

    ghost holds = { HoldsIn };

    ghost replies = { λ view. IsTreeReply (degrees_in view.len view.lists) };

    fn reply(&self, question: &Question) -> Reply {
        match *question {
            Question::One(word, node) => reply_to_one(self, word, node as usize),
            Question::Two(word, node, k) => reply_to_two(self, word, node as usize, k as usize),
        }
    }
}
