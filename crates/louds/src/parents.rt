//! A tree from the list of its nodes' parents.
ghost use Rattle.std.specs.Prelude.{◌≡◌, ◌+◌, ◌^◌, ◌<◌, ◌≤◌, ◌↔◌, IfOk, IsErrOf, IsTrue, length};
ghost use Rattle.louds.specs.Parents.{AreParents, HasParents};
ghost use Rattle.louds.specs.Tree.{IsTree};

use crate::error::LoudsError;
use crate::tree::{Louds, TOO_MANY};
use bitm_strategies::{Select0ForRank101111, SelectForRank101111};
use std::alloc::{AllocError, Global};

/// Whether these are the parents of the nodes from 1 on of some tree: each is a node before its child, and none is less
/// than the parent of the node before.
pub fn are_parents(parents: &[usize]) -> bool
    ensures { IsTrue result ↔ AreParents parents.now }
{
    let mut last = 0;
    for (i, parent) in parents.iter().enumerate() {
        if *parent < last || i < *parent {
            return false;
        }
        last = *parent;
    }
    true
}

/// How many children each node has.
///
/// # Conditions
/// They are the parents of a tree, and fewer than 2^60.
/// # Errors
/// `AllocError` if memory was refused.
fn degrees_for(alloc: Global, parents: &[usize]) -> Result<Vec<usize>, AllocError>
    requires parents { AreParents parents.now }
    requires short { length parents.now < 2 ^ 60 }
    ensures parents { IfOk result (λ made. HasParents made.items parents.now) }
    ensures tree { IfOk result (λ made. IsTree made.items) }
{
    let mut degrees = vec![in alloc; 0usize; parents.len() + 1]?;
    for parent in parents {
        degrees[*parent] += 1;
    }
    Ok(degrees)
}

impl<S: SelectForRank101111, S0: Select0ForRank101111> Louds<S, S0> {
    /// The tree whose node `i + 1` is a child of node `parents[i]`; the parents stay as they are.
    ///
    /// # Errors
    /// `TooLong` exactly where there are 2^60 - 1 parents or more; else `NotATree` exactly where they are not the
    /// parents of nodes level by level (`are_parents` tests it); else `OutOfMemory` where memory was refused; nothing
    /// is left.
    /// # Cost
    /// Two passes over the parents, with one number kept for each node, and `build`.
    pub fn from_parents(alloc: Global, parents: &[usize]) -> Result<Self, LoudsError>
        ensures ok { IfOk result (λ made. HasParents made.degrees parents.now) }
        ensures too_long { IsErrOf result LoudsError.TooLong ↔ (2 ^ 60 ≤ length parents.now + 1) }
        ensures not_a_tree { IsErrOf result LoudsError.NotATree
            ↔ ((length parents.now + 1 < 2 ^ 60) × (¬ (AreParents parents.now))) }
    {
        if parents.len() >= TOO_MANY - 1 {
            return Err(LoudsError::TooLong);
        }
        if !are_parents(parents) {
            return Err(LoudsError::NotATree);
        }
        let degrees = degrees_for(alloc, parents)?;
        Louds::build(alloc, degrees.as_slice())
    }
}
