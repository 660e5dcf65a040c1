//! Nodes that carry their positions, so that a walk selects once where it goes. What is read from a node's position on,
//! the clauses of `children` count; what a selection by the tree's own strategy reads, no clause here does.
ghost use Rattle.std.specs.Prelude.{◌≡◌, ◌==◌, ◌<◌, length, slice_index};
ghost use Rattle.louds.specs.Node.{IsNode, MatchesChildNode, MatchesNextSiblingNode, MatchesParentNode};
ghost use Rattle.louds.specs.Tree.{AreChildren, IsChild};

use crate::children::{children_after_by, degree_after_by, ends_after_on};
use crate::queries::parent_of_by;
use crate::tree::Louds;
use bitm_strategies::{Select0ForRank101111, SelectForRank101111};
use bitm_tables::answer::Answer;
use std::marker::Model;
use std::ops::Range;

/// A node of a tree, with its position among the bits: what a walk carries, so that degrees, leaves and the numbers of
/// children need no selection. It is a node of the tree that answered it, and of each tree with these degrees.
#[derive(Clone, Copy, Debug, PartialEq, Eq)]
pub struct Node {
    pub(crate) number: usize,
    // The position of the zero before its ones.
    pub(crate) position: usize,
}

impl Model for Node {
    ghost use Rattle.louds.specs.Node.{NodeValue};

    ghost Value = { NodeValue };

    ghost view = { λ v. record { number = v.number; position = v.position } };

    ghost inverse = { λ v. record { number = v.number; position = v.position } };
}

impl Node {
    /// Its number, level by level from the root, 0.
    #[inline(always)]
    pub fn number(&self) -> usize
        ensures { result ≡ self.now.number }
    {
        self.number
    }
}

impl<S: SelectForRank101111, S0: Select0ForRank101111> Louds<S, S0> {
    /// The root.
    ///
    /// # Cost
    /// Nothing is read.
    #[inline(always)]
    pub fn root(&self) -> Node
        ensures node { IsNode self.now.degrees result }
        ensures root { result.number ≡ 0 }
    {
        let _nodes = self.len();
        Node {
            number: 0,
            position: 1,
        }
    }

    /// The node of a number.
    ///
    /// # Conditions
    /// There is such a node.
    /// # Cost
    /// One selection.
    #[inline]
    pub fn node(&self, number: usize) -> Node
        requires { number < length self.now.degrees }
        ensures node { IsNode self.now.degrees result }
        ensures number { result.number ≡ number }
    {
        Node {
            number,
            position: self.zero(number),
        }
    }

    /// How many children a node has: `degree` without its selection.
    ///
    /// # Conditions
    /// It is a node of this tree.
    /// # Cost
    /// Two words; a selection where it has more than 64 children.
    #[inline]
    pub fn degree_of(&self, node: Node) -> usize
        requires { IsNode self.now.degrees node }
        ensures { result ≡ slice_index self.now.degrees node.number }
    {
        let (index, mut probe) = self.parts();
        match degree_after_by(index, &mut probe, self.len(), node.number, node.position) {
            Answer::Found(degree) => degree,
            _ => unreachable!(),
        }
    }

    /// Whether a node has no children: `is_leaf` without its selection.
    ///
    /// # Conditions
    /// It is a node of this tree.
    /// # Cost
    /// One word of the bits.
    #[inline]
    pub fn is_leaf_of(&self, node: Node) -> bool
        requires { IsNode self.now.degrees node }
        ensures { result ≡ (slice_index self.now.degrees node.number == 0) }
    {
        ends_after_on(&mut self.probe(), self.len(), node.number, node.position)
    }

    /// The numbers of the children of a node, in their order: `children` without its selection.
    ///
    /// # Conditions
    /// It is a node of this tree.
    /// # Cost
    /// Two words; a selection where it has more than 64 children.
    #[inline]
    pub fn children_of(&self, node: Node) -> Range<usize>
        requires { IsNode self.now.degrees node }
        ensures { AreChildren self.now.degrees node.number result.start result.end }
    {
        let (index, mut probe) = self.parts();
        match children_after_by(index, &mut probe, self.len(), node.number, node.position) {
            Answer::Found((first, past)) => first..past,
            _ => unreachable!(),
        }
    }

    /// Child `k` of a node that has more than `k` children: `child_of` without its test.
    ///
    /// # Conditions
    /// It is a node of this tree, and has more than `k` children.
    /// # Cost
    /// One selection, of the child's position.
    #[inline(always)]
    pub fn nth_child_of(&self, node: Node, k: usize) -> Node
        requires node { IsNode self.now.degrees node }
        requires some { k < slice_index self.now.degrees node.number }
        ensures node { IsNode self.now.degrees result }
        ensures child { IsChild self.now.degrees node.number k result.number }
    {
        let _nodes = self.len();
        self.node(node.position + k - node.number)
    }

    /// The first child of a node; `None` exactly where it has none.
    ///
    /// # Conditions
    /// It is a node of this tree.
    /// # Cost
    /// One word, and one selection, of the child's position.
    #[inline(always)]
    pub fn first_child_of(&self, node: Node) -> Option<Node>
        requires { IsNode self.now.degrees node }
        ensures { MatchesChildNode self.now.degrees node.number 0 result }
    {
        if self.is_leaf_of(node) {
            None
        } else {
            Some(self.nth_child_of(node, 0))
        }
    }

    /// Child `k` of a node; `None` exactly where it has no more than `k` children.
    ///
    /// # Conditions
    /// It is a node of this tree.
    /// # Cost
    /// Two words, and one selection, of the child's position; two selections where the node has more than 64 children.
    #[inline]
    pub fn child_of(&self, node: Node, k: usize) -> Option<Node>
        requires { IsNode self.now.degrees node }
        ensures { MatchesChildNode self.now.degrees node.number k result }
    {
        if k < self.degree_of(node) {
            Some(self.nth_child_of(node, k))
        } else {
            None
        }
    }

    /// The parent of a node; `None` exactly where it is the root.
    ///
    /// # Conditions
    /// It is a node of this tree.
    /// # Cost
    /// One selection and two words; two selections where 64 children of the parent or more stand before the node.
    #[inline]
    pub fn parent_of(&self, node: Node) -> Option<Node>
        requires { IsNode self.now.degrees node }
        ensures { MatchesParentNode self.now.degrees node.number result }
    {
        let (index, mut probe) = self.parts();
        parent_of_by(index, &mut probe, self.len(), node.number).right()
    }

    /// The next child of a node's parent; `None` exactly where the node is the last child or the root.
    ///
    /// # Conditions
    /// It is a node of this tree.
    /// # Cost
    /// One selection and three words; two selections where it has more than 64 children.
    #[inline]
    pub fn next_sibling_of(&self, node: Node) -> Option<Node>
        requires { IsNode self.now.degrees node }
        ensures { MatchesNextSiblingNode self.now.degrees node.number result }
    {
        let _nodes = self.len();
        match self.next_sibling(node.number) {
            Some(number) => Some(Node {
                number,
                position: self.end(node.number, node.position),
            }),
            None => None,
        }
    }
}
