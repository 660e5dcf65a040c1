//! Ways up and down from nodes.
ghost use Rattle.std.specs.Prelude.{◌≡◌, ◌<◌, ◌≤◌, ◌↔◌, IsTrue, length};
ghost use Rattle.louds.specs.Above.{AreBelow, IsAbove, IsAncestor, IsClimbed, IsLowestCommon};

use crate::tree::Louds;
use bitm_strategies::{Select0ForRank101111, SelectForRank101111};
use std::ops::Range;

impl<S: SelectForRank101111, S0: Select0ForRank101111> Louds<S, S0> {
    /// How many levels a node stands below the root: 0 for the root, else one more than its parent.
    ///
    /// # Conditions
    /// There is such a node.
    /// # Cost
    /// One selection for each level.
    pub fn depth(&self, node: usize) -> usize
        requires { node < length self.now.degrees }
        ensures { IsAbove self.now.degrees result 0 node }
    {
        let mut at = node;
        let mut levels = 0;
        while let Some(parent) = self.parent(at) {
            at = parent;
            levels += 1;
        }
        levels
    }

    /// The first node on the way up from `node` whose number is at most `bound`.
    ///
    /// # Conditions
    /// There is such a node `node`.
    fn climb(&self, node: usize, bound: usize) -> usize
        requires { node < length self.now.degrees }
        ensures climbed { IsClimbed self.now.degrees node bound result }
        ensures lower { result ≤ node }
    {
        let mut at = node;
        while at > bound {
            match self.parent(at) {
                Some(parent) => at = parent,
                None => unreachable!(),
            }
        }
        at
    }

    /// Whether `above` is `node`, its parent, the parent of that, and so on.
    ///
    /// # Conditions
    /// There is such a node `node`.
    /// # Cost
    /// At most one selection for each level.
    pub fn is_ancestor(&self, above: usize, node: usize) -> bool
        requires { node < length self.now.degrees }
        ensures { IsTrue result ↔ IsAncestor self.now.degrees above node }
    {
        let _nodes = self.len();
        self.climb(node, above) == above
    }

    /// The lowest node that each of the two is, or stands below: each other such node stands above this one.
    ///
    /// # Conditions
    /// There are such nodes.
    /// # Cost
    /// At most one selection for each level of both.
    pub fn lowest_common_ancestor(&self, one: usize, other: usize) -> usize
        requires one { one < length self.now.degrees }
        requires other { other < length self.now.degrees }
        ensures { IsLowestCommon self.now.degrees one other result }
    {
        let _nodes = self.len();
        let mut low = one;
        let mut high = other;
        while low != high {
            if low > high {
                low = self.climb(low, high);
            } else {
                high = self.climb(high, low);
            }
        }
        low
    }

    /// The children of all nodes of a range, which stand side by side too; so from a node on, the levels below it.
    ///
    /// # Conditions
    /// The range ends neither before it begins nor past the last node.
    /// # Cost
    /// Two selections.
    pub fn children_of_range(&self, nodes: Range<usize>) -> Range<usize>
        requires order { nodes.start ≤ nodes.end }
        requires inside { nodes.end ≤ length self.now.degrees }
        ensures below { AreBelow self.now.degrees nodes.start nodes.end result.start result.end }
        ensures order { result.start ≤ result.end }
        ensures inside { result.end ≤ length self.now.degrees }
    {
        let _nodes = self.len();
        let start = self.zero(nodes.start);
        let end = self.zero(nodes.end);
        start - nodes.start..end - nodes.end
    }
}
