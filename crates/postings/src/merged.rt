//! How a merge of lists ends.

/// How a merge of lists in memory that may hold anything ended, and how many numbers were written.
#[derive(Clone, Copy, PartialEq, Eq, Debug)]
pub enum Merged {
    /// The numbers were written that there are, or as many of them as there is room for; no cursor answered `Wrong`.
    Done(usize),
    /// A list turned out wrong after these.
    Wrong(usize),
}
