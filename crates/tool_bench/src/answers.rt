//! Answers of matrices and trees, compared with plain counts over the same numbers and degrees.
ghost use Rattle.std.specs.Prelude.{◌<◌};

use crate::index::Sampled;
use crate::numbers::numbers;
use crate::trees::degrees;
use louds::SampledLouds;
use std::alloc::{AllocError, Global};
use wavelet_matrix::{WaveletMatrix, all_fit};

/// How many answers were compared, and how many of them were wrong.
#[derive(Clone, Copy)]
pub(crate) struct Compared {
    pub(crate) answers: u64,
    pub(crate) wrong: u64,
}

impl Compared {
    fn nothing() -> Compared {
        Compared {
            answers: 0,
            wrong: 0,
        }
    }

    /// Adds an answer, and whether it is the one that was counted.
    fn see(&mut self, is_right: bool) {
        self.answers = self.answers.wrapping_add(1);
        self.wrong = self.wrong.wrapping_add(!is_right as u64);
    }
}

/// Queries a matrix of 16 bits for each number by its index, for how many equal numbers come before, and for its index.
fn compare_numbers(
    alloc: Global,
    matrix: &WaveletMatrix<Sampled, Sampled>,
    list: &[u64],
) -> Result<Compared, AllocError> {
    let mut compared = Compared::nothing();
    let mut counts = Vec::from_elem(alloc, 0usize, 1 << 16)?;
    for (position, number) in list.iter().enumerate() {
        let at = *number as usize;
        if at < counts.len() {
            let before = counts[at];
            compared.see(matrix.try_get(position) == Some(*number));
            compared.see(matrix.try_rank(*number, position) == Some(before));
            compared.see(matrix.try_select(*number, before) == Some(position));
            counts[at] = before.wrapping_add(1);
        }
    }
    Ok(compared)
}

/// Compares the answers of a matrix of 2^log2 numbers, three for each.
pub(crate) fn of_numbers(alloc: Global, log2: u32) -> Result<Compared, AllocError>
    requires { log2 < 40 }
{
    let drawn = numbers(alloc, 1 << log2, 16)?;
    let list = drawn.as_slice();
    if list.len() >= 1 << 40 || !all_fit(list, 16) {
        return Ok(Compared::nothing());
    }
    let matrix = WaveletMatrix::<Sampled, Sampled>::build(alloc, list, 16)?;
    compare_numbers(alloc, &matrix, list)
}

/// Queries a tree for child `k` of a node, which has to be `child`, and for the parent of the child and for `k`.
fn compare_child(
    tree: &SampledLouds,
    compared: &mut Compared,
    node: usize,
    k: usize,
    child: usize,
) {
    if node < tree.len() && child < tree.len() {
        compared.see(tree.child(node, k) == Some(child));
        compared.see(tree.parent(child) == Some(node));
        compared.see(tree.child_rank(child) == Some(k));
    }
}

/// Queries a tree for the degree of each node, and for each of its children.
fn compare_nodes(tree: &SampledLouds, degrees: &[usize]) -> Compared {
    let mut compared = Compared::nothing();
    let mut next = 1usize;
    for (node, degree) in degrees.iter().enumerate() {
        if node < tree.len() {
            compared.see(tree.degree(node) == *degree);
        }
        for k in 0..*degree {
            compare_child(tree, &mut compared, node, k, next);
            next = next.wrapping_add(1);
        }
    }
    compared
}

/// Compares the answers of a tree of 2^log2 nodes, four for each but the root.
pub(crate) fn of_nodes(alloc: Global, log2: u32) -> Result<Compared, AllocError>
    requires { log2 < 40 }
{
    let drawn = degrees(alloc, 1 << log2)?;
    match SampledLouds::build(alloc, drawn.as_slice()) {
        Ok(tree) => Ok(compare_nodes(&tree, drawn.as_slice())),
        Err(_) => Ok(Compared::nothing()),
    }
}
