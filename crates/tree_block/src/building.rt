//! The block of a tree, written into the caller's memory.
ghost use Rattle.std.specs.Prelude.{◌≡◌, ◌≢◌, ◌^◌, ◌<◌, ◌≤◌, ◌↔◌, IfErr, IfOk, IsErrOf, IsOk, length, replicate};
ghost use Rattle.bitm_block.specs.Layout.{end_of};
ghost use Rattle.bitm_block.specs.Written.{IsSealed};
ghost use Rattle.louds.specs.Held.{tree_words};
ghost use Rattle.louds.specs.Tree.{IsTree};
ghost use Rattle.tree_block.specs.Block.{hints_of_nodes, lower_of_nodes, tree_head, tree_sections, upper_of_nodes};
ghost use Rattle.tree_block.specs.Block.{CanHold, IsBlockOf, IsTreeOf, StandsIn};

use crate::error::BuildError;
use crate::sections::{Lens, size, tree_head, tree_sections};
use bitm_block::{aligned, seal_sized};
use bitm_selection::write_hints;
use block_tables::{fill_tables, probe};
use louds::{is_tree, write_degrees};
use tables_view::clear;

/// Writes the bits of a tree, where all bits are 0, their tables and their hints: the sections of its block, which a
/// block of another kind may have too.
///
/// # Conditions
/// There are fewer than 2^60 degrees, they form a tree, and words, tables and hints have the lengths that these need
/// (`Lens`).
/// # Cost
/// One pass over the degrees, one over the words, and one selection for each hint (evident from the code).
///
/// ```
/// // words: 0b001001101, from the lowest bit on 10 110 0 10 0
/// write_tree(&[2, 0, 1, 0], words, upper, lower, hints);
/// ```
pub fn write_tree(
    degrees: &[usize],
    words: &mut [u64],
    upper: &mut [u64],
    lower: &mut [u64],
    hints: &mut [u64],
)
    requires short { length degrees.now < 2 ^ 60 }
    requires tree { IsTree degrees.now }
    requires clear { words.old ≡ replicate (tree_words (length degrees.now)) 0 }
    requires upper { length upper.old ≡ upper_of_nodes (length degrees.now) }
    requires lower { length lower.old ≡ lower_of_nodes (length degrees.now) }
    requires hints { length hints.old ≡ hints_of_nodes (length degrees.now) }
    ensures { IsTreeOf degrees.now words.new upper.new lower.new hints.new }
{
    write_degrees(&mut *words, degrees);
    fill_tables(&*words, &mut *upper, &mut *lower);
    write_hints(&mut probe(&*words, &*upper, &*lower), degrees.len(), hints);
}

/// Writes the sections of a tree where its block has them.
fn write_parts(degrees: &[usize], block: &mut [u64])
    requires { CanHold degrees.now block.old }
    ensures { StandsIn degrees.now block.new }
{
    let lens = Lens::of(degrees.len());
    clear(&mut *block);
    let (_head, rest) = block.split_at_mut(32);
    let (room, rest) = rest.split_at_mut(aligned(lens.words));
    let (words, _gap) = room.split_at_mut(lens.words);
    let (room, rest) = rest.split_at_mut(aligned(lens.upper));
    let (upper, _gap) = room.split_at_mut(lens.upper);
    let (room, rest) = rest.split_at_mut(aligned(lens.lower));
    let (lower, _gap) = room.split_at_mut(lens.lower);
    let (hints, _gap) = rest.split_at_mut(lens.hints);
    write_tree(degrees, words, upper, lower, hints);
}

/// Writes the header and the directory of a tree of the given number of nodes.
fn seal_tree(nodes: usize, block: &mut [u64])
    requires short { nodes < 2 ^ 60 }
    requires room { length block.old ≡ end_of (tree_sections nodes) }
    ensures { IsSealed (tree_head nodes) (tree_sections nodes) block.old block.new }
{
    let sections = tree_sections(nodes);
    seal_sized(&tree_head(nodes), sections.as_slice(), block);
}

/// Writes the block of a tree.
fn write_block(degrees: &[usize], block: &mut [u64])
    requires { CanHold degrees.now block.old }
    ensures { IsBlockOf degrees.now block.new }
{
    write_parts(degrees, &mut *block);
    seal_tree(degrees.len(), block);
}

/// Writes the block of the tree of these degrees, which `LoudsView::open` opens and `check` accepts.
///
/// # Errors
/// `TooLong` exactly where there are 2^60 degrees or more; else `WrongLength` exactly where the words are more or fewer
/// than the block takes (`size`); else `NotATree` exactly where the degrees form no tree. The words stay as they are
/// then.
/// # Cost
/// Two passes over the degrees, one over the block, two over its words, and one selection for each hint (evident from
/// the code). Nothing is allocated.
///
/// ```
/// let mut block = [0u64; 64];                           // size(4) words
/// build([2usize, 0, 1, 0].as_slice(), block.as_mut_slice());   // Ok(())
/// ```
pub fn build(degrees: &[usize], block: &mut [u64]) -> Result<(), BuildError>
    ensures too_long { IsErrOf result BuildError.TooLong ↔ (2 ^ 60 ≤ length degrees.now) }
    ensures wrong_length { IsErrOf result BuildError.WrongLength ↔ ((length degrees.now < 2 ^ 60)
        × (length block.old ≢ end_of (tree_sections (length degrees.now)))) }
    ensures not_a_tree { IsErrOf result BuildError.NotATree ↔ ((length degrees.now < 2 ^ 60)
        × (length block.old ≡ end_of (tree_sections (length degrees.now))) × (¬ (IsTree degrees.now))) }
    ensures ok { IsOk result ↔ CanHold degrees.now block.old }
    ensures block { IfOk result (λ _. IsBlockOf degrees.now block.new) }
    ensures kept { IfErr result (λ _. block.new ≡ block.old) }
{
    if degrees.len() >= 1 << 60 {
        return Err(BuildError::TooLong);
    }
    if block.len() != size(degrees.len()) {
        return Err(BuildError::WrongLength);
    }
    if !is_tree(degrees) {
        return Err(BuildError::NotATree);
    }
    write_block(degrees, block);
    Ok(())
}
