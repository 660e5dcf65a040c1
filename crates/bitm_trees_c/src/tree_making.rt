//! The block of a tree: how many words it takes, writing it, opening it and checking it.
ghost use Rattle.std.specs.Prelude.{◌≡◌, ◌≢◌, ◌^◌, ◌<◌, ◌↔◌, ◌⊎◌, length};
ghost use Rattle.bitm_block.specs.Layout.{end_of};
ghost use Rattle.bit_lists.specs.First.{IsFirst};
ghost use Rattle.louds.specs.Tree.{IsMisfit, IsTree};
ghost use Rattle.tree_block.specs.Block.{tree_in, tree_sections, CanHold, HoldsTree, IsBlockOf, IsTreeBlock};
ghost use Rattle.bitm_abi.specs.Tree.{tree_parts};

use bitm_abi::{BAD_SIZE, OK, Tree, WRONG, report_option};
use louds::misfit;
use tree_block::{BuildError, LoudsView, build, size};

/// Writes how many words the block of a tree of that many nodes takes; there are fewer than 2^60 nodes.
#[unsafe(no_mangle)]
pub extern "C" fn bitm_tree_size(nodes: usize, out: &mut usize) -> u32
    ensures ok { (result ≡ 0) ↔ nodes < 2 ^ 60 }
    ensures size { result ≡ 0 → out.new ≡ end_of (tree_sections nodes) }
    ensures kept { result ≢ 0 → (result ≡ 2) × (out.new ≡ out.old) }
{
    if nodes >= 1 << 60 {
        return BAD_SIZE;
    }
    *out = size(nodes);
    OK
}

/// Writes the block of the tree of these degrees.
#[unsafe(no_mangle)]
pub extern "C" fn bitm_tree_build(degrees: &[usize], block: &mut [u64]) -> u32
    ensures ok { (result ≡ 0) ↔ CanHold degrees.now block.old }
    ensures wrong { (result ≡ 3) ↔ ((length degrees.now < 2 ^ 60)
        × (length block.old ≡ end_of (tree_sections (length degrees.now))) × (¬ (IsTree degrees.now))) }
    ensures status { (result ≡ 0) ⊎ (result ≡ 2) ⊎ (result ≡ 3) }
    ensures block { result ≡ 0 → IsBlockOf degrees.now block.new }
    ensures kept { result ≢ 0 → block.new ≡ block.old }
{
    match build(degrees, block) {
        Ok(()) => OK,
        Err(BuildError::TooLong) => BAD_SIZE,
        Err(BuildError::WrongLength) => BAD_SIZE,
        Err(BuildError::NotATree) => WRONG,
    }
}

/// The first node at which the degrees form no tree.
#[unsafe(no_mangle)]
pub extern "C" fn bitm_tree_misfit(degrees: &[usize], out: &mut usize) -> u32
    ensures misfit { result ≡ 0 → IsFirst (IsMisfit degrees.now) out.new }
    ensures none { (result ≡ 1) ↔ (IsTree degrees.now ⊎ (length degrees.now ≡ 0)) }
    ensures status { (result ≡ 0) ⊎ (result ≡ 1) }
    ensures kept { result ≢ 0 → out.new ≡ out.old }
{
    report_option(misfit(degrees), out)
}

/// Opens a block: writes the tree that queries take. What the words and tables hold is not looked at.
#[unsafe(no_mangle)]
pub extern "C" fn bitm_tree_open<'a>(block: &'a [u64], tree: &mut Tree<'a>) -> u32
    ensures ok { (result ≡ 0) ↔ IsTreeBlock block.now }
    ensures tree { result ≡ 0 → tree_parts tree.new ≡ tree_in block.now }
    ensures kept { result ≢ 0 → (result ≡ 3) × (tree.new ≡ tree.old) }
{
    match LoudsView::open(block) {
        Some(view) => {
            *tree = Tree::of(&view);
            OK
        }
        None => WRONG,
    }
}

/// Whether a block is as it was written, and holds a tree: three passes over its words.
#[unsafe(no_mangle)]
pub extern "C" fn bitm_tree_check(block: &[u64]) -> u32
    ensures ok { (result ≡ 0) ↔ HoldsTree block.now }
    ensures status { (result ≡ 0) ⊎ (result ≡ 3) }
{
    if LoudsView::open_checked(block).is_some() {
        OK
    } else {
        WRONG
    }
}
