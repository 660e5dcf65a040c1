//! Whether the labels of siblings rise: one body, over any labels, by the bits of a tree. The tree with labels and a
//! trie in a block run it.
ghost use Rattle.std.specs.Prelude.{◌≡◌, ◌+◌, ◌*◌, ◌<◌, ◌↔◌, IsTrue, slice_index, true};
ghost use Rattle.bit_lists.specs.Bits.{bits_of, item};
ghost use Rattle.bit_lists.specs.Count.{ones_before};
ghost use Rattle.louds.specs.Held.{degrees_of, IsHeld};
ghost use Rattle.louds.specs.Labels.{Rise};
ghost use Rattle.louds.specs.Leading.{ReadsLabels};
ghost use Rattle.louds.specs.Tree.{IsNextSibling};

use crate::probing::Labels;
use bit_words::words;

/// Whether the label of a node, whose 1 bit stands at `position`, is less than the label of its next sibling, if it has
/// one: there is one where a 1 bit stands next.
#[inline(always)]
fn is_less_than_next<L: Labels>(
    bits: &[u64],
    labels: &mut L,
    len: usize,
    node: usize,
    position: usize,
) -> bool
    requires held { IsHeld (degrees_of (bits_of bits.now) len) len (bits_of bits.now) }
    requires labels { L.fitting (L.seen labels.old).words (L.seen labels.old).width len }
    requires inside { position < 2 * len }
    requires is_one { item (bits_of bits.now) position ≡ true }
    requires before { node ≡ ones_before (bits_of bits.now) position }
    ensures rise { IsTrue result ↔ (IsNextSibling (degrees_of (bits_of bits.now) len) node (node + 1)
        → slice_index (L.listed (L.seen labels.old).words (L.seen labels.old).width len) node
        < slice_index (L.listed (L.seen labels.old).words (L.seen labels.old).width len) (node + 1)) }
    ensures reads { ReadsLabels (L.seen labels.old) (L.seen labels.new) 2 }
{
    if node == 0 {
        return true;
    }
    if !words::get_bit(bits, position + 1) {
        return true;
    }
    let own = labels.label_of(len, node);
    let next = labels.label_of(len, node + 1);
    if own < next {
        return true;
    }
    false
}

/// Whether the labels of siblings rise, in one pass over the bits of a tree.
///
/// # Conditions
/// The bits hold a tree of `len` nodes, and there are labels for as many.
/// # Cost
/// Two labels for each node; one pass over the bits (evident from the code).
///
/// ```
/// labels_rise(bits, &mut labels, 4);   // true
/// ```
pub fn labels_rise<L: Labels>(bits: &[u64], labels: &mut L, len: usize) -> bool
    requires held { IsHeld (degrees_of (bits_of bits.now) len) len (bits_of bits.now) }
    requires labels { L.fitting (L.seen labels.old).words (L.seen labels.old).width len }
    ensures rise { IsTrue result ↔ Rise (degrees_of (bits_of bits.now) len)
        (L.listed (L.seen labels.old).words (L.seen labels.old).width len) }
    ensures reads { ReadsLabels (L.seen labels.old) (L.seen labels.new) (2 * len) }
{
    // the 1 bits before `position`
    let mut node = 0;
    for position in 0..2 * len {
        if words::get_bit(bits, position) {
            if !is_less_than_next(bits, &mut *labels, len, node, position) {
                return false;
            }
            node += 1;
        }
    }
    true
}
