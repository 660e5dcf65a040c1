//! Whether words hold a tree: each 0 bit before the last has more 1 bits before it than 0 bits.
ghost use Rattle.std.specs.Prelude.{◌≡◌, ◌+◌, ◌-◌, ◌*◌, ◌%◌, ◌^◌, ◌<◌, ◌≤◌, ◌↔◌, length, IsTrue};
ghost use Rattle.std.specs.Prelude.{count_ones, ℕ, MatchOption};
ghost use Rattle.bit_lists.specs.Bits.{bits_of};
ghost use Rattle.bit_lists.specs.Count.{ones_before};
ghost use Rattle.louds.specs.Held.{degrees_of, tree_words, IsHeld};
ghost use Rattle.tree_block.specs.Check.{KeepsLead, OnesLead};

/// For each byte the least lead with which each of its 0 bits has more 1 bits before it than 0 bits.
#[rattlefmt::skip]
const NEEDED: [u8; 256] = [
    8, 6, 6, 4, 6, 4, 4, 2, 6, 4, 4, 2, 4, 2, 2, 0, 6, 4, 4, 2, 4, 2, 2, 0, 4, 2, 2, 0, 2, 0, 1, 0,
    6, 4, 4, 2, 4, 2, 2, 0, 4, 2, 2, 0, 2, 0, 1, 0, 4, 2, 2, 0, 2, 0, 1, 0, 3, 1, 1, 0, 2, 0, 1, 0,
    6, 4, 4, 2, 4, 2, 2, 0, 4, 2, 2, 0, 2, 0, 1, 0, 4, 2, 2, 0, 2, 0, 1, 0, 3, 1, 1, 0, 2, 0, 1, 0,
    5, 3, 3, 1, 3, 1, 1, 0, 3, 1, 1, 0, 2, 0, 1, 0, 4, 2, 2, 0, 2, 0, 1, 0, 3, 1, 1, 0, 2, 0, 1, 0,
    7, 5, 5, 3, 5, 3, 3, 1, 5, 3, 3, 1, 3, 1, 1, 0, 5, 3, 3, 1, 3, 1, 1, 0, 3, 1, 1, 0, 2, 0, 1, 0,
    5, 3, 3, 1, 3, 1, 1, 0, 3, 1, 1, 0, 2, 0, 1, 0, 4, 2, 2, 0, 2, 0, 1, 0, 3, 1, 1, 0, 2, 0, 1, 0,
    6, 4, 4, 2, 4, 2, 2, 0, 4, 2, 2, 0, 2, 0, 1, 0, 4, 2, 2, 0, 2, 0, 1, 0, 3, 1, 1, 0, 2, 0, 1, 0,
    5, 3, 3, 1, 3, 1, 1, 0, 3, 1, 1, 0, 2, 0, 1, 0, 4, 2, 2, 0, 2, 0, 1, 0, 3, 1, 1, 0, 2, 0, 1, 0,
];

/// `keeps_lead` of a lead below 64, byte by byte.
#[inline(always)]
fn keeps_lead_by_bytes(word: u64, lead: usize) -> bool
    requires { lead < 64 }
    ensures { IsTrue result ↔ KeepsLead word 64 lead }
{
    let mut left = lead;
    for k in 0..8usize {
        let byte = ((word >> (8 * k)) % 256) as u8;
        if NEEDED[byte as usize] as usize > left {
            return false;
        }
        left = left + 2 * byte.count_ones() as usize - 8;
    }
    true
}

/// The number of 0 bits right before which no 1 bit of the word stands. Each other 0 bit has a 1 bit of its own before
/// it, so with that lead, or a greater one, no bit needs to be looked at.
#[inline(always)]
fn lone_zeros(word: u64) -> usize
    ensures { (lead : ℕ) → result ≤ lead → KeepsLead word 64 lead }
{
    (!(word | (word << 1))).count_ones() as usize
}

/// Whether each 0 bit of a word has more 1 bits before it than 0 bits, where `lead` more 1 bits than 0 bits stand
/// before the word.
#[inline(always)]
fn keeps_lead(word: u64, lead: usize) -> bool
    ensures { IsTrue result ↔ KeepsLead word 64 lead }
{
    lead >= 64 || lead >= lone_zeros(word) || keeps_lead_by_bytes(word, lead)
}

/// The number of 1 bits among the lowest `len` bits of a word; `None` exactly where a 0 bit among them has no more 1
/// bits before it than 0 bits.
fn ones_of_part(word: u64, len: usize, lead: usize) -> Option<usize>
    requires len { len < 64 }
    requires lead { lead < 2 ^ 62 }
    ensures { MatchOption result (¬ (KeepsLead word len lead))
        (λ ones. KeepsLead word len lead × (ones ≡ count_ones (word % 2 ^ len))) }
{
    let mut ones = 0;
    for j in 0..len {
        if (word >> j) % 2 == 1 {
            ones += 1;
        } else if j >= lead + 2 * ones {
            return None;
        }
    }
    Some(ones)
}

/// The number of 1 bits in the first `len` words; `None` exactly where a 0 bit in these has no more 1 bits before it
/// than 0 bits.
fn ones_of_words(words: &[u64], len: usize) -> Option<usize>
    requires short { length words.now < 2 ^ 57 }
    requires within { len ≤ length words.now }
    ensures { let b = bits_of words.now in
        MatchOption result (¬ (OnesLead b (64 * len)))
        (λ ones. OnesLead b (64 * len) × (ones ≡ ones_before b (64 * len))) }
{
    let mut ones = 0;
    for i in 0..len {
        let word = words[i];
        if !keeps_lead(word, 2 * ones - 64 * i) {
            return None;
        }
        ones += word.count_ones() as usize;
    }
    Some(ones)
}

/// Whether the words hold a tree of the given number of nodes.
///
/// # Conditions
/// There are as many words as the tree takes.
/// # Cost
/// One pass over the words. A word is looked at byte by byte only where fewer than 64 more 1 bits than 0 bits stand
/// before it, and fewer than its `lone_zeros`.
pub(crate) fn holds_tree(words: &[u64], nodes: usize) -> bool
    requires few { nodes < 2 ^ 60 }
    requires tight { length words.now ≡ tree_words nodes }
    ensures { IsTrue result
        ↔ IsHeld (degrees_of (bits_of words.now) nodes) nodes (bits_of words.now) }
{
    if nodes == 0 || words[0] / 2 % 2 != 0 {
        return false;
    }
    let last = words.len() - 1;
    let Some(ones) = ones_of_words(words, last) else {
        return false;
    };
    // the last 0 bit stands at 2 * nodes
    let word = words[last];
    let rest = 2 * nodes % 64;
    let Some(more) = ones_of_part(word, rest, 2 * ones - 64 * last) else {
        return false;
    };
    ones + more == nodes && (word >> rest) % 2 == 0
}
