//! A dictionary of numbers in memory that may hold anything.
ghost use Rattle.std.specs.Prelude.{◌≡◌, ◌+◌, ◌<◌, ◌≤◌, ◌↔◌, ℕ, IsTrue, length, slice_index, Some, SomeIff};
ghost use Rattle.bitm_tables.specs.Reads.{none_read, ReadsAtMost};
ghost use Rattle.perfect_hash.specs.Asking.{IsBelow};
ghost use Rattle.hash_block.specs.Dictionary.{dictionary_in, kept, number_of_key, IsDictionaryIn};
ghost use Rattle.hash_block.specs.Dictionary.{IsDictionaryBlock, IsKeyFound, IsKeyHeld, IsSoundDictionary};
ghost use Rattle.hash_block.specs.Parts.{IsHash};

use crate::hashing::Added;
use crate::opening::open;
use crate::sections::KEYS;
use crate::view::HashView;
use bitm_block::Block;
use bitm_tables::answer::Answer;
use bitm_tables::source::counts::ReadCounts;
use perfect_hash::levels::KeyHash;
use std::marker::Model;

/// A dictionary of numbers in memory that may hold anything: a hash, and the keys in the order of their numbers.
///
/// Contracts see both. A call says its answer where they form a dictionary, and where they do not.
///
/// ```
/// let Some(squares) = open_dictionary(block.as_slice()) else { .. };
/// squares.check();     // true of a block that `build_dictionary` wrote
/// squares.find(49);    // Found(number), Absent or Wrong
/// ```
#[derive(Drop)]
pub struct DictionaryView<'a> {
    hash: HashView<'a>,
    keys: &'a [u64],
}

impl<'a> Model for DictionaryView<'a> {
    ghost use Rattle.hash_block.specs.Dictionary.{DictionaryParts, HasKeys};

    ghost Value = { DictionaryParts };

    ghost view = { λ d. record { hash = d.hash; keys = d.keys.now } };

    ghost invariant = { λ d. HasKeys (record { hash = d.hash; keys = d.keys.now }) };
}

impl<'a> DictionaryView<'a> {
    /// A dictionary over a hash and the keys in the order of their numbers; `None` exactly where there are not as many
    /// keys as the hash announces.
    ///
    /// ```
    /// DictionaryView::over(hash, &[49, 4, 9]);   // Some(..) where hash.keys() is 3
    /// ```
    #[inline(always)]
    pub fn over(hash: HashView<'a>, keys: &'a [u64]) -> Option<DictionaryView<'a>>
        ensures { SomeIff result (length keys.now ≡ hash.entry.keys)
            (record { hash = hash.entry; keys = keys.now }) }
    {
        if keys.len() == hash.keys() {
            Some(DictionaryView { hash, keys })
        } else {
            None
        }
    }

    /// The hash.
    ///
    /// ```
    /// squares.hash().levels();   // 1
    /// ```
    #[inline(always)]
    pub fn hash(&self) -> &HashView<'a>
        ensures { result.now ≡ self.now.hash }
    {
        &self.hash
    }

    /// The keys, in the order of their numbers.
    ///
    /// ```
    /// squares.keys().len();   // 3
    /// ```
    #[inline(always)]
    pub fn keys(&self) -> &'a [u64]
        ensures keys { result.now ≡ self.now.keys }
        ensures len { length result.now ≡ self.now.hash.keys }
    {
        self.keys
    }

    /// The number of a key, which is where it stands among the keys.
    ///
    /// Whatever the memory holds, the key stands at the number that is found. Where it holds a dictionary, the answer
    /// is `Absent` exactly where the key is none of its keys, and never `Wrong`.
    ///
    /// # Cost
    /// The cost of `find_counted`.
    ///
    /// ```
    /// squares.find(49);   // Found(number), Absent or Wrong
    /// ```
    #[inline]
    pub fn find(&self, key: u64) -> Answer<usize>
        ensures held { IsKeyHeld self.now.keys key result }
        ensures found { IsDictionaryIn self.now → IsKeyFound self.now.keys key result }
    {
        self.find_counted(key).0
    }

    /// The answer of `find`, and the reads of the hash for it, whatever the memory holds: at most one word of each
    /// level, and one upper entry, one lower entry and eight words for the rank. Of the keys at most one is read
    /// (evident from the code).
    ///
    /// ```
    /// squares.find_counted(49).1.words();   // at most 9 of one level
    /// ```
    #[inline]
    pub fn find_counted(&self, key: u64) -> (Answer<usize>, ReadCounts)
        ensures held { IsKeyHeld self.now.keys key result.0 }
        ensures found { IsDictionaryIn self.now → IsKeyFound self.now.keys key result.0 }
        ensures reads { ReadsAtMost none_read result.1 1 1 (length self.now.hash.sizes + 8) }
    {
        let seed = self.hash.seed();
        let (number, reads) = self.hash.get_counted(Added { seed }.hash(&key));
        (self.kept_if(key, number), reads)
    }

    /// A number, where the key stands there; else the key is absent.
    #[inline(always)]
    fn kept_if(&self, key: u64, number: Answer<usize>) -> Answer<usize>
        requires { IsBelow (length self.now.keys) number }
        ensures { result ≡ kept self.now.keys key number }
    {
        match number {
            Answer::Found(number) if self.keys[number] != key => Answer::Absent,
            answer => answer,
        }
    }

    /// Whether the parts form a dictionary: a hash, by which each key stands at its number.
    ///
    /// # Cost
    /// The cost of `HashView::check`, and of `find` for each key (evident from the code).
    ///
    /// ```
    /// squares.check();   // true of a block that `build_dictionary` wrote
    /// ```
    pub fn check(&self) -> bool
        ensures { IsTrue result ↔ IsDictionaryIn self.now }
    {
        self.hash.check() && self.are_own()
    }

    /// Whether each key stands at its number.
    fn are_own(&self) -> bool
        requires { IsHash self.now.hash }
        ensures { IsTrue result ↔ ((i : ℕ) → i < length self.now.keys
            → number_of_key self.now.hash (slice_index self.now.keys i) ≡ Some i) }
    {
        for i in 0..self.keys.len() {
            if !self.is_own(i) {
                return false;
            }
        }
        true
    }

    /// Whether key `i` stands at its number.
    #[inline(always)]
    fn is_own(&self, i: usize) -> bool
        requires hash { IsHash self.now.hash }
        requires inside { i < length self.now.keys }
        ensures { IsTrue result
            ↔ (number_of_key self.now.hash (slice_index self.now.keys i) ≡ Some i) }
    {
        match self.hash.number_of(self.keys[i]) {
            Some(number) => number == i,
            None => false,
        }
    }
}

/// The dictionary in a block; `None` exactly where the words are no block of a hash (`open` says why), or no fifth
/// section has as many keys as the header says. What the sections hold is not looked at: `find` has no condition on it.
///
/// # Cost
/// Header and directory are read, at most 80 words (evident from the code).
///
/// ```
/// let Some(squares) = open_dictionary(block.as_slice()) else { .. };
/// squares.find(49);   // Found(number), Absent or Wrong
/// ```
pub fn open_dictionary(block: &[u64]) -> Option<DictionaryView<'_>>
    ensures { SomeIff result (IsDictionaryBlock block.now) (dictionary_in block.now) }
{
    let hash = open(block)?;
    let Ok(opened) = Block::open(block) else {
        return None;
    };
    let keys = opened.section(4)?;
    if block[32] != KEYS {
        return None;
    }
    DictionaryView::over(hash, keys)
}

/// Whether the block is opened, is as it was written, and holds a dictionary: then `find` answers by its keys.
///
/// # Cost
/// Two passes over the words of the block, and `find` for each key (evident from the code).
///
/// ```
/// check_dictionary(block.as_slice());   // true of a block that `build_dictionary` wrote
/// ```
pub fn check_dictionary(block: &[u64]) -> bool
    ensures { IsTrue result ↔ IsSoundDictionary block.now }
{
    match (open_dictionary(block), Block::open(block)) {
        (Some(dictionary), Ok(opened)) => opened.verify() && dictionary.check(),
        _ => false,
    }
}
