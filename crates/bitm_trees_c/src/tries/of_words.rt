//! The block of the trie of sorted words.
ghost use Rattle.std.specs.Prelude.{◌≡◌, ◌≢◌, ◌↔◌, ◌⊎◌};
ghost use Rattle.bit_lists.specs.First.{IsFirst};
ghost use Rattle.bitm_trees_c.specs.Trie.{AreUnsorted, AreUnsortedInRoom};
ghost use Rattle.tree_block.specs.Building.{CanBuild};
ghost use Rattle.tree_block.specs.Room.{AreSortedWords};
ghost use Rattle.tree_block.specs.Trie.{IsBlockOfWords};
ghost use Rattle.tree_block.specs.Words.{nodes_of, words_in, AreWords, IsUnsortedAt};

use bitm_abi::{BAD_SIZE, NONE, OK, UNSORTED};
use tree_block::words::{WordsError, build, nodes, unsorted_word};

/// Writes how many nodes the trie of these words has.
#[unsafe(no_mangle)]
pub extern "C" fn bitm_trie_nodes_of_words(bytes: &[u8], starts: &[usize], out: &mut usize) -> u32
    ensures ok { (result ≡ 0) ↔ AreSortedWords bytes.now starts.now }
    ensures unsorted { (result ≡ 4) ↔ AreUnsorted bytes.now starts.now }
    ensures status { (result ≡ 0) ⊎ (result ≡ 2) ⊎ (result ≡ 4) }
    ensures nodes { result ≡ 0 → out.new ≡ nodes_of (words_in bytes.now starts.now) }
    ensures kept { result ≢ 0 → out.new ≡ out.old }
{
    match nodes(bytes, starts) {
        Ok(count) => {
            *out = count;
            OK
        }
        Err(WordsError::NotWords) => BAD_SIZE,
        Err(WordsError::WrongLength) => BAD_SIZE,
        Err(WordsError::NotSorted) => UNSORTED,
    }
}

/// The first word that does not stand after the word before it.
#[unsafe(no_mangle)]
pub extern "C" fn bitm_trie_unsorted_word(bytes: &[u8], starts: &[usize], out: &mut usize) -> u32
    ensures bad { (result ≡ 2) ↔ ¬ (AreWords bytes.now starts.now) }
    ensures none { (result ≡ 1) ↔ AreSortedWords bytes.now starts.now }
    ensures unsorted { result ≡ 0 → IsFirst (IsUnsortedAt (words_in bytes.now starts.now)) out.new }
    ensures status { (result ≡ 0) ⊎ (result ≡ 1) ⊎ (result ≡ 2) }
    ensures kept { result ≢ 0 → out.new ≡ out.old }
{
    match unsorted_word(bytes, starts) {
        Ok(Some(word)) => {
            *out = word;
            OK
        }
        Ok(None) => NONE,
        Err(_) => BAD_SIZE,
    }
}

/// Writes the block of the trie of these words; what the scratch has is overwritten.
#[unsafe(no_mangle)]
pub extern "C" fn bitm_trie_build_words(
    bytes: &[u8],
    starts: &[usize],
    scratch: &mut [u64],
    block: &mut [u64],
) -> u32
    ensures ok { (result ≡ 0) ↔ CanBuild bytes.now starts.now scratch.old block.old }
    ensures unsorted { (result ≡ 4)
        ↔ AreUnsortedInRoom bytes.now starts.now scratch.old block.old }
    ensures status { (result ≡ 0) ⊎ (result ≡ 2) ⊎ (result ≡ 4) }
    ensures block { result ≡ 0 → IsBlockOfWords (words_in bytes.now starts.now) block.new }
    ensures kept { result ≢ 0 → block.new ≡ block.old }
{
    match build(bytes, starts, scratch, block) {
        Ok(()) => OK,
        Err(WordsError::NotWords) => BAD_SIZE,
        Err(WordsError::WrongLength) => BAD_SIZE,
        Err(WordsError::NotSorted) => UNSORTED,
    }
}
