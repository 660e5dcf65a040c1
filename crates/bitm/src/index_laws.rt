//! Laws of what tables and words hold, beside the laws of bits in `laws`: a function here does nothing, and its
//! contract is the law. That rank and selection are inverse to each other is `laws::rank_of_picked` and
//! `laws::picked_by_rank`; that each bit is a 1 bit or a 0 bit is `laws::ones_and_zeros`. `example_callers`
//! (`inverse.rt`) shows what follows for calls of an index.
ghost use Rattle.bitm.specs.IndexLaws.{EntriesFit, OnesOfWord, TablesHaveSizes};

/// No field of an entry of a lower table exceeds its greatest value, so `complement_entry` gives the entry of the
/// negated bits.
pub fn entries_fit()
    ensures { EntriesFit }
{}

/// The tables of words that an index can have are as long as calls over any tables require.
#[tactic(auto, using(bitm_select::proofs::Callers::sizes_of))]
pub fn tables_have_sizes()
    ensures { TablesHaveSizes }
{}

/// `count_ones` of a word counts the 1 bits among its bits, so a test `rank < word.count_ones()` meets the condition of
/// `select64`.
#[tactic(auto, using(broadword::proofs::lemmas::InWordLemmas::ones_of_word))]
pub fn ones_of_word()
    ensures { OnesOfWord }
{}
