//! Laws of blocks that are extended by a section. A function here does nothing: its contract is the law.
ghost use Rattle.block_sections.specs.Hashes.{KeepsDictionaries, KeepsHashes, KeepsSeededHashes};
ghost use Rattle.block_sections.specs.Kept.{KeepsIndexes, KeepsSequences};
ghost use Rattle.block_sections.specs.Matrices.{KeepsMatrices};
ghost use Rattle.block_sections.specs.Sparse.{KeepsSparseBits};
ghost use Rattle.block_sections.specs.Strings.{KeepsStrings};
ghost use Rattle.block_sections.specs.Texts.{KeepsTexts};
ghost use Rattle.block_sections.specs.Trees.{KeepsTrees, KeepsTries};

/// A block of a sequence, of whichever kind (sparse bits are one), still opens, passes its check and is the block of
/// the same numbers with one section more, and has the same parts, where the section is not taken for hints.
pub fn keeps_sequences()
    ensures { KeepsSequences }
{}

/// A block of bits with their index still opens, passes its check and is the block of the same bits with one section
/// more, and has the same parts.
pub fn keeps_indexes()
    ensures { KeepsIndexes }
{}

/// A block of a tree still opens, passes its check and is the block of the same degrees with one section more, and has
/// the same parts, where the section is not taken for hints.
pub fn keeps_trees()
    ensures { KeepsTrees }
{}

/// A block of a trie still opens, passes its check and is the block of the same trie with one section more, and has the
/// same parts, where the section is not taken for hints.
pub fn keeps_tries()
    ensures { KeepsTries }
{}

/// A block of sparse bits still opens, passes its check and is the block of the same bits with one section more, and
/// has the same parts, where the section is not taken for hints.
pub fn keeps_sparse_bits()
    ensures { KeepsSparseBits }
{}

/// A block of a matrix still opens, passes its check and is the block of the same numbers with one section more, and
/// has the same parts, where the section is not taken for quarters or hints. A section of role 6 is taken for quarters
/// as the sixth one; one of role 22 for hints as the sixth one, or as the seventh after quarters.
pub fn keeps_matrices()
    ensures { KeepsMatrices }
{}

/// A block of a perfect hash without seeds still opens, passes its check and is the block of the same levels with one
/// section more, and has the same parts. The block is opened as a dictionary too exactly where it was before, or where
/// the section is taken for keys: the block had four sections, and this one has role 5 and a word for each key.
pub fn keeps_hashes()
    ensures { KeepsHashes }
{}

/// A block of a dictionary still opens, passes its check and is the block of the same dictionary with one section more,
/// and has the same parts.
pub fn keeps_dictionaries()
    ensures { KeepsDictionaries }
{}

/// A block of a perfect hash with seeds still opens, passes its check and is the block of the same levels and seeds
/// with one section more, and has the same parts.
pub fn keeps_seeded_hashes()
    ensures { KeepsSeededHashes }
{}

/// A block of strings still opens, passes its check and is the block of the same strings with one section more, and has
/// the same parts.
pub fn keeps_strings()
    ensures { KeepsStrings }
{}

/// A block of the index of a text, of letters or of bytes, still opens, passes its check and is the block of the same
/// text with one section more, and has the same parts.
pub fn keeps_texts()
    ensures { KeepsTexts }
{}
