//! A copy of a block with one section more.
ghost use Rattle.std.specs.Prelude.{◌≡◌, ◌≢◌, ◌+◌, ◌↔◌, IfErr, IfOk, IsErrOf, IsOk, SomeIff, length};
ghost use Rattle.bitm_block.specs.Header.{IsBlock, IsVerified};
ghost use Rattle.bitm_block.specs.Layout.{end_of, words_of, AreShort};
ghost use Rattle.block_sections.specs.Extended.{extended_sections, CanExtend, FitsWith, HasSectionRoom, IsExtended};

use crate::error::ExtendError;
use crate::placing::{copy_parts, list_sections};
use bitm_block::{Block, MOST_SECTIONS, Section, aligned, head_len, seal_sized};

/// How many words an opened block takes with one section more.
fn size_with(block: &Block<'_>, added: &Section) -> Option<usize>
    ensures { SomeIff result (AreShort (extended_sections block.now added.now))
        (end_of (extended_sections block.now added.now)) }
{
    let words = block.words();
    let count = block.sections();
    if count >= MOST_SECTIONS || added.count >= 1 << 58 {
        return None;
    }
    let body = words.len() - head_len(count);
    let len = head_len(count + 1) + body + aligned(added.words());
    if len < 1 << 60 { Some(len) } else { None }
}

/// How many words a block takes with one section more, of any role. `None` exactly where the words are no block
/// (`bitm_block::Block::open` says why), it has 16 sections already, the section has 2^58 items or more, or the new
/// block would have 2^60 words or more.
///
/// # Cost
/// Header and directory are read, at most 80 words (evident from the code).
///
/// ```
/// // 80 words of a block of 64 with four sections: a fifth entry, and two words
/// extended_size(block.as_slice(), &Section { role: 1 << 16, count: 11 });   // Some(80)
/// ```
pub fn extended_size(block: &[u64], added: &Section) -> Option<usize>
    ensures { SomeIff result (CanExtend block.now added.now)
        (end_of (extended_sections block.now added.now)) }
{
    let Ok(opened) = Block::open(block) else {
        return None;
    };
    size_with(&opened, added)
}

/// Writes the block with one section more.
fn write_extended(block: &Block<'_>, added: &Section, words: &[u64], to: &mut [u64])
    requires { HasSectionRoom block.now added.now words.now to.old }
    ensures { IsExtended block.now added.now words.now to.new }
{
    let mut list = [*added; MOST_SECTIONS];
    list_sections(block, added, list.as_mut_slice());
    copy_parts(block, added, words, &mut *to);
    let sections = &list.as_slice()[..block.sections() + 1];
    seal_sized(&block.head(), sections, to);
}

/// Writes to `to` a copy of a block with one section more, after its own: a block with the same numbers, the same
/// sections and the same words in each, and with all checksums right. The section may have any role; those from 2^16 on
/// are a caller's own, and have one byte for each item.
///
/// # Errors
/// `NotABlock` exactly where the words are no block; else `TooLarge` exactly where it has 16 sections already, the
/// section has 2^58 items or more, or the new block would have 2^60 words or more; else `WrongWords` exactly where the
/// words are more or fewer than the items of the section take (`Section::words`); else `WrongLength` exactly where `to`
/// has more or fewer words than the new block takes (`extended_size`); else `NotVerified` exactly where some section is
/// not as it was written (`Block::verify`): so what was spoiled gets no right checksum. `to` stays as it is then.
/// # Cost
/// Two passes over the words of the block, one over the words of the section, and two over the new block (evident from
/// the code). Nothing is allocated.
///
/// ```
/// let note = Section { role: 1 << 16, count: 11 };                        // eleven bytes
/// let mut longer = [0u64; 80];                                            // extended_size(..): Some(80)
/// let hello_world = [0x6f77_206f_6c6c_6568, 0x646c72];
/// extend(block.as_slice(), &note, &hello_world, longer.as_mut_slice());   // Ok(())
/// ```
pub fn extend(
    block: &[u64],
    added: &Section,
    words: &[u64],
    to: &mut [u64],
) -> Result<(), ExtendError>
    ensures not_a_block { IsErrOf result ExtendError.NotABlock ↔ (¬ (IsBlock block.now)) }
    ensures too_large { IsErrOf result ExtendError.TooLarge
        ↔ (IsBlock block.now × (¬ (AreShort (extended_sections block.now added.now)))) }
    ensures wrong_words { IsErrOf result ExtendError.WrongWords
        ↔ (CanExtend block.now added.now × (length words.now ≢ words_of added.now)) }
    ensures wrong_length { IsErrOf result ExtendError.WrongLength
        ↔ (FitsWith block.now added.now words.now
        × (length to.old ≢ end_of (extended_sections block.now added.now))) }
    ensures not_verified { IsErrOf result ExtendError.NotVerified
        ↔ (HasSectionRoom block.now added.now words.now to.old × (¬ (IsVerified block.now))) }
    ensures ok { IsOk result ↔ (HasSectionRoom block.now added.now words.now to.old × IsVerified block.now) }
    ensures extended { IfOk result (λ _. IsExtended block.now added.now words.now to.new) }
    ensures kept { IfErr result (λ _. to.new ≡ to.old) }
{
    let Ok(opened) = Block::open(block) else {
        return Err(ExtendError::NotABlock);
    };
    let Some(len) = size_with(&opened, added) else {
        return Err(ExtendError::TooLarge);
    };
    if words.len() != added.words() {
        return Err(ExtendError::WrongWords);
    }
    if to.len() != len {
        return Err(ExtendError::WrongLength);
    }
    if !opened.verify() {
        return Err(ExtendError::NotVerified);
    }
    write_extended(&opened, added, words, to);
    Ok(())
}
