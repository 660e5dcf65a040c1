//! Sections of a block of any kind: a copy of the block with one more, each section as it stands, and whether all are
//! as they were written.
ghost use Rattle.std.specs.Prelude.{◌≡◌, ◌≢◌, ◌<◌, ◌≤◌, ◌↔◌, ◌⊎◌};
ghost use Rattle.bitm_block.specs.Header.{count_in, IsBlock, IsVerified};
ghost use Rattle.bitm_block.specs.Layout.{end_of};
ghost use Rattle.block_sections.specs.Extended.{extended_sections, CanExtend, HasSectionRoom, IsExtended};
ghost use Rattle.block_tables.specs.Sections.{section_of};
ghost use Rattle.bitm_c.specs.Section.{IsSectionAt};

use bitm_abi::{BAD_SIZE, NONE, OK, WRONG};
use bitm_block::{Block, is_verified};
use block_sections::{ExtendError, extend, extended_size};

/// A section of a block: for C two numbers, and a pointer and a length.
#[repr(C)]
#[derive(Clone, Copy)]
pub struct Section<'a> {
    /// What the items are.
    pub role: u64,
    /// How many items there are.
    pub count: u64,
    /// The words of the items.
    pub words: &'a [u64],
}

/// Writes how many words a block takes with one section more.
#[unsafe(no_mangle)]
pub extern "C" fn bitm_block_extended_size(
    block: &[u64],
    role: u64,
    count: u64,
    out: &mut usize,
) -> u32
    ensures ok { (result ≡ 0) ↔ CanExtend block.now (section_of role count) }
    ensures wrong { (result ≡ 3) ↔ (¬ (IsBlock block.now)) }
    ensures status { (result ≡ 0) ⊎ (result ≡ 2) ⊎ (result ≡ 3) }
    ensures size { result ≡ 0
        → out.new ≡ end_of (extended_sections block.now (section_of role count)) }
    ensures kept { result ≢ 0 → out.new ≡ out.old }
{
    if Block::open(block).is_err() {
        return WRONG;
    }
    match extended_size(block, &bitm_block::Section { role, count }) {
        Some(words) => {
            *out = words;
            OK
        }
        None => BAD_SIZE,
    }
}

/// Writes a copy of a block with one section more.
#[unsafe(no_mangle)]
pub extern "C" fn bitm_block_extend(
    block: &[u64],
    role: u64,
    count: u64,
    words: &[u64],
    to: &mut [u64],
) -> u32
    ensures ok { (result ≡ 0)
        ↔ (HasSectionRoom block.now (section_of role count) words.now to.old × IsVerified block.now) }
    ensures wrong { (result ≡ 3) ↔ ((¬ (IsBlock block.now))
        ⊎ (HasSectionRoom block.now (section_of role count) words.now to.old
        × (¬ (IsVerified block.now)))) }
    ensures status { (result ≡ 0) ⊎ (result ≡ 2) ⊎ (result ≡ 3) }
    ensures extended { result ≡ 0
        → IsExtended block.now (section_of role count) words.now to.new }
    ensures kept { result ≢ 0 → to.new ≡ to.old }
{
    match extend(block, &bitm_block::Section { role, count }, words, to) {
        Ok(()) => OK,
        Err(ExtendError::NotABlock) => WRONG,
        Err(ExtendError::NotVerified) => WRONG,
        Err(_) => BAD_SIZE,
    }
}

/// Writes section `i` of a block, counted from 0. What its words hold is not looked at.
#[unsafe(no_mangle)]
pub extern "C" fn bitm_block_section<'a>(
    block: &'a [u64],
    i: usize,
    section: &mut Section<'a>,
) -> u32
    ensures ok { (result ≡ 0) ↔ (IsBlock block.now × (i < count_in block.now)) }
    ensures none { (result ≡ 1) ↔ (IsBlock block.now × (count_in block.now ≤ i)) }
    ensures status { (result ≡ 0) ⊎ (result ≡ 1) ⊎ (result ≡ 3) }
    ensures section { result ≡ 0 → IsSectionAt block.now i section.new }
    ensures kept { result ≢ 0 → section.new ≡ section.old }
{
    let Ok(opened) = Block::open(block) else {
        return WRONG;
    };
    match (opened.entry(i), opened.section(i)) {
        (Some(entry), Some(words)) => {
            *section = Section {
                role: entry.role,
                count: entry.count,
                words,
            };
            OK
        }
        _ => NONE,
    }
}

/// Whether a block of any kind is as it was written: one pass over its words.
#[unsafe(no_mangle)]
pub extern "C" fn bitm_block_check(block: &[u64]) -> u32
    ensures ok { (result ≡ 0) ↔ (IsBlock block.now × IsVerified block.now) }
    ensures status { (result ≡ 0) ⊎ (result ≡ 3) }
{
    if is_verified(block) { OK } else { WRONG }
}
