//! A block whose header and directory are right.
ghost use Rattle.std.specs.Prelude.{◌≡◌, ◌+◌, ◌*◌, ◌/◌, ◌^◌, ◌<◌, ◌≤◌, ◌↔◌, ℕ, All, IsTrue, length};
ghost use Rattle.std.specs.Prelude.{IsOk, IfOk, IfErr, IsSome, IfSome, slice_index, slice_range};
ghost use Rattle.bitm_block.specs.Header.{begin_in, count_in, finish_in, head_in, section_entry, section_in};
ghost use Rattle.bitm_block.specs.Header.{sections_in, version_in};
ghost use Rattle.bitm_block.specs.Header.{IsBlock, IsDirectory, IsEntry, IsHeader, IsOfKind, IsReason, IsVerified};
ghost use Rattle.bitm_block.specs.Layout.{end_of, head_of, room_of, words_of};

use crate::checksum::checksum_in;
use crate::error::OpenError;
use crate::head::Head;
use crate::layout::{ENTRY_WORDS, HEADER_WORDS, MOST_SECTIONS, Section, head_len};
use std::marker::Model;

/// The letters `bitmtab`, lowest byte first: another number where the bytes stand in the other order.
const LETTERS: u64 = 0x62_6174_6d74_6962;

/// The versions of the format that are read: the highest byte of the mark has the version.
const OLDEST: u64 = 3;

const NEWEST: u64 = 4;

/// The version of the format that words are of.
#[inline(always)]
pub(crate) fn version_at(words: &[u64]) -> u64
    requires { 1 ≤ length words.now }
    ensures { result ≡ version_in words.now }
{
    words[0] >> 56
}

/// How many words the block has that begins with a header: so a reader of a stream knows how many follow.
///
/// # Errors
/// The errors of `Block::open` up to `UnknownFeature`; the words after the header are not looked at.
/// # Cost
/// The 16 words of the header are read (evident from the code).
///
/// ```
/// len_in(&first_words);   // Ok(56), or why they are no header
/// ```
pub fn len_in(words: &[u64]) -> Result<usize, OpenError>
    ensures ok { IsOk result ↔ IsHeader words.now }
    ensures len { IfOk result (λ n. n ≡ slice_index words.now 2 / 8) }
    ensures reason { IfErr result (λ e. IsReason words.now e) }
{
    if words.len() < HEADER_WORDS {
        return Err(OpenError::TooShort);
    }
    if words[0] % (1 << 56) != LETTERS {
        return Err(OpenError::NotABlock);
    }
    let version = version_at(words);
    if version < OLDEST || version > NEWEST {
        return Err(OpenError::OtherVersion);
    }
    if words[15] != checksum_in(version, &words[..15]) {
        return Err(OpenError::WrongHeader);
    }
    if words[7] != 0 || words[12] != 0 || words[13] != 0 {
        return Err(OpenError::UnknownFeature);
    }
    Ok((words[2] / 8) as usize)
}

/// Whether the given number of words has that number of bytes.
#[inline(always)]
fn are_bytes(bytes: u64, words: usize) -> bool
    ensures { IsTrue result ↔ (bytes ≡ 8 * words) }
{
    bytes % 8 == 0 && bytes / 8 == words as u64
}

/// Section `i`, as the directory has it.
#[inline(always)]
pub(crate) fn entry_at(block: &[u64], i: usize) -> Section
    requires { 16 + 4 * i + 4 ≤ length block.now }
    ensures { result ≡ section_entry block.now i }
{
    let at = HEADER_WORDS + ENTRY_WORDS * i;
    Section {
        role: block[at],
        count: block[at + 2],
    }
}

/// Whether the sections stand one after another, from the end of the directory to the end of the block.
fn are_placed(block: &[u64]) -> bool
    requires few { count_in block.now ≤ 16 }
    requires long { head_of (count_in block.now) ≤ length block.now }
    ensures { IsTrue result ↔ ((i : ℕ) → i < count_in block.now → IsEntry block.now i)
        × (length block.now ≡ end_of (sections_in block.now)) }
{
    let sections = block[11] as usize;
    let mut at = head_len(sections);
    for i in 0..sections {
        let section = entry_at(block, i);
        if !are_bytes(block[HEADER_WORDS + ENTRY_WORDS * i + 1], at) || section.count >= 1 << 58 {
            return false;
        }
        at += section.room();
    }
    at == block.len()
}

/// Whether all words are zeros.
pub(crate) fn are_zeros(words: &[u64]) -> bool
    ensures { IsTrue result ↔ All (λ w. w ≡ 0) words.now }
{
    words.iter().all(|w| *w == 0)
}

/// Whether the directory is right.
fn is_directory(block: &[u64]) -> bool
    requires { 16 ≤ length block.now }
    ensures { IsTrue result ↔ IsDirectory block.now }
{
    if block[11] > MOST_SECTIONS as u64 {
        return false;
    }
    let sections = block[11] as usize;
    let head = head_len(sections);
    if block.len() < head
        || block[14] != checksum_in(version_at(block), &block[HEADER_WORDS..head])
    {
        return false;
    }
    are_zeros(&block[HEADER_WORDS + ENTRY_WORDS * sections..head]) && are_placed(block)
}

/// Where section `i` of a block begins.
#[inline(always)]
pub(crate) fn begin_at(block: &[u64], i: usize) -> usize
    requires block { IsBlock block.now }
    requires inside { i < count_in block.now }
    ensures begin { result ≡ begin_in block.now i }
    ensures short { (section_entry block.now i).count < 2 ^ 58 }
    ensures next { begin_in block.now (i + 1) ≡ begin_in block.now i + room_of (section_entry block.now i) }
    ensures within { begin_in block.now (i + 1) ≤ length block.now }
{
    (block[HEADER_WORDS + ENTRY_WORDS * i + 1] / 8) as usize
}

/// A block whose header and directory are right. Contracts see its words; what the sections hold may be anything.
///
/// ```
/// let Ok(block) = Block::open(&words) else { .. };   // Err(OpenError::WrongLength) of half a file
/// block.head().kind;                                 // 7
/// block.section(0);                                  // Some(words of the first section)
/// ```
#[derive(Drop)]
pub struct Block<'a> {
    words: &'a [u64],
}

impl<'a> Model for Block<'a> {
    ghost use Rattle.std.specs.Prelude.{ℕ, List};
    ghost use Rattle.bitm_block.specs.Header.{IsBlock};

    ghost Value = { List ℕ };

    ghost view = { λ b. b.words.now };

    ghost invariant = { λ b. IsBlock b.words.now };
}

impl<'a> Block<'a> {
    /// The block that the words are.
    ///
    /// # Errors
    /// The first reason of `OpenError` that holds.
    /// # Cost
    /// Header and directory are read, at most 80 words (evident from the code).
    ///
    /// ```
    /// Block::open(block.as_slice());          // Ok(..) of what `seal` wrote
    /// Block::open(&block.as_slice()[..55]);   // Err(OpenError::WrongLength)
    /// ```
    pub fn open(words: &'a [u64]) -> Result<Block<'a>, OpenError>
        ensures ok { IsOk result ↔ IsBlock words.now }
        ensures words { IfOk result (λ block. block ≡ words.now) }
        ensures reason { IfErr result (λ e. IsReason words.now e) }
    {
        len_in(words)?;
        if !are_bytes(words[2], words.len()) {
            return Err(OpenError::WrongLength);
        }
        if !is_directory(words) {
            return Err(OpenError::WrongDirectory);
        }
        Ok(Block { words })
    }

    /// The words of the block.
    ///
    /// ```
    /// block.words().len();   // 56
    /// ```
    #[inline(always)]
    pub fn words(&self) -> &'a [u64]
        ensures words { result.now ≡ self.now }
        ensures block { IsBlock result.now }
    {
        self.words
    }

    /// The numbers of the header.
    ///
    /// ```
    /// block.head().kind;   // 7 of a tree
    /// ```
    #[inline(always)]
    pub fn head(&self) -> Head
        ensures { result ≡ head_in self.now }
    {
        Head {
            kind: self.words[1],
            len: self.words[3],
            width: self.words[4],
            ones_log2: self.words[5],
            zeros_log2: self.words[6],
            a: self.words[8],
            b: self.words[9],
            c: self.words[10],
        }
    }

    /// Whether the block is of a kind, and its first sections have these roles.
    ///
    /// ```
    /// block.is_of(7, [1u64, 2, 3].as_slice());   // true of a tree: its words, their upper and their lower table
    /// ```
    #[inline(always)]
    pub fn is_of(&self, kind: u64, roles: &[u64]) -> bool
        ensures { IsTrue result ↔ IsOfKind kind roles.now self.now }
    {
        let words = self.words();
        if words[1] != kind || self.sections() < roles.len() {
            return false;
        }
        for i in 0..roles.len() {
            if entry_at(words, i).role != roles[i] {
                return false;
            }
        }
        true
    }

    /// How many sections there are.
    ///
    /// ```
    /// block.sections();   // 1
    /// ```
    #[inline(always)]
    pub fn sections(&self) -> usize
        ensures count { result ≡ count_in self.now }
        ensures few { result ≤ 16 }
    {
        self.words[11] as usize
    }

    /// The role and the number of items of section `i`; `None` exactly where there is none.
    ///
    /// ```
    /// block.entry(0);   // Some(Section { role: 1, count: 30 })
    /// ```
    pub fn entry(&self, i: usize) -> Option<Section>
        ensures some { IsSome result ↔ (i < count_in self.now) }
        ensures entry { IfSome result (λ section. section ≡ section_entry self.now i) }
    {
        if i >= self.sections() {
            return None;
        }
        Some(entry_at(self.words, i))
    }

    /// The words of section `i`; `None` exactly where there is none. They may hold anything (`verify`).
    ///
    /// ```
    /// block.section(0);   // Some(30 words)
    /// block.section(1);   // None
    /// ```
    pub fn section(&self, i: usize) -> Option<&'a [u64]>
        ensures some { IsSome result ↔ (i < count_in self.now) }
        ensures words { IfSome result (λ part. part.now ≡ section_in self.now i) }
    {
        let section = self.entry(i)?;
        let at = begin_at(self.words, i);
        Some(&self.words[at..at + section.words()])
    }
}
